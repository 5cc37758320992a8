use bfm_base::Refused;
use crossing_check::SetVerdict;
use sweep_run::Tally;

/// What a finished run tells of itself.
#[derive(Clone, Copy, Debug, PartialEq, Eq)]
pub struct RunReport {
    /// The length of what was kept of the input, in bytes.
    pub kept: u64,
    /// The number of frames that were written.
    pub frames: u64,
    /// The last time, in sweeps.
    pub mcs: u64,
    /// The number of commands that were skipped.
    pub skipped: u64,
    /// How many moves were made, and how many pairs were linked.
    pub tally: Tally,
    /// Whether the set of bond vectors allows a crossing move.
    pub verdict: SetVerdict,
}

/// How a job ends: what its words and the bytes of its input call for.
#[derive(Clone, Copy, Debug, PartialEq, Eq)]
pub enum Ending {
    /// A run was made.
    Ran(RunReport),
    /// What was asked of the input was written.
    Answered,
    /// The file of a start was written.
    Built,
    /// The number of the first wrong word, from 1.
    BadWords(u64),
    BadFile(Refused),
    /// The box has too little room for the start: how much that needs and how much there is, counted
    /// as its builder counts (cells for a melt, monomers of a chain for a brush).
    NoRoom { need: u64, have: u64 },
    /// The limit that the input goes beyond, in bytes.
    TooLong(u64),
    /// The last time of the run, in sweeps, and how far it might come, in lattice units.
    TooFar { mcs: u128, reach: u128 },
}

/// What keeps a job from its ending.
#[derive(Clone, Copy, Debug, PartialEq, Eq)]
pub enum Fault {
    /// A call of the input failed.
    Read,
    /// A call of the output failed.
    Write,
    /// Want of memory.
    Memory,
}

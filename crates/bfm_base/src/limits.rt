//! The limits of the model, of its files and of a run, each in one place. A file or a job beyond
//! them is refused, and no call below the reader is ever handed more.

/// The greatest number of monomers in a world: 2^18.
pub const MOST_MONOMERS: u32 = 262_144;

/// The least side of a box, in lattice units.
pub const LEAST_SIDE: u16 = 8;

/// The greatest side of a box, in lattice units.
pub const GREATEST_SIDE: u16 = 512;

/// The greatest number of sites in a box: 2^24.
pub const MOST_SITES: u32 = 16_777_216;

/// The greatest number of bonds of a monomer.
pub const MOST_BONDS: usize = 8;

/// The greatest label of a monomer: 2^31 - 1.
pub const GREATEST_LABEL: u32 = 2_147_483_647;

/// The greatest valence of a monomer: as many bonds as it may have by linking.
pub const GREATEST_VALENCE: u8 = 8;

/// The greatest class of a monomer. Its class is its label where that is from 1 to this, else 0.
pub const GREATEST_CLASS: u8 = 15;

/// The greatest absolute weight of a contact.
pub const GREATEST_WEIGHT: u64 = 1_000;

/// The greatest acceptance threshold: 2^32.
pub const GREATEST_THRESHOLD: u64 = 4_294_967_296;

/// The greatest number of vectors in a bond set.
pub const MOST_VECTORS: usize = 200;

/// The greatest absolute coordinate at the start of a frame line, in lattice units: 2^44.
pub const START_REACH: u64 = 17_592_186_044_416;

/// The greatest absolute coordinate that a run may come to, in lattice units: 2^44.
pub const RUN_REACH: u64 = 17_592_186_044_416;

/// The greatest absolute coordinate of a monomer in a world, in lattice units: 2^44 + 2^20. A frame
/// line begins within 2^44, and its bonds lead less than 2^20 farther.
pub const WORLD_REACH: u64 = 17_592_187_092_992;

/// The greatest absolute coordinate that geometry is asked about, in lattice units: 2^45.
pub const PLACE_REACH: u64 = 35_184_372_088_832;

/// The greatest absolute component of a difference of two places, in lattice units: 2^46.
pub const DIFFERENCE_REACH: u64 = 70_368_744_177_664;

/// The greatest absolute value of a number in a file: 2^62.
pub const GREATEST_NUMBER: u64 = 4_611_686_018_427_387_904;

/// The greatest length of a line without its newline, in bytes: 2^19 - 1. A carriage return counts.
pub const LONGEST_LINE: usize = 524_287;

/// The greatest time of a frame, in sweeps: 2^40.
pub const GREATEST_MCS: u64 = 1_099_511_627_776;

/// The greatest number of frames that a run writes: 2^20.
pub const MOST_FRAMES: u64 = 1_048_576;

/// The greatest number of sweeps between two frames of a run: 2^30.
pub const MOST_SWEEPS: u64 = 1_073_741_824;

/// How many bytes of input are read at most, unless a job says otherwise: 2^28.
pub const USUAL_LIMIT: u64 = 268_435_456;

/// The greatest limit that a job may set on the bytes of its input: 2^30.
pub const GREATEST_LIMIT: u64 = 1_073_741_824;

ghost use Rattle.std.specs.Prelude.{◌≡◌};
ghost use Rattle.bfm_base.specs.Cause.{cause_number, cause_name};

/// Why a line of a file is refused. The causes are numbered 1 to 19 in this order, and where
/// several hold of one line the least counts.
#[derive(Clone, Copy, Debug, PartialEq, Eq)]
pub enum Cause {
    /// The line has another form.
    BadLine,
    /// A number is outside its range, or there are too many entries.
    OutOfLimit,
    /// A bond vector whose greatest absolute component is not 2 or 3.
    BadVector,
    /// A command, a vector or an identifier stands a second time.
    Repeated,
    /// The negative of a bond vector is not in the set.
    NotSymmetric,
    /// A byte of a frame line is no identifier of the set.
    UnknownId,
    /// A frame has more positions than there are monomers.
    FrameLong,
    /// A command comes before the frame above it is whole.
    FrameShort,
    /// A required command is missing.
    Missing,
    /// A command stands where it may not.
    Misplaced,
    /// A frame has a lesser time than the frame before it.
    McsOrder,
    /// A position is beyond a wall.
    Outside,
    /// A position overlaps that of a monomer with a lower number.
    Overlap,
    /// A monomer number names no monomer, or a pair has one monomer twice.
    BadMonomer,
    /// The vector of a bond is not in the set.
    BadBond,
    /// A monomer has more than eight bonds.
    TooManyBonds,
    /// A pair of monomers is not bonded.
    BondUnknown,
    /// No frame is whole.
    NoFrame,
    /// The program does not know this form yet.
    Unbuilt,
}

impl Cause {
    /// The number of the cause, from 1.
    pub fn number(&self) -> u8
        ensures { result ≡ cause_number self.now }
    {
        *self as u8 + 1
    }

    /// The name of the cause as it stands in reports.
    pub fn name(&self) -> &'static str
        ensures { result.now ≡ cause_name self.now }
    {
        match self {
            Cause::BadLine => "BadLine",
            Cause::OutOfLimit => "OutOfLimit",
            Cause::BadVector => "BadVector",
            Cause::Repeated => "Repeated",
            Cause::NotSymmetric => "NotSymmetric",
            Cause::UnknownId => "UnknownId",
            Cause::FrameLong => "FrameLong",
            Cause::FrameShort => "FrameShort",
            Cause::Missing => "Missing",
            Cause::Misplaced => "Misplaced",
            Cause::McsOrder => "McsOrder",
            Cause::Outside => "Outside",
            Cause::Overlap => "Overlap",
            Cause::BadMonomer => "BadMonomer",
            Cause::BadBond => "BadBond",
            Cause::TooManyBonds => "TooManyBonds",
            Cause::BondUnknown => "BondUnknown",
            Cause::NoFrame => "NoFrame",
            Cause::Unbuilt => "Unbuilt",
        }
    }
}

/// A refused file: the line, numbered from 1, and its least cause.
#[derive(Clone, Copy, Debug, PartialEq, Eq)]
pub struct Refused {
    pub line: u64,
    pub cause: Cause,
}

/// Why a file was not read to a world.
#[derive(Clone, Copy, Debug, PartialEq, Eq)]
pub enum ReadStop {
    Refused(Refused),
    /// Want of memory.
    Memory,
}

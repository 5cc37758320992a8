use std::alloc::AllocError;

/// Why a start was not built.
#[derive(Clone, Copy, Debug, PartialEq, Eq)]
pub enum BuildFault {
    /// The box has too little room: how much the start needs and how much there is, counted as its
    /// builder counts (cells for a melt, monomers of a chain for a brush).
    NoRoom { need: u64, have: u64 },
    /// Want of memory.
    Memory,
}

impl From<AllocError> for BuildFault {
    ghost use Rattle.std.specs.Prelude.{◌≡◌};
    ghost use Rattle.bfm_world.specs.declared.build_fault.BuildFault.TheVariants.{Memory};

    ghost from_gives = { λ _ fault. fault ≡ Memory };

    fn from(_error: AllocError) -> BuildFault {
        BuildFault::Memory
    }
}

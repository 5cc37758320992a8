use bfm_base::Cause;
use bond_set::SetFault;
use std::alloc::AllocError;

/// Why a line was not taken.
#[derive(Clone, Copy, Debug, PartialEq, Eq)]
pub(crate) enum LineFault {
    /// The line is wrong: its least cause.
    Refused(Cause),
    /// Want of memory.
    Memory,
}

impl From<Cause> for LineFault {
    ghost use Rattle.std.specs.Prelude.{◌≡◌};
    ghost use Rattle.bfm_commands.specs.declared.fault.LineFault.TheVariants.{Refused};

    ghost from_gives = { λ cause fault. fault ≡ Refused cause };

    fn from(cause: Cause) -> LineFault {
        LineFault::Refused(cause)
    }
}

impl From<AllocError> for LineFault {
    ghost use Rattle.std.specs.Prelude.{◌≡◌};
    ghost use Rattle.bfm_commands.specs.declared.fault.LineFault.TheVariants.{Memory};

    ghost from_gives = { λ _ fault. fault ≡ Memory };

    fn from(_error: AllocError) -> LineFault {
        LineFault::Memory
    }
}

impl From<SetFault> for LineFault {
    ghost use Rattle.std.specs.Prelude.{◌≡◌};
    ghost use Rattle.bfm_commands.specs.Faults.{line_fault};

    ghost from_gives = { λ set_fault fault. fault ≡ line_fault set_fault };

    fn from(fault: SetFault) -> LineFault {
        match fault {
            SetFault::Refused(cause) => LineFault::Refused(cause),
            SetFault::Memory => LineFault::Memory,
        }
    }
}

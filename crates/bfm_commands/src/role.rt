ghost use Rattle.std.specs.Prelude.{◌≡◌};
ghost use Rattle.bfm_commands.specs.Meaning.{role_of};

use crate::commands::Known;
use bfm_base::limits::{GREATEST_SIDE, LEAST_SIDE, MOST_MONOMERS};

/// What a known command does in a file.
#[derive(Clone, Copy, Debug, PartialEq, Eq)]
pub(crate) enum Role {
    /// It gives a whole number in the header, from the least to the greatest.
    Value(u64, u64),
    /// It begins a list of the header, whose entries follow it.
    List,
    /// It begins a frame, whose lines follow it.
    Frame,
    /// Entries follow it that change the bonds once a frame is whole.
    Change,
    /// It is not built yet.
    Unbuilt,
}

/// What a command does.
pub(crate) fn role_of(command: Known) -> Role
    ensures { result ≡ role_of command }
{
    match command {
        Known::NumberOfMonomers => Role::Value(1, u64::from(MOST_MONOMERS)),
        Known::BoxX | Known::BoxY | Known::BoxZ => {
            Role::Value(u64::from(LEAST_SIDE), u64::from(GREATEST_SIDE))
        }
        Known::PeriodicX | Known::PeriodicY | Known::PeriodicZ => Role::Value(0, 1),
        Known::SetOfBondVectors
        | Known::Bonds
        | Known::Attributes
        | Known::Valence
        | Known::Fixed
        | Known::Contacts
        | Known::Acceptance => Role::List,
        Known::Mcs => Role::Frame,
        Known::AddBonds | Known::RemoveBonds => Role::Change,
        Known::Stream | Known::Solid => Role::Unbuilt,
    }
}

ghost use Rattle.std.specs.Prelude.{◌++◌};
ghost use Rattle.bfm_writer.specs.Batch.{Passes};
ghost use Rattle.bfm_writer.specs.Listing.{command_before};

use crate::batch::Batch;
use bfm_base::{Failed, Sink};

/// What is written of a list so far. Its command is written before its first entry, so a list
/// without entries has none.
#[derive(Clone, Copy)]
pub(crate) enum Listing {
    /// Nothing.
    Empty,
    /// Its command, and entries.
    Begun,
}

impl Listing {
    /// Writes the line of the command, where no entry is written yet.
    pub(crate) fn write_command<S: Sink>(
        self,
        command: &[u8],
        batch: &mut Batch,
        sink: &mut S,
    ) -> Result<(), Failed>
        ensures { Passes result (S.account sink.old) (S.account sink.new) (batch.old ++ command_before self command.now) (λ _. batch.new) }
    {
        match self {
            Listing::Empty => batch.put(command, sink),
            Listing::Begun => Ok(()),
        }
    }
}

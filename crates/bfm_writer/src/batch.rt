ghost use Rattle.std.specs.Prelude.{◌≡◌, ◌∷◌, ◌++◌, ◌+◌, ◌≤◌, [], length, OnOk};
ghost use Rattle.std.specs.List.{flat_map};
ghost use Rattle.bfm_writer.specs.Batch.{Passes};

use bfm_base::{Failed, Sink, send};
use std::marker::Model;

/// How many bytes are gathered at most before they are sent.
const ROOM: usize = 4096;

/// Bytes that are gathered for a sink, since a call of the sink for each number and each identifier
/// takes longer than to write them. A batch is let go where a call fails.
#[derive(Drop)]
pub(crate) struct Batch {
    bytes: [u8; ROOM],
    len: usize,
}

impl Model for Batch {
    ghost use Rattle.std.specs.Prelude.{◌≤◌, List, ℕ, take};
    ghost use Rattle.bfm_writer.specs.declared.batch.TheConstants.{ROOM};

    ghost Value = { List ℕ };

    ghost view = { λ b. take b.len b.bytes };

    ghost invariant = { λ b. b.len ≤ ROOM };
}

impl Batch {
    /// A batch that is empty.
    pub(crate) fn new() -> Batch
        ensures { result ≡ [] }
    {
        Batch {
            bytes: [0; ROOM],
            len: 0,
        }
    }

    /// Sends what is gathered.
    // Kept out of the loops that push bytes, which are faster while they are small.
    #[inline(never)]
    pub(crate) fn flush<S: Sink>(&mut self, sink: &mut S) -> Result<(), Failed>
        ensures sent { Passes result (S.account sink.old) (S.account sink.new) self.old (λ _. self.new) }
        ensures empty { OnOk result (self.new ≡ []) }
    {
        send(sink, &self.bytes[..self.len])?;
        self.len = 0;
        Ok(())
    }

    // Sends what is gathered where there is no room for a byte more.
    fn make_room<S: Sink>(&mut self, sink: &mut S) -> Result<(), Failed>
        ensures sent { Passes result (S.account sink.old) (S.account sink.new) self.old (λ _. self.new) }
        ensures room { OnOk result (length self.new + 1 ≤ ROOM) }
    {
        if self.len == ROOM {
            return self.flush(sink);
        }
        Ok(())
    }

    /// Puts a byte behind what is gathered.
    pub(crate) fn push<S: Sink>(&mut self, byte: u8, sink: &mut S) -> Result<(), Failed>
        ensures { Passes result (S.account sink.old) (S.account sink.new) (self.old ++ byte ∷ []) (λ _. self.new) }
    {
        self.make_room(sink)?;
        self.bytes[self.len] = byte;
        self.len += 1;
        Ok(())
    }

    /// Puts bytes behind what is gathered.
    pub(crate) fn put<S: Sink>(&mut self, bytes: &[u8], sink: &mut S) -> Result<(), Failed>
        ensures { Passes result (S.account sink.old) (S.account sink.new) (self.old ++ bytes.now) (λ _. self.new) }
    {
        for byte in bytes {
            self.push(*byte, sink)?;
        }
        Ok(())
    }

    /// Puts pieces of a text, one after another, behind what is gathered.
    pub(crate) fn put_pieces<S: Sink>(
        &mut self,
        pieces: &[&[u8]],
        sink: &mut S,
    ) -> Result<(), Failed>
        ensures { Passes result (S.account sink.old) (S.account sink.new) (self.old ++ flat_map (λ piece. piece.now) pieces.now) (λ _. self.new) }
    {
        for piece in pieces {
            self.put(piece, sink)?;
        }
        Ok(())
    }
}

ghost use Rattle.std.specs.Prelude.{◌≡◌, ℕ, ◌<◌, ◌≤◌, List, [], Option, Ok, length, take, IfOk, OnOk, OnErr};
ghost use Rattle.std.specs.List.{flat_map};
ghost use Rattle.std.specs.Io.{ReadsAtMost, WritesAtMost};
ghost use Rattle.std.specs.Io.KnownBytes.{ReadConsumes};
ghost use Rattle.bfm_base.specs.Faults.{Rose};
ghost use Rattle.bfm_base.specs.Account.{Account, TookAll, FailedCall, Flushes, Sends, Delivers};

/// A call on the outside world failed.
#[derive(Clone, Copy, Debug, PartialEq, Eq)]
pub struct Failed;

/// What gives the bytes of a file, in pieces.
pub trait Source {
    // The bytes that are left, where it tells them.
    ghost left: { Self → Option (List ℕ) };

    // How many calls have failed, up to the last value of a u64.
    ghost faults: { Self → ℕ };

    /// Moves the next bytes into a slice, and answers how many. 0 for a slice that is not empty
    /// means that nothing is left. A call that fails takes nothing.
    fn read(&mut self, into: &mut [u8]) -> Result<usize, Failed>
        ensures bound { ReadsAtMost result into.new }
        ensures bytes { ReadConsumes (left self.old) (left self.new) result into.new }
        ensures calm { OnOk result (faults self.new ≡ faults self.old) }
        ensures rose { OnErr result (Rose (faults self.old) (faults self.new)) }
        ensures never_falls { faults self.old ≤ faults self.new };
}

/// What takes the bytes of an output or a report, in pieces.
pub trait Sink {
    // The bytes that it took, where it tells them, how many calls have failed, and whether all that
    // it took is flushed.
    ghost account: { Self → Account };

    /// Takes the first bytes of a piece, and answers how many: at least one, where there are any.
    /// A call that fails takes nothing.
    fn write(&mut self, from: &[u8]) -> Result<usize, Failed>
        ensures bound { WritesAtMost result from.now }
        ensures moves { IfOk result (λ n. 0 < length from.now → 0 < n) }
        ensures taken { IfOk result (λ n. TookAll (account self.old) (account self.new) (take n from.now)) }
        ensures failed { OnErr result (FailedCall (account self.old) (account self.new)) };

    /// Passes on all that was taken, and takes nothing itself.
    fn flush(&mut self) -> Result<(), Failed>
        ensures flushed { OnOk result (Flushes (account self.old) (account self.new)) }
        ensures failed { OnErr result (FailedCall (account self.old) (account self.new)) };
}

/// Writes all the bytes, and flushes nothing. Where a call of the sink fails, a prefix of them was
/// taken. No bytes make no call.
pub fn send<S: Sink>(sink: &mut S, bytes: &[u8]) -> Result<(), Failed>
    ensures sent { Sends result (S.account sink.old) (S.account sink.new) bytes.now }
    ensures nothing { bytes.now ≡ [] → (result ≡ Ok tt) × (sink.new ≡ sink.old) }
{
    let mut rest = bytes;
    while !rest.is_empty() {
        let taken = sink.write(rest)?;
        rest = &rest[taken..];
    }
    Ok(())
}

/// Writes pieces of a text, one after another, and flushes nothing.
pub fn send_pieces<S: Sink>(sink: &mut S, pieces: &[&[u8]]) -> Result<(), Failed>
    ensures { Sends result (S.account sink.old) (S.account sink.new) (flat_map (λ piece. piece.now) pieces.now) }
{
    for piece in pieces {
        send(sink, piece)?;
    }
    Ok(())
}

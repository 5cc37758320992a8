ghost use Rattle.std.specs.Prelude.{◌≡◌, ◌+◌, ◌*◌, ◌≤◌, ℕ, true, List, [], ◌++◌, length, None, Some, IfOk, IfErr, OnOk, IfSome, IsSome, Err};
ghost use Rattle.bfm_base.specs.declared.limits.TheConstants.{GREATEST_LIMIT, GREATEST_MCS, LONGEST_LINE};
ghost use Rattle.bfm_world.specs.Configuration.{IsValid};
ghost use Rattle.bfm_commands.specs.Reading.{StandsFor, Answers, Ends, ArePlaces};
ghost use Rattle.bfm_commands.specs.Held.{held_of};
ghost use Rattle.bfm_commands.specs.History.{has_begun, draft_of};
ghost use Rattle.bfm_commands.specs.Verdict.{history_of, verdict_of};

use crate::fault::LineFault;
use crate::loaded::Loaded;
use crate::progress::Progress;
use crate::summary::Summary;
use bfm_base::{Cause, ReadStop};
use std::alloc::{AllocError, Global};
use std::marker::Model;

/// Reads a file that is fed in pieces of any length. It keeps no bytes of it but those of the line
/// that has begun, and no more than three frames: `held` says how much that is.
#[derive(Drop)]
pub struct Reader {
    progress: Progress,
    stop: Option<ReadStop>,
}

impl Model for Reader {
    ghost use Rattle.std.specs.Prelude.{◌≡◌, ◌≤◌, None, IfSome};
    ghost use Rattle.bfm_base.specs.declared.limits.TheConstants.{GREATEST_LIMIT};
    ghost use Rattle.bfm_commands.specs.Held.{IsEmpty};
    ghost use Rattle.bfm_commands.specs.Reading.{Standing, IsSteady};

    ghost Value = { Standing };

    ghost view = { λ r. record { progress = r.progress; stop = r.stop } };

    ghost invariant = { λ r.
        (r.stop ≡ None → IsSteady r.progress r.progress.fed × (r.progress.fed ≤ GREATEST_LIMIT))
        × IfSome r.stop (λ stop. IsEmpty r.progress.summary) };
}

impl Reader {
    /// A reader that was fed no byte.
    pub fn new(alloc: Global) -> Result<Reader, AllocError>
        ensures { IfOk result (λ reader. StandsFor reader []) }
    {
        Ok(Reader {
            progress: Progress::new(alloc)?,
            stop: None,
        })
    }

    /// Reads the next bytes of the file, of which at most 2^30 are fed in all. It is refused at the
    /// first wrong line that is finished by them. After a refusal, and after want of memory, each
    /// further call answers the same.
    pub fn feed(&mut self, piece: &[u8]) -> Result<(), ReadStop>
        requires { self.old.progress.fed + length piece.now ≤ GREATEST_LIMIT }

        // Whatever bytes it stood for, the answer is that of those and the piece.
        ensures answer { (bytes : List ℕ) → StandsFor self.old bytes → Answers result self.new (bytes ++ piece.now) }
        ensures count { OnOk result (self.new.progress.fed ≡ self.old.progress.fed + length piece.now) }
        ensures again { IfSome self.old.stop (λ stop. (result ≡ Err stop) × (self.new ≡ self.old)) }
        ensures stops { IfErr result (λ stop. self.new.stop ≡ Some stop) }
    {
        if let Some(stop) = self.stop {
            return Err(stop);
        }
        if let Err(stop) = self.progress.read(piece) {
            self.progress.summary = Summary::new(self.progress.alloc);
            self.stop = Some(stop);
            return Err(stop);
        }
        Ok(())
    }

    /// How much of the file it holds: the bytes of the line that has begun, or 524,287 where it has
    /// more, the positions of the first whole frame, of the last one and of the one that began last,
    /// and the bonded pairs of the last whole frame and of the present place. From the first `mcs` line
    /// on that is at most 524,287 and 11 for each monomer; after a refusal only the line is held. It
    /// takes no memory.
    pub fn held(&self) -> u64
        ensures held { (bytes : List ℕ) → StandsFor self.now bytes → result ≡ held_of bytes }
        ensures bound { (bytes : List ℕ) → StandsFor self.now bytes → has_begun (history_of bytes) ≡ true
            → result ≤ LONGEST_LINE + 11 * (draft_of (history_of bytes)).count }
        ensures stopped { IsSome self.now.stop → result ≤ LONGEST_LINE }
    {
        let line = self.progress.cutter.begun() as u64;
        line.saturating_add(self.progress.summary.held())
    }

    /// What the file gives, which ends here. A file without a whole frame is refused as a line that
    /// is missing at its end.
    pub fn end(self) -> Result<Loaded, ReadStop>
        ensures answer { (bytes : List ℕ) → StandsFor self bytes → Ends result (verdict_of bytes) }
        ensures again { IfSome self.stop (λ stop. result ≡ Err stop) }
        ensures valid { IfOk result (λ loaded. IsValid loaded.world) }
        ensures first { IfOk result (λ loaded. ArePlaces (length loaded.world.positions) loaded.first) }
        ensures mcs { IfOk result (λ loaded. loaded.mcs ≤ GREATEST_MCS) }
        ensures kept { (bytes : List ℕ) → StandsFor self bytes → IfOk result (λ loaded. loaded.kept ≤ length bytes) }
    {
        let Reader { progress, stop } = self;
        if let Some(stop) = stop {
            return Err(stop);
        }
        let missing = progress.stop_at(LineFault::Refused(Cause::NoFrame));
        let Progress { summary, fed, .. } = progress;
        let Summary {
            skipped,
            frames,
            ..
        } = summary;
        let Some(frames) = frames else {
            return Err(missing);
        };
        frames.end(fed, skipped).ok_or(missing)
    }
}

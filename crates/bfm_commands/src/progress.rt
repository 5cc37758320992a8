ghost use Rattle.std.specs.Prelude.{◌≡◌, ◌+◌, ◌<◌, ◌≤◌, ℕ, List, [], ◌∷◌, ◌++◌, None, Some, IsSome, true, false, length, slice_range, IfOk, IfErr, OnOk};
ghost use Rattle.bfm_base.specs.declared.limits.TheConstants.{GREATEST_LIMIT};
ghost use Rattle.bfm_lexer.specs.Lines.{without_return};
ghost use Rattle.bfm_commands.specs.Causes.{meaning_cause};
ghost use Rattle.bfm_commands.specs.History.{History};
ghost use Rattle.bfm_commands.specs.Meaning.{text_meaning};
ghost use Rattle.bfm_commands.specs.Reading.{Follows, Advances, Feeds, IsSteady, StopsLine, Sums, stop_of};
ghost use Rattle.bfm_commands.specs.Verdict.{bytes_in};

use crate::fault::LineFault;
use crate::summary::Summary;
use bfm_base::{Cause, ReadStop, Refused};
use bfm_lexer::{Cut, LineCutter};
use std::alloc::{AllocError, Global};

/// How far a file has been read.
#[derive(Drop)]
pub(crate) struct Progress {
    pub alloc: Global,
    pub cutter: LineCutter,
    /// How many bytes were fed.
    pub fed: u64,
    /// How many finished lines they have.
    pub lines: u64,
    pub summary: Summary,
}

impl Progress {
    pub fn new(alloc: Global) -> Result<Progress, AllocError>
        ensures follows { IfOk result (λ progress. Follows progress []) }
        ensures none { IfOk result (λ progress. progress.fed ≡ 0) }
        ensures steady { IfOk result (λ progress. IsSteady progress progress.fed) }
    {
        Ok(Progress {
            alloc,
            cutter: LineCutter::new(alloc)?,
            fed: 0,
            lines: 0,
            summary: Summary::new(alloc),
        })
    }

    /// Reads the lines that are finished by the next bytes.
    pub fn read(&mut self, piece: &[u8]) -> Result<(), ReadStop>
        requires room { self.old.fed + length piece.now ≤ GREATEST_LIMIT }
        requires steady { IsSteady self.old self.old.fed }
        ensures answer { (bytes : List ℕ) → Follows self.old bytes → length bytes ≡ self.old.fed → Feeds result self.new (bytes ++ piece.now) }
        ensures count { OnOk result (self.new.fed ≡ self.old.fed + length piece.now) }
        ensures steady { OnOk result (IsSteady self.new self.new.fed) }
    {
        let mut at = 0;
        while self.read_line(piece, &mut at)? {}
        self.fed += piece.len() as u64;
        Ok(())
    }

    /// Reads up to the end of the next line in a piece, and answers whether there was one.
    fn read_line(&mut self, piece: &[u8], at: &mut usize) -> Result<bool, ReadStop>
        requires room { self.old.fed + length piece.now ≤ GREATEST_LIMIT }
        requires within { at.old ≤ length piece.now }
        requires steady { IsSteady self.old (self.old.fed + at.old) }
        ensures answer { (before : List ℕ) → Follows self.old before → length before ≡ self.old.fed + at.old
            → Advances result self.new (before ++ slice_range piece.now at.old at.new) }
        ensures fed { OnOk result (self.new.fed ≡ self.old.fed) }
        ensures steady { OnOk result (IsSteady self.new (self.new.fed + at.new)) }
        ensures moves { IfOk result (λ more. (more ≡ true → at.old < at.new) × (more ≡ false → at.new ≡ length piece.now)) }
        ensures inside { (at.old ≤ at.new) × (at.new ≤ length piece.now) }
    {
        match self.cutter.feed(piece, at) {
            Cut::Used => Ok(false),
            Cut::Long => Err(self.stop_at(LineFault::Refused(Cause::OutOfLimit))),
            Cut::Line => {
                self.take_line(self.fed + *at as u64)?;
                Ok(true)
            }
        }
    }

    /// Takes the line that the cutter gives, with which so many bytes have come.
    fn take_line(&mut self, bytes: u64) -> Result<(), ReadStop>
        requires line { IsSome self.old.cutter.line }
        requires steady { IsSteady self.old bytes }
        requires room { self.old.lines < bytes }
        requires few { bytes ≤ GREATEST_LIMIT }
        ensures taken { OnOk result ((before : History) (line text : List ℕ) → Sums self.old.summary before → self.old.cutter.line ≡ Some text → without_return line ≡ text → bytes_in (line ∷ before) ≡ bytes
            → (meaning_cause before (text_meaning text) ≡ None) × Sums self.new.summary (line ∷ before)) }
        ensures same { OnOk result ((self.new.cutter ≡ self.old.cutter) × (self.new.fed ≡ self.old.fed)) }
        ensures count { OnOk result (self.new.lines ≡ self.old.lines + 1) }
        ensures steady { OnOk result (IsSteady self.new bytes) }
        ensures refused { IfErr result (λ stop. (before : History) (text : List ℕ) → Sums self.old.summary before → self.old.cutter.line ≡ Some text → StopsLine self.old.lines (meaning_cause before (text_meaning text)) stop) }
    {
        match self.summary.take(self.alloc, self.cutter.line(), bytes) {
            Ok(()) => {
                self.lines += 1;
                Ok(())
            }
            Err(fault) => Err(self.stop_at(fault)),
        }
    }

    /// Why reading stops at the line behind those that are finished.
    pub fn stop_at(&self, fault: LineFault) -> ReadStop
        requires { self.now.lines < u64.MAX }
        ensures { result ≡ stop_of self.now.lines fault }
    {
        match fault {
            LineFault::Refused(cause) => ReadStop::Refused(Refused {
                line: self.lines + 1,
                cause,
            }),
            LineFault::Memory => ReadStop::Memory,
        }
    }
}

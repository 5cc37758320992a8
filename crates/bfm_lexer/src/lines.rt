ghost use Rattle.std.specs.Prelude.{◌≡◌, ◌↔◌, ℕ, List, ◌++◌, ◌≤◌, [], Some, None, length, IfOk, IsSome, option_map, slice_range};

use bfm_base::limits::LONGEST_LINE;
use memchr::memchr;
use std::alloc::{AllocError, Global};
use std::marker::Model;

/// What the cutter found in a piece.
#[derive(Clone, Copy, Debug, PartialEq, Eq)]
pub enum Cut {
    /// A line is finished.
    Line,
    /// A line is finished that has more than 524,287 bytes. They are dropped.
    Long,
    /// The piece has no further newline. The line that has begun goes on with the next piece.
    Used,
}

// What the bytes that are kept belong to.
#[derive(Clone, Copy)]
enum Stage {
    // The line that has begun.
    Begun,
    // A line that has begun and is too long already.
    TooLong,
    // The line that the last call finished.
    Finished,
}

/// Cuts the bytes of a file into lines. It is fed the file in pieces of any length.
#[derive(Drop)]
pub struct LineCutter {
    kept: Vec<u8>,
    stage: Stage,
}

impl Model for LineCutter {
    ghost use Rattle.std.specs.Prelude.{◌≤◌, vec_len, vec_capacity};
    ghost use Rattle.bfm_base.specs.declared.limits.TheConstants.{LONGEST_LINE};
    ghost use Rattle.bfm_lexer.specs.Cutter.{Cutter};

    ghost Value = { Cutter };

    ghost use Rattle.bfm_lexer.specs.Stage.{pending_in, line_in};

    ghost view = { λ c. record { pending = pending_in c.stage c.kept.items; line = line_in c.stage c.kept.items } };

    ghost invariant = { λ c. (vec_len c.kept ≤ LONGEST_LINE) × (LONGEST_LINE ≤ vec_capacity c.kept) };
}

impl LineCutter {
    ghost use Rattle.bfm_lexer.specs.Lines.{without_return};
    ghost use Rattle.bfm_lexer.specs.Cutter.{StandsFor, Takes, Answers, begun_length, joined, cut_of};

    /// A cutter that has taken no byte. It reserves the memory of the longest line.
    pub fn new(alloc: Global) -> Result<LineCutter, AllocError>
        ensures { IfOk result (λ cutter. StandsFor cutter [] × (cutter.line ≡ None)) }
    {
        Ok(LineCutter {
            kept: Vec::with_capacity(alloc, LONGEST_LINE)?,
            stage: Stage::Begun,
        })
    }

    /// Takes bytes of the piece, from `at` up to the next newline or to the end of the piece, and
    /// moves `at` past them.
    pub fn feed(&mut self, piece: &[u8], at: &mut usize) -> Cut
        requires { at.old ≤ length piece.now }
        ensures takes { Takes result piece.now at.old at.new }
        ensures answers { (before : List ℕ) → StandsFor self.old before
            → let after = before ++ slice_range piece.now at.old at.new in
            StandsFor self.new after × Answers result self.new before after }
        ensures line { IsSome self.new.line ↔ (result ≡ Cut.Line) }
    {
        let rest = &piece[*at..];
        match memchr(b'\n', rest) {
            None => {
                self.add(rest);
                *at = piece.len();
                Cut::Used
            }
            Some(end) => {
                self.add(&rest[..end]);
                *at += end + 1;
                self.finish()
            }
        }
    }

    /// The line that the last call of `feed` finished, without its newline and without one carriage
    /// return at its end.
    pub fn line(&self) -> &[u8]
        requires { IsSome self.now.line }
        ensures { self.now.line ≡ Some result.now }
    {
        &self.kept
    }

    /// How many bytes the line has that has begun, or 524,287 where it has more.
    pub fn begun(&self) -> usize
        ensures begun { (bytes : List ℕ) → StandsFor self.now bytes → result ≡ begun_length bytes }
        ensures limit { result ≤ LONGEST_LINE }
    {
        match self.stage {
            Stage::Begun => self.kept.len(),
            Stage::TooLong => LONGEST_LINE,
            Stage::Finished => 0,
        }
    }

    // The line that has begun goes on with these bytes.
    fn add(&mut self, bytes: &[u8])
        ensures { self.new ≡ record { pending = joined self.old.pending bytes.now; line = None } }
    {
        if let Stage::Finished = self.stage {
            self.kept.clear();
            self.stage = Stage::Begun;
        }
        if bytes.len() > LONGEST_LINE - self.kept.len() {
            self.stage = Stage::TooLong;
        } else if let Stage::Begun = self.stage {
            self.kept.extend_from_slice(bytes).unwrap();
        }
    }

    // The line that has begun is finished.
    fn finish(&mut self) -> Cut
        requires { self.old.line ≡ None }
        ensures cut { result ≡ cut_of self.old.pending }
        ensures after { self.new ≡ record { pending = Some []; line = option_map without_return self.old.pending } }
    {
        if let Stage::TooLong = self.stage {
            self.kept.clear();
            self.stage = Stage::Begun;
            return Cut::Long;
        }
        if let Some(b'\r') = self.kept.last() {
            self.kept.truncate(self.kept.len() - 1);
        }
        self.stage = Stage::Finished;
        Cut::Line
    }
}

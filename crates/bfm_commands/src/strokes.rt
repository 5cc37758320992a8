ghost use Rattle.std.specs.Prelude.{◌≡◌, ℕ, ◌+◌, ◌/◌, ◌<◌, ◌≤◌, max, length, slice_index_or, if◌then◌else◌, IfOk};
ghost use Rattle.bfm_commands.specs.Strokes.{is_from_to, is_within, last_over, stroke_over};

use std::alloc::{AllocError, Global};

/// How many numbers a block has.
const BLOCK: usize = 512;

/// Strokes that are laid over ranges of numbers, each over those before it. A stroke is the number of
/// its turn, from 1. A block that is covered as a whole is marked once, so that a stroke costs little
/// however many numbers it covers.
#[derive(Drop)]
pub(crate) struct Strokes {
    pub ones: Vec<usize>,
    pub blocks: Vec<usize>,
}

impl Strokes {
    /// No stroke over any of so many numbers.
    pub fn new(alloc: Global, count: usize) -> Result<Strokes, AllocError>
        ensures numbers { IfOk result (λ strokes. length strokes.ones.items ≡ count) }
        ensures blocks { IfOk result (λ strokes. length strokes.blocks.items ≡ count / BLOCK + 1) }
        ensures none { IfOk result (λ strokes. (i : ℕ) → stroke_over strokes i ≡ 0) }
    {
        Ok(Strokes {
            ones: vec![in alloc; 0; count]?,
            blocks: vec![in alloc; 0; count / BLOCK + 1]?,
        })
    }

    /// Lays the next stroke over the numbers from the first to the last.
    pub fn lay(&mut self, first: usize, last: usize, stroke: usize)
        requires order { first ≤ last }
        requires within { last < length self.old.ones.items }
        requires blocks { length self.old.blocks.items ≡ length self.old.ones.items / BLOCK + 1 }
        requires next { (i : ℕ) → stroke_over self.old i ≤ stroke }
        ensures numbers { length self.new.ones.items ≡ length self.old.ones.items }
        ensures blocks { length self.new.blocks.items ≡ length self.old.blocks.items }
        ensures over { (i : ℕ) → stroke_over self.new i ≡ (if is_from_to first last i then stroke else stroke_over self.old i) }
    {
        lay(&mut self.ones, &mut self.blocks, first, last, stroke);
    }

    /// The last stroke over a number, or 0.
    pub fn over(&self, i: usize) -> usize
        requires within { i < length self.now.ones.items }
        requires blocks { length self.now.blocks.items ≡ length self.now.ones.items / BLOCK + 1 }
        ensures { result ≡ stroke_over self.now i }
    {
        self.ones[i].max(self.blocks[i / BLOCK])
    }
}

/// Lays a stroke over the numbers from the first to the last.
fn lay(ones: &mut [usize], blocks: &mut [usize], first: usize, last: usize, stroke: usize)
    requires order { first ≤ last }
    requires within { last < length ones.old }
    requires blocks { length blocks.old ≡ length ones.old / BLOCK + 1 }
    requires next { (i : ℕ) → last_over ones.old blocks.old i ≤ stroke }
    ensures numbers { length ones.new ≡ length ones.old }
    ensures blocks { length blocks.new ≡ length blocks.old }
    ensures over { (i : ℕ) → last_over ones.new blocks.new i
        ≡ (if is_from_to first last i then stroke else last_over ones.old blocks.old i) }
{
    let from = first.div_ceil(BLOCK);
    let to = (last + 1) / BLOCK;
    if from < to {
        fill(ones, first, from * BLOCK, stroke);
        fill(blocks, from, to, stroke);
        fill(ones, to * BLOCK, last + 1, stroke);
    } else {
        fill(ones, first, last + 1, stroke);
    }
}

/// Writes a stroke in a list from one place to before another.
fn fill(list: &mut [usize], from: usize, to: usize, stroke: usize)
    requires order { from ≤ to }
    requires within { to ≤ length list.old }
    ensures numbers { length list.new ≡ length list.old }
    ensures filled { (i : ℕ) → slice_index_or list.new i 0
        ≡ (if is_within from to i then stroke else slice_index_or list.old i 0) }
{
    list[from..to].fill(stroke);
}

ghost use Rattle.std.specs.Prelude.{◌≡◌, ℕ, ◌+◌, ◌/◌, ◌≤◌, false, [], ◌∷◌, ◌++◌, length, All, None, Some, OnOk, IfOk, IfErr};
ghost use Rattle.bfm_commands.specs.Causes.{range_cause, some_range_beyond};
ghost use Rattle.bfm_commands.specs.Forms.{range_entry};
ghost use Rattle.bfm_commands.specs.History.{given_in, with_said, last_said, said_of_each};
ghost use Rattle.bfm_commands.specs.Reading.{IsFault};
ghost use Rattle.bfm_commands.specs.Strokes.{stroke_over, value_at};
ghost use Rattle.bfm_commands.specs.declared.strokes.TheConstants.{BLOCK};

use crate::fault::LineFault;
use crate::forms::{Range, range_entry};
use crate::strokes::Strokes;
use std::alloc::{AllocError, Global};
use std::marker::Model;

/// What the entries of a list say of monomers: ranges, each with a number that is at most so much. A
/// later entry replaces an earlier one where both speak of a monomer.
#[derive(Drop)]
pub(crate) struct Ranges<const GREATEST: u32> {
    list: Vec<(Range, u32)>,
}

impl<const GREATEST: u32> Model for Ranges<GREATEST> {
    ghost use Rattle.std.specs.Prelude.{ℕ, ◌≤◌, List, All};
    ghost use Rattle.bfm_commands.specs.declared.forms.Range.{Range};

    ghost Value = { List (Range × ℕ) };

    ghost view = { λ ranges. ranges.list.items };

    ghost invariant = { λ ranges. All (λ e. (e.0.first ≤ e.0.last) × (e.1 ≤ GREATEST)) ranges.list.items };
}

impl<const GREATEST: u32> Ranges<GREATEST> {
    /// Nothing is said.
    pub fn new(alloc: Global) -> Self
        ensures { result ≡ [] }
    {
        Ranges {
            list: Vec::new(alloc),
        }
    }

    /// Takes an entry.
    pub fn take(&mut self, text: &[u8]) -> Result<(), LineFault>
        ensures taken { OnOk result ((range_cause GREATEST text.now ≡ None)
            × (self.new ≡ with_said self.old (given_in (λ t. range_entry t GREATEST) (Some text.now)))) }
        ensures refused { IfErr result (λ fault. IsFault fault (range_cause GREATEST text.now)) }
    {
        let entry = range_entry(text, GREATEST)?;
        self.add(entry)?;
        Ok(())
    }

    fn add(&mut self, entry: (Range, u32)) -> Result<(), AllocError>
        requires order { entry.0.first ≤ entry.0.last }
        requires limit { entry.1 ≤ GREATEST }
        ensures { OnOk result (self.new ≡ self.old ++ entry ∷ []) }
    {
        self.list.push(entry)?;
        Ok(())
    }

    /// Whether a range ends with a monomer that is not among so many.
    pub fn some_beyond(&self, count: u32) -> bool
        ensures { result ≡ some_range_beyond count self.now }
    {
        self.list.iter().any(|(range, _)| range.last >= count)
    }

    /// The number that each of so many monomers has, 0 where nothing is said of it. An entry costs
    /// the same however many monomers it speaks of.
    pub fn of_each(&self, alloc: Global, count: u32) -> Result<Vec<u32>, AllocError>
        requires present { some_range_beyond count self.now ≡ false }
        ensures values { IfOk result (λ values. values.items ≡ said_of_each self.now count) }
        ensures each { IfOk result (λ values. length values.items ≡ count) }
        ensures limit { IfOk result (λ values. All (λ value. value ≤ GREATEST) values.items) }
    {
        let strokes = self.strokes(alloc, count as usize)?;
        let mut values = Vec::with_capacity(alloc, count as usize)?;
        for i in 0..count as usize {
            values.push(self.value(strokes.over(i)))?;
        }
        Ok(values)
    }

    /// The entries as strokes over so many monomers.
    fn strokes(&self, alloc: Global, count: usize) -> Result<Strokes, AllocError>
        requires present { some_range_beyond count self.now ≡ false }
        ensures numbers { IfOk result (λ strokes. length strokes.ones.items ≡ count) }
        ensures blocks { IfOk result (λ strokes. length strokes.blocks.items ≡ count / BLOCK + 1) }
        ensures turns { IfOk result (λ strokes. (i : ℕ) → stroke_over strokes i ≤ length self.now) }
        ensures values { IfOk result (λ strokes. (i : ℕ) → value_at self.now (stroke_over strokes i) ≡ last_said self.now i 0) }
    {
        let mut strokes = Strokes::new(alloc, count)?;
        for (turn, (range, _)) in self.list.iter().enumerate() {
            strokes.lay(range.first as usize, range.last as usize, turn + 1);
        }
        Ok(strokes)
    }

    /// The number of the entry whose turn it is, or 0.
    fn value(&self, turn: usize) -> u32
        requires { turn ≤ length self.now }
        ensures value { result ≡ value_at self.now turn }
        ensures limit { result ≤ GREATEST }
    {
        match turn.checked_sub(1) {
            Some(index) => self.list[index].1,
            None => 0,
        }
    }
}

ghost use Rattle.std.specs.Prelude.{◌≡◌, ℕ, ◌+◌, ◌/◌, ◌≤◌, false, [], ◌∷◌, ◌++◌, length, replicate, if◌then◌else◌, None, Some, OnOk, IfOk, IfErr};
ghost use Rattle.bfm_commands.specs.Causes.{fixed_cause, some_fixed_beyond};
ghost use Rattle.bfm_commands.specs.Forms.{monomers_entry};
ghost use Rattle.bfm_commands.specs.History.{given_in, with_range, is_in_some, fixed_of_each};
ghost use Rattle.bfm_commands.specs.Reading.{IsFault};
ghost use Rattle.bfm_world.specs.Draft.{with_fixed_list};
ghost use Rattle.bfm_commands.specs.Strokes.{stroke_over};
ghost use Rattle.bfm_commands.specs.declared.strokes.TheConstants.{BLOCK};

use crate::fault::LineFault;
use crate::forms::{Range, monomers_entry};
use crate::strokes::Strokes;
use bfm_world::WorldBuilder;
use std::alloc::{AllocError, Global};
use std::marker::Model;

/// The ranges of monomers that are fixed.
#[derive(Drop)]
pub(crate) struct FixedRanges {
    list: Vec<Range>,
}

impl Model for FixedRanges {
    ghost use Rattle.std.specs.Prelude.{◌≤◌, List, All};
    ghost use Rattle.bfm_commands.specs.declared.forms.Range.{Range};

    ghost Value = { List Range };

    ghost view = { λ ranges. ranges.list.items };

    ghost invariant = { λ ranges. All (λ range. range.first ≤ range.last) ranges.list.items };
}

impl FixedRanges {
    /// No monomer is fixed.
    pub fn new(alloc: Global) -> FixedRanges
        ensures { result ≡ [] }
    {
        FixedRanges {
            list: Vec::new(alloc),
        }
    }

    /// Takes an entry.
    pub fn take(&mut self, text: &[u8]) -> Result<(), LineFault>
        ensures taken { OnOk result ((fixed_cause text.now ≡ None)
            × (self.new ≡ with_range self.old (given_in monomers_entry (Some text.now)))) }
        ensures refused { IfErr result (λ fault. IsFault fault (fixed_cause text.now)) }
    {
        let range = monomers_entry(text)?;
        self.add(range)?;
        Ok(())
    }

    fn add(&mut self, range: Range) -> Result<(), AllocError>
        requires { range.first ≤ range.last }
        ensures { OnOk result (self.new ≡ self.old ++ range ∷ []) }
    {
        self.list.push(range)?;
        Ok(())
    }

    /// Whether a range ends with a monomer that is not among so many.
    pub fn some_beyond(&self, count: u32) -> bool
        ensures { result ≡ some_fixed_beyond count self.now }
    {
        self.list.iter().any(|range| range.last >= count)
    }

    /// Fixes the monomers of all ranges, where none is fixed yet. An entry costs the same however
    /// many monomers it speaks of.
    pub fn fix_all(&self, alloc: Global, builder: &mut WorldBuilder) -> Result<(), AllocError>
        requires present { some_fixed_beyond builder.old.count self.now ≡ false }
        requires none { builder.old.world.fixed ≡ replicate builder.old.count false }
        ensures { OnOk result (builder.new ≡ with_fixed_list builder.old (fixed_of_each self.now builder.old.count)) }
    {
        let count = builder.count();
        let strokes = self.strokes(alloc, count as usize)?;
        for i in 0..count {
            if strokes.over(i as usize) > 0 {
                builder.fix(i);
            }
        }
        Ok(())
    }

    /// The ranges as strokes over so many monomers.
    fn strokes(&self, alloc: Global, count: usize) -> Result<Strokes, AllocError>
        requires present { some_fixed_beyond count self.now ≡ false }
        ensures numbers { IfOk result (λ strokes. length strokes.ones.items ≡ count) }
        ensures blocks { IfOk result (λ strokes. length strokes.blocks.items ≡ count / BLOCK + 1) }
        ensures fixed { IfOk result (λ strokes. (i : ℕ) → stroke_over strokes i ≡ (if is_in_some self.now i then 1 else 0)) }
    {
        let mut strokes = Strokes::new(alloc, count)?;
        for range in &self.list {
            strokes.lay(range.first as usize, range.last as usize, 1);
        }
        Ok(strokes)
    }
}

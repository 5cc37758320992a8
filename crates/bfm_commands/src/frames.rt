ghost use Rattle.std.specs.Prelude.{◌≡◌, ◌+◌, ◌*◌, ◌<◌, ◌≤◌, true, false, ◌∷◌, List, Option, None, Some, ⊤, MatchOption, IfOk, IfErr, IfSome, OnOk, length, [], is_none, option_map};
ghost use Rattle.bfm_base.specs.declared.limits.TheConstants.{GREATEST_MCS, WORLD_REACH};
ghost use Rattle.bfm_world.specs.Draft.{with_positions};
ghost use Rattle.bfm_world.specs.Configuration.{IsSound, IsValid, reach_of};
ghost use Rattle.bfm_commands.specs.Causes.{frame_cause, added_cause, removed_cause};
ghost use Rattle.bfm_commands.specs.Forms.{pair_entry};
ghost use Rattle.bfm_commands.specs.Held.{IsFew, frames_held, pair_count};
ghost use Rattle.bfm_commands.specs.History.{given_in, with_added, with_removed};
ghost use Rattle.bfm_commands.specs.Reading.{IsFault, ArePlaces, AreSound, IsReady, IsChanged, KeepsFrame, TakesLine, TakesEntry, frames_fault, is_complete, standing, next_fault, loaded_by, whole_count};

use crate::commands::Known;
use crate::fault::LineFault;
use crate::forms::pair_entry;
use crate::frame::FrameLines;
use crate::loaded::{Loaded, Places};
use bfm_base::{Cause, P3};
use bfm_world::{Bonds, WorldBuilder};
use std::alloc::{AllocError, Global};

/// What the whole frames have given.
#[derive(Drop)]
pub(crate) struct Whole {
    /// The positions of the first.
    pub first: Vec<P3>,
    /// The positions of the last.
    pub last: Vec<P3>,
    /// The bonds of the last.
    pub bonds: Bonds,
    /// The time of the last, in sweeps.
    pub mcs: u64,
    /// How many bytes end with the last.
    pub kept: u64,
    /// How many they are.
    pub frames: u64,
}

/// The frames as far as their lines have come.
#[derive(Drop)]
pub(crate) struct Frames {
    /// The frame that began last. Once it is whole the builder has dropped its positions, so that
    /// bonds can change until the next one begins.
    pub lines: FrameLines,
    /// Its time, in sweeps.
    pub mcs: u64,
    pub whole: Option<Whole>,
    /// Whether a bond may have changed since the last whole frame.
    pub changed: bool,
}

impl Frames {
    /// The first frame begins.
    pub fn new(alloc: Global, builder: WorldBuilder, mcs: u64) -> Frames
        requires unplaced { builder.world.positions ≡ [] }
        requires limit { mcs ≤ GREATEST_MCS }
        ensures frame { standing result.lines ≡ builder }
        ensures mcs { result.mcs ≡ mcs }
        ensures none { result.whole ≡ None }
        ensures sound { AreSound result }
    {
        Frames {
            lines: FrameLines {
                builder,
                positions: Vec::new(alloc),
            },
            mcs,
            whole: None,
            changed: true,
        }
    }

    /// Whether the frame that began last is whole. What there is of it is sound.
    pub fn is_whole(&self) -> bool
        ensures whole { result ≡ is_complete (standing self.now.lines) }
        ensures sound { IsSound self.now.lines.builder.count self.now.lines.builder.world }
    {
        self.lines.positions.len() == self.lines.builder.count() as usize
    }

    /// The next frame begins, of a time that is not before that of the last one.
    pub fn next(&mut self, mcs: u64) -> Result<(), Cause>
        requires sound { AreSound self.old }
        requires limit { mcs ≤ GREATEST_MCS }
        ensures taken { OnOk result (next_fault self.old mcs ≡ None) }
        ensures frame { OnOk result (standing self.new.lines ≡ with_positions (standing self.old.lines) []) }
        ensures mcs { OnOk result (self.new.mcs ≡ mcs) }
        ensures whole { OnOk result (self.new.whole ≡ self.old.whole) }
        ensures sound { OnOk result (AreSound self.new) }
        ensures refused { IfErr result (λ cause. next_fault self.old mcs ≡ Some cause) }
    {
        if !self.is_whole() {
            return Err(Cause::FrameShort);
        }
        if mcs < self.mcs {
            return Err(Cause::McsOrder);
        }
        self.lines.positions.clear();
        self.mcs = mcs;
        Ok(())
    }

    /// Takes an entry of a command, with which so many bytes have come.
    pub fn take_entry(
        &mut self,
        alloc: Global,
        owner: Known,
        text: &[u8],
        bytes: u64,
    ) -> Result<(), LineFault>
        requires sound { AreSound self.old }
        requires room { MatchOption self.old.whole ⊤ (λ whole. whole.frames < u64.MAX) }
        ensures taken { OnOk result (IsReady owner self.old → (frames_fault self.old owner text.now ≡ None) × TakesEntry owner text.now bytes self.old self.new) }
        ensures sound { OnOk result (AreSound self.new) }
        ensures more { OnOk result (whole_count self.new.whole ≤ whole_count self.old.whole + 1) }
        ensures refused { IfErr result (λ fault. IsReady owner self.old → IsFault fault (frames_fault self.old owner text.now)) }
    {
        match owner {
            Known::AddBonds => self.add_bond(text),
            Known::RemoveBonds => self.remove_bond(text),
            _ => self.take_line(alloc, text, bytes),
        }
    }

    /// Takes a frame line, with which so many bytes have come.
    fn take_line(&mut self, alloc: Global, text: &[u8], bytes: u64) -> Result<(), LineFault>
        requires sound { AreSound self.old }
        requires room { MatchOption self.old.whole ⊤ (λ whole. whole.frames < u64.MAX) }
        ensures taken { OnOk result (frame_cause (is_none self.old.whole) (standing self.old.lines) text.now ≡ None) }
        ensures line { OnOk result (TakesLine text.now bytes self.old self.new) }
        ensures sound { OnOk result (AreSound self.new) }
        ensures refused { IfErr result (λ fault. IsFault fault (frame_cause (is_none self.old.whole) (standing self.old.lines) text.now)) }
    {
        if self.is_whole() {
            return Err(self.lines.refusal_behind(text));
        }
        if self.whole.is_none() {
            self.lines.take_first(alloc, text)?;
        } else {
            self.lines.take_later(alloc, text)?;
        }
        if self.is_whole() {
            self.keep(alloc, bytes)?;
        }
        Ok(())
    }

    /// Keeps what the frame gives, which is whole and ends with so many bytes. The builder drops its
    /// positions.
    fn keep(&mut self, alloc: Global, bytes: u64) -> Result<(), AllocError>
        requires list { self.old.lines.builder.world.positions ≡ self.old.lines.positions.items }
        requires mcs { self.old.mcs ≤ GREATEST_MCS }
        requires reach { reach_of self.old.lines.positions.items ≤ WORLD_REACH }
        requires whole { is_complete (standing self.old.lines) ≡ true }
        requires valid { IsSound self.old.lines.builder.count self.old.lines.builder.world }
        requires first { MatchOption self.old.whole ⊤ (λ whole. ArePlaces self.old.lines.builder.count whole.first.items) }
        requires bonds { self.old.changed ≡ false → MatchOption self.old.whole ⊤ (λ whole. whole.bonds ≡ self.old.lines.builder.world.bonds) }
        requires room { MatchOption self.old.whole ⊤ (λ whole. whole.frames < u64.MAX) }
        ensures frame { OnOk result (standing self.new.lines ≡ standing self.old.lines) }
        ensures mcs { OnOk result (self.new.mcs ≡ self.old.mcs) }
        ensures kept { OnOk result (KeepsFrame bytes self.new self.old.whole self.new.whole) }
        ensures sound { OnOk result (AreSound self.new) }
    {
        self.keep_whole(alloc, bytes)?;
        self.changed = false;
        self.lines.builder.begin();
        Ok(())
    }

    /// Keeps positions, bonds and time of the frame.
    fn keep_whole(&mut self, alloc: Global, bytes: u64) -> Result<(), AllocError>
        requires bonds { self.old.changed ≡ false → MatchOption self.old.whole ⊤ (λ whole. whole.bonds ≡ self.old.lines.builder.world.bonds) }
        requires room { MatchOption self.old.whole ⊤ (λ whole. whole.frames < u64.MAX) }
        ensures lines { OnOk result (self.new.lines ≡ self.old.lines) }
        ensures mcs { OnOk result (self.new.mcs ≡ self.old.mcs) }
        ensures kept { OnOk result (KeepsFrame bytes self.old self.old.whole self.new.whole) }
    {
        let positions = &self.lines.positions;
        let bonds = self.lines.builder.bonds();
        match &mut self.whole {
            None => {
                self.whole = Some(Whole {
                    first: copy(alloc, positions)?,
                    last: copy(alloc, positions)?,
                    bonds: bonds.copy(alloc)?,
                    mcs: self.mcs,
                    kept: bytes,
                    frames: 1,
                });
            }
            Some(whole) => {
                whole.last.clear();
                whole.last.extend_from_slice(positions)?;
                if self.changed {
                    whole.bonds = bonds.copy(alloc)?;
                }
                whole.mcs = self.mcs;
                whole.kept = bytes;
                whole.frames += 1;
            }
        }
        Ok(())
    }

    /// Takes an entry that adds a bond, where the frame is whole.
    fn add_bond(&mut self, text: &[u8]) -> Result<(), LineFault>
        requires sound { AreSound self.old }
        ensures taken { OnOk result (is_complete (standing self.old.lines) ≡ true → added_cause (standing self.old.lines) text.now ≡ None) }
        ensures bonds { OnOk result (IsChanged (with_added self.old.lines.builder.world.bonds (given_in pair_entry (Some text.now))) self.old self.new) }
        ensures sound { OnOk result (AreSound self.new) }
        ensures refused { IfErr result (λ fault. is_complete (standing self.old.lines) ≡ true → IsFault fault (added_cause (standing self.old.lines) text.now)) }
    {
        let (i, j) = pair_entry(text)?;
        self.lines.builder.join(i, j)?;
        self.changed = true;
        Ok(())
    }

    /// Takes an entry that removes a bond.
    fn remove_bond(&mut self, text: &[u8]) -> Result<(), LineFault>
        requires sound { AreSound self.old }
        ensures taken { OnOk result (removed_cause (standing self.old.lines) text.now ≡ None) }
        ensures bonds { OnOk result (IsChanged (with_removed self.old.lines.builder.world.bonds (given_in pair_entry (Some text.now))) self.old self.new) }
        ensures sound { OnOk result (AreSound self.new) }
        ensures refused { IfErr result (λ fault. IsFault fault (removed_cause (standing self.old.lines) text.now)) }
    {
        let (i, j) = pair_entry(text)?;
        self.lines.builder.part(i, j)?;
        self.changed = true;
        Ok(())
    }

    /// How many positions and bonded pairs are held. The builder's own positions are not counted.
    pub fn held(&self) -> u64
        requires { AreSound self.now }
        ensures held { result ≡ frames_held self.now }
        ensures few { IsFew self.now result }
    {
        let count = self.lines.builder.count();
        let bonds = pair_count(self.lines.builder.bonds(), count);
        let present = self.lines.positions.len() as u64 + bonds;
        match &self.whole {
            None => present,
            Some(whole) => {
                let places = (whole.first.len() + whole.last.len()) as u64;
                present + places + pair_count(&whole.bonds, count)
            }
        }
    }

    /// What a file of so many bytes gives, of whose commands so many were skipped, if a frame was
    /// whole.
    pub fn end(self, total: u64, skipped: u64) -> Option<Loaded>
        requires sound { AreSound self }
        ensures loaded { result ≡ option_map (loaded_by self.lines.builder total skipped) self.whole }
        ensures valid { IfSome result (λ loaded. IsValid loaded.world) }
        ensures first { IfSome result (λ loaded. ArePlaces (length loaded.world.positions) loaded.first) }
        ensures mcs { IfSome result (λ loaded. loaded.mcs ≤ GREATEST_MCS) }
    {
        let Frames { lines, whole, .. } = self;
        let whole = whole?;
        Some(Loaded {
            world: lines.builder.finish_at(whole.last, whole.bonds),
            first: Places::of(whole.first),
            mcs: whole.mcs,
            frames: whole.frames,
            kept: whole.kept,
            total,
            skipped,
        })
    }
}

/// How many pairs of so many monomers are bonded. Each of them makes two monomers neighbours.
fn pair_count(bonds: &Bonds, monomers: u32) -> u64
    requires { length bonds.now ≡ monomers }
    ensures pairs { result ≡ pair_count bonds.now }
    ensures few { result ≤ 4 * monomers }
{
    let mut neighbours = 0;
    for monomer in 0..monomers {
        neighbours += bonds.neighbours(monomer).len() as u64;
    }
    neighbours / 2
}

/// A list of the same positions.
fn copy(alloc: Global, positions: &[P3]) -> Result<Vec<P3>, AllocError>
    ensures { IfOk result (λ list. list.items ≡ positions.now) }
{
    let mut list = Vec::with_capacity(alloc, positions.len())?;
    list.extend_from_slice(positions)?;
    Ok(list)
}

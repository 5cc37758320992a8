ghost use Rattle.std.specs.Prelude.{◌≡◌, Bool, ℕ, ◌+◌, ◌-◌, ◌<◌, ◌≤◌, true, false, List, [], ◌∷◌, ◌++◌, length, take, drop, is_some, None, Some, IfOk, IfErr, OnOk};
ghost use Rattle.std.specs.List.{list_all};
ghost use Rattle.bfm_base.specs.Place.{extent_of};
ghost use Rattle.bond_set.specs.BondSet.{vector_of};
ghost use Rattle.bfm_geom.specs.Walls.{is_within_walls};
ghost use Rattle.bfm_world.specs.Configuration.{reach_of, IsSound, may_bond, position_at};
ghost use Rattle.bfm_world.specs.Draft.{with_positions, with_bonds};
ghost use Rattle.bfm_commands.specs.Causes.{frame_cause, is_overfull, some_fails, is_bonded_well, some_unbonded};
ghost use Rattle.bfm_commands.specs.Forms.{frame_line};
ghost use Rattle.bfm_commands.specs.History.{string_positions, line_positions, given_in, with_pairs, chain};
ghost use Rattle.bfm_commands.specs.Placing.{placing_cause, positions_cause, later_cause, with_line, with_later_line};
ghost use Rattle.bfm_commands.specs.Reading.{IsFault, IsLineBegun, is_complete, standing};

use crate::fault::LineFault;
use crate::forms::frame_line;
use bfm_base::limits::{MOST_MONOMERS, START_REACH, WORLD_REACH};
use bfm_base::{Cause, P3};
use bfm_geom::shifted;
use bfm_world::{WorldBuilder, are_apart, is_within_walls, keeps_bonds};
use bond_set::BondSet;
use std::alloc::{AllocError, Global};

/// The frame as far as its lines have come. The positions are kept once more, in a list of its own,
/// since a monomer that a builder refuses may be followed by one with a lesser cause.
#[derive(Drop)]
pub(crate) struct FrameLines {
    pub builder: WorldBuilder,
    pub positions: Vec<P3>,
}

impl FrameLines {
    /// Why a line is refused that stands behind the last line of a whole frame.
    pub fn refusal_behind(&self, text: &[u8]) -> LineFault
        requires { is_complete (standing self.now) ≡ true }
        ensures { (first : Bool) → IsFault result (frame_cause first (standing self.now) text.now) }
    {
        match frame_line(text) {
            Err(cause) => LineFault::Refused(cause),
            Ok((_, identifiers)) if !are_known(self.builder.set(), identifiers) => {
                LineFault::Refused(Cause::UnknownId)
            }
            Ok(_) => LineFault::Refused(Cause::FrameLong),
        }
    }

    /// Takes a line of the first frame, whose successive monomers are bonded by it.
    pub fn take_first(&mut self, alloc: Global, text: &[u8]) -> Result<(), LineFault>
        requires list { self.old.positions.items ≡ self.old.builder.world.positions }
        requires reach { reach_of self.old.positions.items ≤ WORLD_REACH }
        ensures taken { OnOk result ((frame_cause true self.old.builder text.now ≡ None)
            × (self.new.builder ≡ with_line self.old.builder (line_positions self.old.builder.world.set (given_in frame_line (Some text.now))))) }
        ensures list { OnOk result (self.new.positions.items ≡ self.new.builder.world.positions) }
        ensures reach { OnOk result (reach_of self.new.positions.items ≤ WORLD_REACH) }
        ensures refused { IfErr result (λ fault. IsFault fault (frame_cause true self.old.builder text.now)) }
    {
        let begun = self.positions.len();
        self.add_line(text)?;
        place_line(alloc, &mut self.builder, &self.positions, begun)
    }

    /// Takes a line of a later frame, whose successive monomers have to be bonded.
    pub fn take_later(&mut self, alloc: Global, text: &[u8]) -> Result<(), LineFault>
        requires list { self.old.positions.items ≡ self.old.builder.world.positions }
        requires reach { reach_of self.old.positions.items ≤ WORLD_REACH }
        ensures taken { OnOk result ((frame_cause false self.old.builder text.now ≡ None)
            × (self.new.builder ≡ with_later_line self.old.builder (line_positions self.old.builder.world.set (given_in frame_line (Some text.now))))) }
        ensures list { OnOk result (self.new.positions.items ≡ self.new.builder.world.positions) }
        ensures reach { OnOk result (reach_of self.new.positions.items ≤ WORLD_REACH) }
        ensures refused { IfErr result (λ fault. IsFault fault (frame_cause false self.old.builder text.now)) }
    {
        let begun = self.positions.len();
        self.add_line(text)?;
        place_later_line(alloc, &mut self.builder, &self.positions, begun)
    }

    /// Adds the positions that a line gives to the list, where they are not too many.
    fn add_line(&mut self, text: &[u8]) -> Result<(), LineFault>
        requires list { self.old.positions.items ≡ self.old.builder.world.positions }
        requires reach { reach_of self.old.positions.items ≤ WORLD_REACH }
        ensures same { self.new.builder ≡ self.old.builder }
        ensures added { OnOk result (IsLineBegun self.old.builder text.now self.new.positions.items) }
        ensures refused { IfErr result (λ fault. (first : Bool) → IsFault fault (frame_cause first self.old.builder text.now)) }
    {
        let (first, identifiers) = frame_line(text)?;
        let set = self.builder.set();
        if !are_known(set, identifiers) {
            return Err(LineFault::Refused(Cause::UnknownId));
        }
        if self.positions.len() + 1 + identifiers.len() > self.builder.count() as usize {
            return Err(LineFault::Refused(Cause::FrameLong));
        }
        add_positions(&mut self.positions, set, first, identifiers)?;
        Ok(())
    }
}

/// Whether each byte is an identifier of the set.
fn are_known(set: &BondSet, identifiers: &[u8]) -> bool
    ensures { result ≡ list_all (λ id. is_some (vector_of set.now id)) identifiers.now }
{
    identifiers.iter().all(|id| set.vector_of(*id).is_some())
}

/// Places the monomers from one on where the list of positions says, and joins successive ones.
fn place_line(
    alloc: Global,
    builder: &mut WorldBuilder,
    positions: &[P3],
    begun: usize,
) -> Result<(), LineFault>
    requires begun { begun < length positions.now }
    requires placed { builder.old.world.positions ≡ take begun positions.now }
    requires room { length positions.now ≤ builder.old.count }
    requires reach { reach_of positions.now ≤ WORLD_REACH }
    requires sound { IsSound builder.old.count builder.old.world }
    requires steps { (k : ℕ) → begun ≤ k → k + 1 < length positions.now
        → may_bond builder.old.world.shape builder.old.world.set (position_at positions.now k) (position_at positions.now (k + 1)) ≡ true }
    ensures ok { OnOk result ((builder.new ≡ with_line builder.old (drop begun positions.now)) × (positions_cause builder.old (drop begun positions.now) ≡ None)) }
    ensures err { IfErr result (λ fault. IsFault fault (positions_cause builder.old (drop begun positions.now))) }
{
    if !place_all(builder, positions) {
        let cause = least_cause(alloc, builder, positions, begun)?;
        return Err(LineFault::Refused(cause.unwrap()));
    }
    join_successive(builder, begun, positions.len() - 1 - begun)?;
    Ok(())
}

/// Places the monomers from one on where the list of positions says, where successive ones are
/// bonded.
fn place_later_line(
    alloc: Global,
    builder: &mut WorldBuilder,
    positions: &[P3],
    begun: usize,
) -> Result<(), LineFault>
    requires begun { begun < length positions.now }
    requires placed { builder.old.world.positions ≡ take begun positions.now }
    requires room { length positions.now ≤ builder.old.count }
    requires reach { reach_of positions.now ≤ WORLD_REACH }
    requires sound { IsSound builder.old.count builder.old.world }
    ensures ok { OnOk result ((builder.new ≡ with_later_line builder.old (drop begun positions.now)) × (later_cause builder.old (drop begun positions.now) ≡ None)) }
    ensures err { IfErr result (λ fault. IsFault fault (later_cause builder.old (drop begun positions.now))) }
{
    if !place_all(builder, positions) {
        let cause = least_cause(alloc, builder, positions, begun)?;
        return Err(LineFault::Refused(cause.unwrap()));
    }
    if some_unbonded(builder, begun, positions.len() - 1 - begun) {
        return Err(LineFault::Refused(Cause::BondUnknown));
    }
    Ok(())
}

/// Whether some of so many successive monomers from one on is not bonded to the next.
fn some_unbonded(builder: &WorldBuilder, first: usize, count: usize) -> bool
    requires placed { first + count < builder.now.count }
    requires few { builder.now.count ≤ MOST_MONOMERS }
    ensures { result ≡ some_unbonded builder.now.world.bonds (chain first count) }
{
    for k in first..first + count {
        if !builder.bonded(k as u32, k as u32 + 1) {
            return true;
        }
    }
    false
}

/// Adds the position of a line's first monomer, and those that its identifiers lead to.
fn add_positions(
    positions: &mut Vec<P3>,
    set: &BondSet,
    first: P3,
    identifiers: &[u8],
) -> Result<(), AllocError>
    requires known { list_all (λ id. is_some (vector_of set.now id)) identifiers.now ≡ true }
    requires near { extent_of first ≤ START_REACH }
    requires few { length identifiers.now < MOST_MONOMERS }
    ensures { OnOk result (positions.new.items ≡ positions.old.items ++ string_positions set.now (first, identifiers.now)) }
{
    let mut place = first;
    positions.push(place)?;
    for identifier in identifiers {
        place = shifted(place, set.vector_of(*identifier).unwrap());
        positions.push(place)?;
    }
    Ok(())
}

/// Places the monomers that have no position yet, and answers whether all of them may stand where
/// the list of positions says.
fn place_all(builder: &mut WorldBuilder, positions: &[P3]) -> bool
    requires begun { builder.old.world.positions ≡ take (length builder.old.world.positions) positions.now }
    requires room { length positions.now ≤ builder.old.count }
    requires reach { reach_of positions.now ≤ WORLD_REACH }
    requires sound { IsSound builder.old.count builder.old.world }
    ensures placed { result ≡ true → (builder.new ≡ with_positions builder.old positions.now)
        × (placing_cause builder.old.world (drop (length builder.old.world.positions) positions.now) ≡ None) }
    ensures refused { result ≡ false → (builder.old ≡ with_positions builder.new builder.old.world.positions)
        × (is_some (placing_cause builder.old.world (drop (length builder.old.world.positions) positions.now)) ≡ true) }
    ensures sound { IsSound builder.new.count builder.new.world }
{
    for k in builder.placed()..positions.len() {
        if builder.place(positions[k]).is_err() {
            return false;
        }
    }
    true
}

/// Why the monomers from one on may not stand where the list of positions says, if they may not.
fn least_cause(
    alloc: Global,
    builder: &WorldBuilder,
    positions: &[P3],
    begun: usize,
) -> Result<Option<Cause>, AllocError>
    requires begun { begun ≤ length positions.now }
    requires room { length positions.now ≤ builder.now.count }
    requires few { builder.now.count ≤ MOST_MONOMERS }
    requires reach { reach_of positions.now ≤ WORLD_REACH }
    requires sound { IsSound builder.now.count (with_positions builder.now (take begun positions.now)).world }
    ensures { IfOk result (λ cause. cause ≡ placing_cause (with_positions builder.now (take begun positions.now)).world (drop begun positions.now)) }
{
    if some_outside(builder, positions, begun) {
        return Ok(Some(Cause::Outside));
    }
    if !are_apart(alloc, builder.shape(), positions)? {
        return Ok(Some(Cause::Overlap));
    }
    if some_bonded_badly(builder, positions, begun) {
        return Ok(Some(Cause::BadBond));
    }
    Ok(None)
}

/// Whether one of the monomers from one on is beyond a wall.
fn some_outside(builder: &WorldBuilder, positions: &[P3], begun: usize) -> bool
    requires { begun ≤ length positions.now }
    ensures { result ≡ some_fails (λ before p. is_within_walls builder.now.world.shape p) (take begun positions.now) (drop begun positions.now) }
{
    let shape = builder.shape();
    for k in begun..positions.len() {
        if !is_within_walls(&shape, positions[k]) {
            return true;
        }
    }
    false
}

/// Whether one of the monomers from one on has a bond to one with a lower number whose vector is
/// not in the set.
fn some_bonded_badly(builder: &WorldBuilder, positions: &[P3], begun: usize) -> bool
    requires begun { begun ≤ length positions.now }
    requires room { length positions.now ≤ builder.now.count }
    requires few { builder.now.count ≤ MOST_MONOMERS }
    requires reach { reach_of positions.now ≤ WORLD_REACH }
    ensures { result ≡ some_fails (is_bonded_well builder.now.world) (take begun positions.now) (drop begun positions.now) }
{
    for k in begun..positions.len() {
        if !is_bonded_well(builder, &positions[..k], positions[k]) {
            return true;
        }
    }
    false
}

/// Whether the monomer behind these positions may stand at a place as far as its bonds to them go.
fn is_bonded_well(builder: &WorldBuilder, before: &[P3], p: P3) -> bool
    requires room { length before.now < builder.now.count }
    requires few { builder.now.count ≤ MOST_MONOMERS }
    requires reach { reach_of before.now ≤ WORLD_REACH }
    requires place { extent_of p ≤ WORLD_REACH }
    ensures { result ≡ is_bonded_well builder.now.world before.now p }
{
    let neighbours = builder.neighbours(before.len() as u32);
    keeps_bonds(&builder.shape(), builder.set(), before, neighbours, p)
}

/// Joins successive monomers from one on, all of which are placed.
fn join_successive(builder: &mut WorldBuilder, first: usize, count: usize) -> Result<(), Cause>
    requires placed { first + count < length builder.old.world.positions }
    requires sound { IsSound builder.old.count builder.old.world }
    requires steps { (k : ℕ) → first ≤ k → k < first + count
        → may_bond builder.old.world.shape builder.old.world.set (position_at builder.old.world.positions k) (position_at builder.old.world.positions (k + 1)) ≡ true }
    ensures ok { OnOk result ((builder.new ≡ with_bonds builder.old (with_pairs builder.old.world.bonds (chain first count)))
        × (is_overfull (with_pairs builder.old.world.bonds (chain first count)) ≡ false)) }
    ensures err { IfErr result (λ cause. (cause ≡ Cause.TooManyBonds) × (is_overfull (with_pairs builder.old.world.bonds (chain first count)) ≡ true)) }
{
    for k in first..first + count {
        builder.join(k as u32, k as u32 + 1)?;
    }
    Ok(())
}

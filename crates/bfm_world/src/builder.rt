ghost use Rattle.std.specs.Prelude.{◌≡◌, ◌≢◌, ◌↔◌, ℕ, ◌<◌, ◌≤◌, true, false, [], ◌∷◌, ◌++◌, length, nat_eq, slice_get, All, AllPairs, Ok, IfOk, OnOk, OnErr, MatchOption};
ghost use Rattle.std.specs.List.{Contains, IsDistinct};
ghost use Rattle.bfm_base.specs.Place.{extent_of};
ghost use Rattle.bfm_geom.specs.Difference.{IsBox, overlaps};
ghost use Rattle.bfm_geom.specs.Walls.{is_within_walls};
ghost use Rattle.bond_set.specs.BondSet.{IsBondSet, IsSymmetric};
ghost use Rattle.bfm_world.specs.Bonds.{are_bonded, with_bond, without_bond};
ghost use Rattle.packed_lattice.specs.Cover.{Covers};
ghost use Rattle.bfm_world.specs.Configuration.{IsSound, IsValid, is_clear, reach_of};
ghost use Rattle.bfm_base.specs.declared.limits.TheConstants.{GREATEST_LABEL, GREATEST_VALENCE};
ghost use Rattle.bfm_world.specs.Draft.{begun, with_positions, with_bonds, with_label, with_valence, with_fixed, place_refusal, may_join, join_answer, part_refusal, IsJoined, IsParted};

use crate::bonds::Bonds;
use crate::parts::Parts;
use crate::room::{is_within_walls, keeps_bonds, may_reach, position_in};
use crate::world::World;
use bfm_base::limits::{MOST_BONDS, MOST_MONOMERS, WORLD_REACH};
use bfm_base::{Cause, P3, Shape};
use bond_set::BondSet;
use contact_table::Table;
use packed_lattice::Lattice;
use std::alloc::{AllocError, Global};
use std::marker::Model;

/// A world that is being built: monomers are placed one by one, and bonds join them before they are
/// placed or after it.
#[derive(Drop)]
pub struct WorldBuilder {
    parts: Parts,
    count: u32,
    // The sites that the placed monomers fill: a place is judged by those of its own cube.
    lattice: Lattice,
}

impl Model for WorldBuilder {
    ghost use Rattle.std.specs.Prelude.{◌≤◌, vec_capacity};
    ghost use Rattle.bfm_base.specs.declared.limits.TheConstants.{WORLD_REACH};
    ghost use Rattle.bfm_world.specs.Configuration.{configuration_of, reach_of, IsSound};
    ghost use Rattle.bfm_world.specs.Draft.{Draft, IsFilled};

    ghost Value = { Draft };

    ghost view = { λ b. record { world = configuration_of b.parts; count = b.count } };

    ghost invariant = { λ b.
        IsSound b.count (configuration_of b.parts)
        × (reach_of b.parts.positions.items ≤ WORLD_REACH)
        × (b.count ≤ vec_capacity b.parts.positions)
        × IsFilled (configuration_of b.parts) b.lattice };
}

impl WorldBuilder {
    /// Begins a world of `n` monomers, 1 to 2^18, in the box, whose bonds have vectors of the set and
    /// whose contacts weigh what the table says.
    pub fn new(
        alloc: Global,
        shape: Shape,
        set: BondSet,
        table: Table,
        n: u32,
    ) -> Result<WorldBuilder, AllocError>
        requires shape { IsBox shape }
        requires set { IsBondSet set }
        requires finished { IsSymmetric set }
        requires some { 1 ≤ n }
        requires few { n ≤ MOST_MONOMERS }
        ensures { IfOk result (λ builder. builder ≡ begun shape set table n) }
    {
        Ok(WorldBuilder {
            parts: Parts {
                shape,
                set,
                table,
                positions: Vec::with_capacity(alloc, n as usize)?,
                bonds: Bonds::new(alloc, n)?,
                labels: vec![in alloc; 0; n as usize]?,
                valences: vec![in alloc; 0; n as usize]?,
                fixed: vec![in alloc; false; n as usize]?,
            },
            count: n,
            lattice: Lattice::new(alloc, shape)?,
        })
    }

    /// How many monomers the world will have. Whatever a builder holds is sound.
    pub fn count(&self) -> u32
        ensures count { result ≡ self.now.count }
        ensures sound { IsSound self.now.count self.now.world }
    {
        self.count
    }

    /// How many monomers have been placed.
    pub fn placed(&self) -> usize
        ensures { result ≡ length self.now.world.positions }
    {
        self.parts.positions.len()
    }

    /// The positions of the monomers that have been placed, in order.
    pub fn positions(&self) -> &[P3]
        ensures positions { result.now ≡ self.now.world.positions }
        ensures reach { reach_of result.now ≤ WORLD_REACH }
    {
        &self.parts.positions
    }

    pub fn shape(&self) -> Shape
        ensures shape { result ≡ self.now.world.shape }
        ensures limits { IsBox result }
    {
        self.parts.shape
    }

    pub fn set(&self) -> &BondSet
        ensures { result.now ≡ self.now.world.set }
    {
        &self.parts.set
    }

    /// All bonds.
    pub fn bonds(&self) -> &Bonds
        ensures { result.now ≡ self.now.world.bonds }
    {
        &self.parts.bonds
    }

    /// The monomers that a monomer is bonded to, each once. They may not have positions yet.
    pub fn neighbours(&self, i: u32) -> &[u32]
        requires { i < self.now.count }
        ensures listed { (j : ℕ) → Contains result.now j ↔ (are_bonded self.now.world.bonds i j ≡ true) }
        ensures each_once { IsDistinct nat_eq result.now }
        ensures few { length result.now ≤ MOST_BONDS }
    {
        self.parts.bonds.neighbours(i)
    }

    /// Whether two monomers are bonded.
    pub fn bonded(&self, i: u32, j: u32) -> bool
        requires first { i < self.now.count }
        requires second { j < self.now.count }
        ensures { result ≡ are_bonded self.now.world.bonds i j }
    {
        self.parts.bonds.are_bonded(i, j)
    }

    /// Drops every position and keeps all else, so that the monomers can be placed anew. It takes no
    /// memory, and costs as much as there are monomers placed, however large the box is.
    pub fn begin(&mut self)
        ensures begun { self.new ≡ with_positions self.old [] }
        ensures sound { IsSound self.new.count self.new.world }
    {
        lift_all(&mut self.lattice, &self.parts.positions);
        self.parts.positions.clear();
    }

    /// Gives the next monomer its position. It is refused with `Outside` beyond a wall, else with
    /// `Overlap` where it would overlap a monomer that is placed, else with `BadBond` where a bond
    /// to a monomer that is placed would have no vector of the set; nothing changes then. It costs the
    /// same however many monomers are placed.
    pub fn place(&mut self, p: P3) -> Result<(), Cause>
        requires room { length self.old.world.positions < self.old.count }
        requires reach { extent_of p ≤ WORLD_REACH }
        ensures answer { MatchOption (place_refusal self.old.world p)
            (result ≡ Ok tt) (λ cause. result ≡ Err cause) }
        ensures ok { OnOk result (self.new ≡ with_positions self.old (self.old.world.positions ++ p ∷ [])) }
        ensures err { OnErr result (self.new ≡ self.old) }
        ensures sound { IsSound self.new.count self.new.world }
    {
        let next = self.parts.positions.len() as u32;
        if !is_within_walls(&self.parts.shape, p) {
            return Err(Cause::Outside);
        }
        if !self.is_clear(p) {
            return Err(Cause::Overlap);
        }
        let neighbours = self.parts.bonds.neighbours(next);
        if !keeps_bonds(
            &self.parts.shape,
            &self.parts.set,
            &self.parts.positions,
            neighbours,
            p,
        ) {
            return Err(Cause::BadBond);
        }
        self.parts.positions.push(p).unwrap();
        self.lattice.place(p);
        Ok(())
    }

    /// Whether a monomer within the walls overlaps none that is placed.
    fn is_clear(&self, p: P3) -> bool
        requires reach { extent_of p ≤ WORLD_REACH }
        requires inside { is_within_walls self.now.world.shape p ≡ true }
        ensures { result ≡ is_clear self.now.world.shape self.now.world.positions p }
    {
        self.lattice.cube_free(p)
    }

    /// Joins two monomers by a bond, and answers whether it is a new one. It is refused with
    /// `BadMonomer` where the two are one or there is no such monomer; where they are bonded, the
    /// answer is false. Else it is refused with `BadBond` where both are placed and their wrapped
    /// difference is not in the set, else with `TooManyBonds` where one of them has 8 bonds.
    pub fn join(&mut self, i: u32, j: u32) -> Result<bool, Cause>
        ensures answer { result ≡ join_answer self.old i j }

        // A new bond is there from both ends, and it is all that is new.
        ensures joined { result ≡ Ok true → IsJoined i j self.old self.new }
        ensures exact { result ≡ Ok true → self.new ≡ with_bonds self.old (with_bond self.old.world.bonds i j) }
        ensures same { result ≢ Ok true → self.new ≡ self.old }
        ensures sound { IsSound self.new.count self.new.world }
    {
        if i == j || i >= self.count || j >= self.count {
            return Err(Cause::BadMonomer);
        }
        if self.parts.bonds.are_bonded(i, j) {
            return Ok(false);
        }
        if !self.may_join(i, j) {
            return Err(Cause::BadBond);
        }
        if self.parts.bonds.is_full(i) || self.parts.bonds.is_full(j) {
            return Err(Cause::TooManyBonds);
        }
        self.parts.bonds.join(i, j);
        Ok(true)
    }

    /// Whether a bond may run between two monomers, where both are placed.
    fn may_join(&self, i: u32, j: u32) -> bool
        ensures { result ≡ may_join self.now.world (slice_get self.now.world.positions i) (slice_get self.now.world.positions j) }
    {
        let positions = &self.parts.positions;
        match position_in(positions, i) {
            Some(p) => may_reach(
                &self.parts.shape,
                &self.parts.set,
                p,
                position_in(positions, j),
            ),
            None => true,
        }
    }

    /// Separates two monomers. It is refused with `BadMonomer` where the two are one or there is no
    /// such monomer, else with `BondUnknown` where they are not bonded; nothing changes then.
    pub fn part(&mut self, i: u32, j: u32) -> Result<(), Cause>
        ensures answer { MatchOption (part_refusal self.old i j) (result ≡ Ok tt) (λ cause. result ≡ Err cause) }

        // The bond is gone at both ends, and it is all that is gone.
        ensures parted { OnOk result (IsParted i j self.old self.new) }
        ensures exact { OnOk result (self.new ≡ with_bonds self.old (without_bond self.old.world.bonds i j)) }
        ensures same { OnErr result (self.new ≡ self.old) }
        ensures sound { IsSound self.new.count self.new.world }
    {
        if i == j || i >= self.count || j >= self.count {
            return Err(Cause::BadMonomer);
        }
        if !self.parts.bonds.are_bonded(i, j) {
            return Err(Cause::BondUnknown);
        }
        self.parts.bonds.part(i, j);
        Ok(())
    }

    /// Gives a monomer a label, which replaces the one that it has.
    pub fn label(&mut self, i: u32, label: u32)
        requires monomer { i < self.old.count }
        requires limit { label ≤ GREATEST_LABEL }
        ensures labelled { self.new ≡ with_label self.old i label }
        ensures sound { IsSound self.new.count self.new.world }
    {
        self.parts.labels[i as usize] = label;
    }

    /// Gives a monomer a valence, which replaces the one that it has.
    pub fn valence(&mut self, i: u32, valence: u8)
        requires monomer { i < self.old.count }
        requires limit { valence ≤ GREATEST_VALENCE }
        ensures valued { self.new ≡ with_valence self.old i valence }
        ensures sound { IsSound self.new.count self.new.world }
    {
        self.parts.valences[i as usize] = valence;
    }

    /// Fixes a monomer: it never moves.
    pub fn fix(&mut self, i: u32)
        requires { i < self.old.count }
        ensures fixed { self.new ≡ with_fixed self.old i }
        ensures sound { IsSound self.new.count self.new.world }
    {
        self.parts.fixed[i as usize] = true;
    }

    /// The world, where each monomer is placed.
    pub fn finish(self) -> World
        requires { length self.world.positions ≡ self.count }
        ensures world { result ≡ self.world }
        ensures valid { IsValid result }
    {
        let WorldBuilder { parts, .. } = self;
        World::of_parts(parts)
    }

    /// The world with these positions and bonds in place of those that were given, where they make it
    /// valid.
    pub fn finish_at(self, positions: Vec<P3>, bonds: Bonds) -> World
        requires valid { IsValid (with_bonds (with_positions self positions.items) bonds).world }
        requires reach { reach_of positions.items ≤ WORLD_REACH }
        ensures world { result ≡ (with_bonds (with_positions self positions.items) bonds).world }
        ensures valid { IsValid result }
    {
        let WorldBuilder { parts, .. } = self;
        World::of_parts(Parts {
            positions,
            bonds,
            ..parts
        })
    }
}

/// Frees the cubes of these monomers, which are all that there are.
fn lift_all(lattice: &mut Lattice, positions: &[P3])
    requires box_limits { IsBox lattice.old.shape }
    requires reach { reach_of positions.now ≤ WORLD_REACH }
    requires inside { All (λ p. is_within_walls lattice.old.shape p ≡ true) positions.now }
    requires apart { AllPairs (λ p q. overlaps lattice.old.shape p q ≡ false) positions.now }
    requires taken { Covers positions.now lattice.old }
    ensures shape { lattice.new.shape ≡ lattice.old.shape }
    ensures none { Covers [] lattice.new }
{
    for p in positions {
        lattice.lift(*p);
    }
}

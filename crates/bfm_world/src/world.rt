ghost use Rattle.std.specs.Prelude.{◌≡◌, ◌≢◌, ◌↔◌, ℕ, ◌+◌, ◌<◌, ◌≤◌, true, false, pos, length, nat_eq};
ghost use Rattle.std.specs.List.{Contains, IsDistinct};
ghost use Rattle.bfm_base.specs.Direction.{step_of};
ghost use Rattle.bfm_base.specs.Place.{extent_of};
ghost use Rattle.bfm_geom.specs.Difference.{IsBox, plus};
ghost use Rattle.bond_set.specs.Crossing.{IsFree};
ghost use Rattle.bfm_world.specs.Bonds.{neighbours_of, are_bonded, is_full, Joins};
ghost use Rattle.bfm_world.specs.Configuration.{configuration_of, IsValid, position_of, target_of, label_of, class_at, valence_of, is_fixed, is_legal, keeps_bonds, may_bond, moved, bonded, reach_of};
ghost use Rattle.bfm_world.specs.Sweeping.{CrossesNone};

use crate::parts::Parts;
use crate::room;
use bfm_base::limits::{GREATEST_CLASS, GREATEST_LABEL, GREATEST_VALENCE, MOST_BONDS, WORLD_REACH};
use bfm_base::{Dir, P3, Shape};
use bfm_geom::shifted;
use bond_set::BondSet;
use contact_table::Table;
use std::marker::Model;

/// A valid world: each monomer is within the walls, no two overlap, and each bond has a vector of
/// the set. Coordinates are absolute: along a periodic axis they are not folded into the box. They
/// are at most 2^44 + 2^20 in absolute value.
#[derive(Drop)]
pub struct World {
    parts: Parts,
}

impl Model for World {
    ghost use Rattle.std.specs.Prelude.{◌≤◌};
    ghost use Rattle.bfm_base.specs.declared.limits.TheConstants.{WORLD_REACH};
    ghost use Rattle.bfm_world.specs.Configuration.{Configuration, configuration_of, IsValid, reach_of};

    ghost Value = { Configuration };

    ghost view = { λ w. configuration_of w.parts };

    ghost invariant = { λ w. IsValid (configuration_of w.parts) × (reach_of w.parts.positions.items ≤ WORLD_REACH) };
}

/// The greatest absolute coordinate of these places, 0 where there are none.
fn reach_of(positions: &[P3]) -> u64
    ensures { result ≡ reach_of positions.now }
{
    let mut reach = 0;
    for p in positions {
        reach = p.extent().max(reach);
    }
    reach
}

impl World {
    pub(crate) fn of_parts(parts: Parts) -> World
        requires valid { IsValid (configuration_of parts) }
        requires reach { reach_of parts.positions.items ≤ WORLD_REACH }
        ensures { result ≡ configuration_of parts }
    {
        World { parts }
    }

    pub fn shape(&self) -> Shape
        ensures shape { result ≡ self.now.shape }
        ensures limits { IsBox result }
    {
        self.parts.shape
    }

    pub fn set(&self) -> &BondSet
        ensures { result.now ≡ self.now.set }
    {
        &self.parts.set
    }

    /// The weights of contacts, and the thresholds of acceptance.
    pub fn table(&self) -> &Table
        ensures { result.now ≡ self.now.table }
    {
        &self.parts.table
    }

    /// The number of monomers, 1 to 2^18. Whatever a world holds is valid.
    pub fn len(&self) -> u32
        ensures count { result ≡ length self.now.positions }
        ensures valid { IsValid self.now }
        ensures reach { reach_of self.now.positions ≤ WORLD_REACH }
    {
        self.parts.positions.len() as u32
    }

    /// The positions of all monomers, in order.
    pub fn positions(&self) -> &[P3]
        ensures positions { result.now ≡ self.now.positions }
        ensures reach { reach_of result.now ≤ WORLD_REACH }
    {
        &self.parts.positions
    }

    /// The position of a monomer, counted from 0.
    pub fn position(&self, i: u32) -> P3
        requires { i < length self.now.positions }
        ensures position { result ≡ position_of self.now i }
        ensures reach { extent_of result ≤ WORLD_REACH }
    {
        self.parts.positions[i as usize]
    }

    /// The monomers that a monomer is bonded to, each once, in ascending order.
    pub fn neighbours(&self, i: u32) -> &[u32]
        requires { i < length self.now.positions }
        ensures row { result.now ≡ neighbours_of self.now.bonds i }
        ensures listed { (j : ℕ) → Contains result.now j ↔ (are_bonded self.now.bonds i j ≡ true) }
        ensures each_once { IsDistinct nat_eq result.now }
        ensures few { length result.now ≤ MOST_BONDS }
    {
        self.parts.bonds.neighbours(i)
    }

    /// Whether two monomers are bonded.
    pub fn bonded(&self, i: u32, j: u32) -> bool
        requires first { i < length self.now.positions }
        requires second { j < length self.now.positions }
        ensures { result ≡ are_bonded self.now.bonds i j }
    {
        self.parts.bonds.are_bonded(i, j)
    }

    /// Whether each bond of a monomer would have a vector of the set if it stood at a place.
    pub fn keeps_bonds(&self, i: u32, p: P3) -> bool
        requires monomer { i < length self.now.positions }
        requires place { extent_of p ≤ WORLD_REACH + 1 }
        ensures { result ≡ keeps_bonds self.now.shape self.now.set self.now.positions (neighbours_of self.now.bonds i) p }
    {
        let neighbours = self.parts.bonds.neighbours(i);
        room::keeps_bonds(
            &self.parts.shape,
            &self.parts.set,
            &self.parts.positions,
            neighbours,
            p,
        )
    }

    /// The label of a monomer, at most 2^31 - 1; 0 where it has none.
    pub fn label(&self, i: u32) -> u32
        requires { i < length self.now.positions }
        ensures label { result ≡ label_of self.now i }
        ensures limit { result ≤ GREATEST_LABEL }
    {
        self.parts.labels[i as usize]
    }

    /// The class of a monomer: its label where that is 1 to 15, else 0.
    pub fn class(&self, i: u32) -> u8
        requires { i < length self.now.positions }
        ensures class { result ≡ class_at self.now i }
        ensures limit { result ≤ GREATEST_CLASS }
    {
        let label = self.label(i);
        if label <= u32::from(GREATEST_CLASS) {
            label as u8
        } else {
            0
        }
    }

    /// How many bonds a monomer may have by linking, at most 8; 0 where it is never linked.
    pub fn valence(&self, i: u32) -> u8
        requires { i < length self.now.positions }
        ensures valence { result ≡ valence_of self.now i }
        ensures limit { result ≤ GREATEST_VALENCE }
    {
        self.parts.valences[i as usize]
    }

    /// Whether a monomer is fixed. A fixed monomer never moves.
    pub fn fixed(&self, i: u32) -> bool
        requires { i < length self.now.positions }
        ensures { result ≡ is_fixed self.now i }
    {
        self.parts.fixed[i as usize]
    }

    /// The greatest absolute coordinate of any monomer, in lattice units.
    pub fn reach(&self) -> i64
        ensures { result ≡ pos (reach_of self.now.positions) }
    {
        reach_of(&self.parts.positions) as i64
    }

    /// Where a monomer would stand after a step of one lattice unit.
    pub fn target(&self, i: u32, dir: Dir) -> P3
        requires { i < length self.now.positions }
        ensures target { result ≡ target_of self.now i dir }
        ensures reach { extent_of result ≤ WORLD_REACH + 1 }
    {
        shifted(self.position(i), dir.step())
    }

    /// Moves a monomer by one lattice unit. Where the set of bond vectors is free, this takes none of
    /// its bonds through a bond that shares no monomer with it, nor through any image of one.
    pub fn shift(&mut self, i: u32, dir: Dir)
        requires monomer { i < length self.old.positions }
        requires legal { is_legal self.old i dir ≡ true }
        requires reach { extent_of (target_of self.old i dir) ≤ WORLD_REACH }
        ensures moved { self.new ≡ moved self.old i dir }
        ensures uncrossed { IsFree self.old.set → CrossesNone self.old i dir }
    {
        let target = self.target(i, dir);
        self.parts.positions[i as usize] = target;
    }

    /// Bonds two monomers that are not bonded. Their wrapped difference is in the set, and each of
    /// them has fewer than 8 bonds.
    pub fn bond(&mut self, i: u32, j: u32)
        requires first { i < length self.old.positions }
        requires second { j < length self.old.positions }
        requires other { i ≢ j }
        requires unbonded { are_bonded self.old.bonds i j ≡ false }
        requires vector { may_bond self.old.shape self.old.set (position_of self.old i) (position_of self.old j) ≡ true }
        requires first_room { is_full self.old.bonds i ≡ false }
        requires second_room { is_full self.old.bonds j ≡ false }
        ensures bonded { self.new ≡ bonded self.old i j }
        ensures joined { Joins i j self.old.bonds self.new.bonds }
    {
        self.parts.bonds.join(i, j);
    }
}

//! The plain engine: attempts at local moves that compare a monomer with each other one.
//! It stands on `bfm_world`, whose trait `Engine` it keeps, and on `contact_table` for the weights of
//! contacts and the thresholds. It promises that an attempt makes its move exactly where the step is
//! legal and the word is below the threshold of what the step changes the sum of all weights by; a
//! monomer without a class costs no look at the others for that. It is slow and short, so that a
//! faster engine can be compared with it.
#![tactic(auto)]

#[cfg(test)]
mod tests;

ghost use Rattle.std.specs.Prelude.{◌≡◌, ◌+◌, ◌*◌, ◌<◌, ◌≤◌, length, remove, unsigned_abs};
ghost use Rattle.bfm_base.specs.Place.{extent_of};
ghost use Rattle.bfm_base.specs.declared.limits.TheConstants.{GREATEST_WEIGHT, MOST_MONOMERS};
ghost use Rattle.bfm_world.specs.Acceptance.{contact_weight, delta_of, is_accepted, weight_at};
ghost use Rattle.bfm_geom.specs.Difference.{IsBox, IsWithin};
ghost use Rattle.bfm_world.specs.Configuration.{is_legal, is_clear, reach_of};
ghost use Rattle.bfm_world.specs.Occupants.{stands_at};

use bfm_base::limits::{PLACE_REACH, WORLD_REACH};
use bfm_base::{Dir, P3, Shape};
use bfm_geom::{contact, plain_difference, wrap};
use bfm_world::{Engine, World, is_clear, is_within_walls};
use std::marker::Model;

/// An engine over the plain list of positions.
#[derive(Drop)]
pub struct PlainEngine {
    world: World,
}

impl Model for PlainEngine {
    ghost use Rattle.bfm_world.specs.Configuration.{Configuration};

    ghost Value = { Configuration };

    ghost view = { λ e. e.world };
}

impl PlainEngine {
    /// Takes the world as it is.
    pub fn new(world: World) -> PlainEngine
        ensures { result ≡ world }
    {
        PlainEngine { world }
    }

    /// Gives the world back.
    pub fn into_world(self) -> World
        ensures { result ≡ self }
    {
        let PlainEngine { world } = self;
        world
    }
}

impl Engine for PlainEngine {
    ghost configuration = { λ e. e };

    fn world(&self) -> &World {
        &self.world
    }

    fn attempt(&mut self, monomer: u32, dir: Dir, word: u32) -> bool {
        if !is_legal(&self.world, monomer, dir) || !is_accepted(&self.world, monomer, dir, word) {
            return false;
        }
        self.world.shift(monomer, dir);
        true
    }

    fn at(&self, place: P3) -> Option<u32> {
        (0..self.world.len()).find(|monomer| stands_at(&self.world, place, *monomer))
    }

    fn bond(&mut self, i: u32, j: u32) {
        self.world.bond(i, j);
    }
}

/// Whether a monomer stands at a place, or whole sides away from it along periodic axes.
fn stands_at(world: &World, place: P3, monomer: u32) -> bool
    requires place { IsWithin PLACE_REACH place }
    requires monomer { monomer < length world.now.positions }
    ensures { result ≡ stands_at world.now place monomer }
{
    let nothing = P3 { x: 0, y: 0, z: 0 };
    wrap(
        &world.shape(),
        plain_difference(place, world.position(monomer)),
    ) == nothing
}

/// Whether the step is legal: of a monomer that is not fixed, within the walls, clear of each other
/// monomer, and with a vector of the set for each bond.
fn is_legal(world: &World, monomer: u32, dir: Dir) -> bool
    requires { monomer < length world.now.positions }
    ensures { result ≡ is_legal world.now monomer dir }
{
    if world.fixed(monomer) {
        return false;
    }
    let shape = world.shape();
    let target = world.target(monomer, dir);
    is_within_walls(&shape, target)
        && is_clear_of_others(&shape, world.positions(), monomer as usize, target)
        && world.keeps_bonds(monomer, target)
}

/// Whether a place is clear of all monomers but one.
fn is_clear_of_others(shape: &Shape, positions: &[P3], monomer: usize, p: P3) -> bool
    requires shape { IsBox shape.now }
    requires reach { reach_of positions.now ≤ WORLD_REACH }
    requires place { extent_of p ≤ WORLD_REACH + 1 }
    requires monomer { monomer < length positions.now }
    ensures { result ≡ is_clear shape.now (remove positions.now monomer) p }
{
    is_clear(shape, &positions[..monomer], p) && is_clear(shape, &positions[monomer + 1..], p)
}

/// Whether the word accepts the step: it is below the threshold of the change of the sum of all
/// weights.
fn is_accepted(world: &World, monomer: u32, dir: Dir, word: u32) -> bool
    requires { monomer < length world.now.positions }
    ensures { result ≡ is_accepted world.now monomer dir word }
{
    u64::from(word) < world.table().threshold(delta(world, monomer, dir))
}

/// How much the step changes the sum of all weights by.
fn delta(world: &World, monomer: u32, dir: Dir) -> i64
    requires { monomer < length world.now.positions }
    ensures value { result ≡ delta_of world.now monomer dir }
{
    let before = weight_at(world, monomer, world.position(monomer));
    let after = weight_at(world, monomer, world.target(monomer, dir));
    after - before
}

/// What the contacts of a monomer with all others weigh where it stands at a place. One without a
/// class has none that weighs anything, so it is not compared with the others.
fn weight_at(world: &World, monomer: u32, p: P3) -> i64
    requires monomer { monomer < length world.now.positions }
    requires place { extent_of p ≤ WORLD_REACH + 1 }
    ensures value { result ≡ weight_at world.now monomer p }
    ensures limit { unsigned_abs result ≤ GREATEST_WEIGHT * MOST_MONOMERS }
{
    let monomers = world.len();
    if world.class(monomer) == 0 {
        return 0;
    }
    let mut sum = 0;
    for other in 0..monomers {
        sum += contact_weight(world, monomer, p, other);
    }
    sum
}

/// What the contact of a monomer at a place with another one weighs, 0 where there is none.
fn contact_weight(world: &World, monomer: u32, p: P3, other: u32) -> i64
    requires monomer { monomer < length world.now.positions }
    requires place { extent_of p ≤ WORLD_REACH + 1 }
    requires other { other < length world.now.positions }
    ensures value { result ≡ contact_weight world.now monomer p other }
    ensures limit { unsigned_abs result ≤ GREATEST_WEIGHT }
{
    if other == monomer || !contact(&world.shape(), p, world.position(other)) {
        return 0;
    }
    let weight = world
        .table()
        .weight(world.class(monomer), world.class(other));
    i64::from(weight)
}

ghost use Rattle.std.specs.Prelude.{◌≡◌, ◌+◌, ◌≤◌, ◌<◌, slice_index, is_some};
ghost use Rattle.bfm_base.specs.declared.place.Dir.{Dir};
ghost use Rattle.bfm_base.specs.Direction.{step_of};
ghost use Rattle.bfm_base.specs.Place.{extent_of};
ghost use Rattle.bfm_geom.specs.Difference.{minus};
ghost use Rattle.bond_set.specs.BondSet.{id_of};
ghost use Rattle.bond_set.specs.FlatTables.{digit_of, key_of};
ghost use Rattle.packed_engine.specs.Spots.{AreAllowed, allows, vector_at};

use crate::spots::with_step;
use bfm_base::{Dir, P3};
use bond_set::BondSet;
use std::marker::Model;

/// How many keys of vectors there are.
const KEYS: usize = 512;

/// The steps that a bond allows the monomer at its start, by the bond's vector: what an attempt
/// would else have to look up in the set.
#[derive(Drop)]
pub(crate) struct Allowed {
    steps: [u8; KEYS],
}

impl Model for Allowed {
    ghost use Rattle.std.specs.Prelude.{List, ℕ};

    ghost Value = { List ℕ };

    ghost view = { λ a. a.steps };
}

impl Allowed {
    pub fn new(set: &BondSet) -> Allowed
        ensures { AreAllowed set.now result }
    {
        let mut steps = [0; KEYS];
        for key in 0..KEYS {
            steps[key] = steps_kept(set, vector_at(key));
        }
        Allowed { steps }
    }

    /// The steps that a bond with this vector allows.
    pub fn at(&self, v: P3) -> u8
        ensures { result ≡ slice_index self.now (key_of v) }
    {
        self.steps[key(v)]
    }
}

/// The steps of the monomer at the start of a bond after which its vector is in the set.
fn steps_kept(set: &BondSet, v: P3) -> u8
    requires { extent_of v ≤ 4 }
    ensures { (dir : Dir) → allows result dir ≡ is_some (id_of set.now (minus v (step_of dir))) }
{
    let mut steps = 0;
    for n in 0..6 {
        let dir = Dir::of(n);
        if set.id_of(before(v, dir)).is_some() {
            steps = with_step(steps, dir);
        }
    }
    steps
}

/// The vector of a bond after a step of the monomer at its start.
fn before(v: P3, dir: Dir) -> P3
    requires { extent_of v ≤ 4 }
    ensures { result ≡ minus v (step_of dir) }
{
    let step = dir.step();
    P3 {
        x: v.x - step.x,
        y: v.y - step.y,
        z: v.z - step.z,
    }
}

/// The vector with a key.
fn vector_at(key: usize) -> P3
    requires { key < 512 }
    ensures value { result ≡ vector_at key }
    ensures reach { extent_of result ≤ 4 }
{
    P3 {
        x: (key / 64) as i64 - 3,
        y: (key / 8 % 8) as i64 - 3,
        z: (key % 8) as i64 - 3,
    }
}

/// Where the steps that a vector allows stand in the table.
fn key(v: P3) -> usize
    ensures value { result ≡ key_of v }
    ensures within { result < 512 }
{
    64 * digit(v.x) + 8 * digit(v.y) + digit(v.z)
}

/// One digit for each component that a bond vector may have, and one for all others.
fn digit(component: i64) -> usize
    ensures value { result ≡ digit_of component }
    ensures within { result < 8 }
{
    match component {
        -3 => 0,
        -2 => 1,
        -1 => 2,
        0 => 3,
        1 => 4,
        2 => 5,
        3 => 6,
        _ => 7,
    }
}

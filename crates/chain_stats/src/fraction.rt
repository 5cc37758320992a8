ghost use Rattle.std.specs.Prelude.{◌≡◌, ◌+◌, ◌*◌, ◌<◌, ◌≤◌, length};
ghost use Rattle.bfm_base.specs.Place.{extent_of};
ghost use Rattle.bfm_geom.specs.Difference.{IsWithin, minus, square_of};
ghost use Rattle.bfm_world.specs.Configuration.{position_of, reach_of};
ghost use Rattle.chain_stats.specs.Fractions.{AreMembers, vector_sum, square_sum, radius_of, end_square_of, displacement_of, drift_of, mean_square_of};

use crate::vectors::{DISPLACEMENT_REACH, VectorSum, square};
use bfm_base::P3;
use bfm_base::limits::WORLD_REACH;
use bfm_geom::plain_difference;
use bfm_world::World;

/// A fraction of whole numbers, not reduced: `top` over `bottom`, in lattice units squared.
#[derive(Clone, Copy, Debug, PartialEq, Eq)]
pub struct Fraction {
    pub top: u128,
    pub bottom: u128,
}

/// The squared radius of gyration of some monomers, over the square of their number.
pub fn radius(world: &World, members: &[u32]) -> Fraction
    requires { AreMembers world.now members.now }
    ensures value { result ≡ radius_of world.now members.now }
    ensures whole { result.top + square_of (vector_sum (position_of world.now) members.now)
        ≡ length members.now * square_sum (position_of world.now) members.now }
{
    prove!(members.len() <= world.len() as usize);
    let mut sum = VectorSum::new();
    let mut squares: u128 = 0;
    for i in members {
        let position = world.position(*i);
        sum.add(position);
        squares += square(position);
    }
    let count = members.len() as u128;
    Fraction {
        top: count * squares - sum.square(),
        bottom: count * count,
    }
}

/// The squared plain distance between the least of some monomers and the greatest, in lattice units
/// squared: of a chain whose monomers are numbered from end to end, the squared distance of its ends.
pub fn end_square(world: &World, members: &[u32]) -> u128
    requires { AreMembers world.now members.now }
    ensures { result ≡ end_square_of world.now members.now }
{
    let mut least = members[0];
    let mut greatest = members[0];
    for i in members {
        least = least.min(*i);
        greatest = greatest.max(*i);
    }
    square(vector(world.position(least), world.position(greatest)))
}

/// The squared displacement of the centre of mass of some monomers since they stood at the first
/// positions, over the square of their number.
pub fn drift(first: &[P3], world: &World, members: &[u32]) -> Fraction
    requires each { length first.now ≡ length world.now.positions }
    requires reach { reach_of first.now ≤ WORLD_REACH }
    requires members { AreMembers world.now members.now }
    ensures { result ≡ drift_of first.now world.now members.now }
{
    prove!(members.len() <= world.len() as usize);
    let mut sum = VectorSum::new();
    for i in members {
        sum.add(displacement(first, world, *i));
    }
    let count = members.len() as u128;
    Fraction {
        top: sum.square(),
        bottom: count * count,
    }
}

/// The sum of the squared displacements of all monomers since they stood at the first positions,
/// over their number.
pub fn mean_square(first: &[P3], world: &World) -> Fraction
    requires each { length first.now ≡ length world.now.positions }
    requires reach { reach_of first.now ≤ WORLD_REACH }
    ensures { result ≡ mean_square_of first.now world.now }
{
    let mut squares: u128 = 0;
    for i in 0..world.len() {
        squares += square(displacement(first, world, i));
    }
    Fraction {
        top: squares,
        bottom: u128::from(world.len()),
    }
}

/// How far a monomer went since it stood at the first of these positions.
fn displacement(first: &[P3], world: &World, i: u32) -> P3
    requires monomer { i < length world.now.positions }
    requires each { length first.now ≡ length world.now.positions }
    requires reach { reach_of first.now ≤ WORLD_REACH }
    ensures value { result ≡ displacement_of first.now world.now i }
    ensures reach { IsWithin DISPLACEMENT_REACH result }
{
    vector(first[i as usize], world.position(i))
}

/// The vector from one place to another.
fn vector(from: P3, to: P3) -> P3
    requires from { extent_of from ≤ WORLD_REACH }
    requires to { extent_of to ≤ WORLD_REACH }
    ensures value { result ≡ minus to from }
    ensures reach { IsWithin DISPLACEMENT_REACH result }
{
    plain_difference(from, to)
}

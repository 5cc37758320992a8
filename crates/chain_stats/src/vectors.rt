ghost use Rattle.std.specs.Prelude.{◌≡◌, ◌≤◌, ◌*◌, pos};
ghost use Rattle.bfm_geom.specs.Difference.{IsWithin, plus, square_of};

use bfm_base::P3;
use bfm_base::limits::{MOST_MONOMERS, WORLD_REACH};
use std::marker::Model;

/// The greatest absolute component of a displacement, in lattice units.
pub(crate) const DISPLACEMENT_REACH: u64 = 2 * WORLD_REACH;

/// The greatest absolute component of the sum of the displacements of all monomers, in lattice
/// units: below 2^64, so that three squares of it are below 2^128.
pub(crate) const SUM_REACH: u64 = MOST_MONOMERS as u64 * DISPLACEMENT_REACH;

#[derive(Drop)]
/// The sum of vectors. No sum of an axis reaches the limits of its type.
pub(crate) struct VectorSum {
    x: i128,
    y: i128,
    z: i128,
}

impl Model for VectorSum {
    ghost use Rattle.bfm_base.specs.declared.place.P3.{P3};

    ghost Value = { P3 };

    ghost view = { λ s. record { x = s.x; y = s.y; z = s.z } };
}

impl VectorSum {
    /// The sum of no vectors.
    pub fn new() -> VectorSum
        ensures { result ≡ record { x = pos 0; y = pos 0; z = pos 0 } }
    {
        VectorSum { x: 0, y: 0, z: 0 }
    }

    /// Adds a vector.
    pub fn add(&mut self, v: P3)
        requires sum { IsWithin SUM_REACH self.old }
        requires vector { IsWithin DISPLACEMENT_REACH v }
        ensures { self.new ≡ plus self.old v }
    {
        self.x += i128::from(v.x);
        self.y += i128::from(v.y);
        self.z += i128::from(v.z);
    }

    /// The squared length of the sum, in lattice units squared.
    pub fn square(&self) -> u128
        requires { IsWithin SUM_REACH self.now }
        ensures { result ≡ square_of self.now }
    {
        squared(self.x.unsigned_abs())
            + squared(self.y.unsigned_abs())
            + squared(self.z.unsigned_abs())
    }
}

fn squared(length: u128) -> u128
    requires { length ≤ SUM_REACH }
    ensures { result ≡ length * length }
{
    length * length
}

/// The squared length of a vector, in lattice units squared.
pub(crate) fn square(v: P3) -> u128
    requires { IsWithin DISPLACEMENT_REACH v }
    ensures value { result ≡ square_of v }
    ensures reach { result ≤ 3 * (DISPLACEMENT_REACH * DISPLACEMENT_REACH) }
{
    squared(u128::from(v.x.unsigned_abs()))
        + squared(u128::from(v.y.unsigned_abs()))
        + squared(u128::from(v.z.unsigned_abs()))
}

ghost use Rattle.std.specs.Prelude.{◌≡◌, ◌↔◌};
ghost use Rattle.bond_set.specs.Crossing.{IsFree};
ghost use Rattle.crossing_check.specs.Verdict.{IsVerdict};

use crate::search::first_of_bond;
use bfm_base::{Dir, P3};
use bfm_geom::Weights;
use bond_set::BondSet;

/// Whether a set of bond vectors allows a crossing move: a step of a bond's end that takes the bond
/// through another bond, whose ends overlap no monomer of the first.
#[derive(Clone, Copy, Debug, PartialEq, Eq)]
pub enum SetVerdict {
    /// It allows none.
    Free,
    /// The first one: by the place of `b` in the set, the number of `dir`, the place of `e`, then
    /// `c`. A bond runs from the origin to `b`, its end steps along `dir`, and the triangle of these
    /// three places meets the bond `e` that begins at `c`. The weights show a common point.
    Crossing {
        b: P3,
        dir: Dir,
        c: P3,
        e: P3,
        weights: Weights,
    },
}

/// A crossing move, and weights that show the common point.
#[derive(Clone, Copy)]
pub(crate) struct Crossing {
    pub b: P3,
    pub dir: Dir,
    pub c: P3,
    pub e: P3,
    pub weights: Weights,
}

/// The verdict on a set, wherever the other bond may begin. It takes no memory.
pub fn verdict(set: &BondSet) -> SetVerdict
    ensures free { (result ≡ SetVerdict.Free) ↔ IsFree set.now }
    ensures verdict { IsVerdict set.now result }
{
    for k in 0..set.len() {
        if let Some(first) = first_of_bond(set, set.vector(k)) {
            return SetVerdict::Crossing {
                b: first.b,
                dir: first.dir,
                c: first.c,
                e: first.e,
                weights: first.weights,
            };
        }
    }
    SetVerdict::Free
}

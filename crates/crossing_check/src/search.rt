ghost use Rattle.std.specs.Prelude.{◌≤◌, IfNone, IfSome};
ghost use Rattle.std.specs.List.{Contains};
ghost use Rattle.bfm_base.specs.Place.{extent_of};
ghost use Rattle.bond_set.specs.BondSet.{vectors_of};
ghost use Rattle.crossing_check.specs.Verdict.{IsFirstAmong, IsOfBond, IsOfStep, NoneAmong};

use crate::judgement::Crossing;
use crate::passage::{Encounter, first_passage};
use bfm_base::{Dir, P3};
use bfm_geom::shifted;
use bond_set::BondSet;

/// The first crossing move of this bond.
pub(crate) fn first_of_bond(set: &BondSet, b: P3) -> Option<Crossing>
    requires bond { Contains (vectors_of set.now) b }
    requires reach { extent_of b ≤ 3 }
    ensures first { IfSome result (IsFirstAmong (IsOfBond b) set.now) }
    ensures none { IfNone result (NoneAmong (IsOfBond b) set.now) }
{
    for n in 0..6 {
        if let Some(first) = first_of_step(set, b, Dir::of(n)) {
            return Some(first);
        }
    }
    None
}

// The first of this step of its end, where the set allows the step.
fn first_of_step(set: &BondSet, b: P3, dir: Dir) -> Option<Crossing>
    requires bond { Contains (vectors_of set.now) b }
    requires reach { extent_of b ≤ 3 }
    ensures first { IfSome result (IsFirstAmong (IsOfStep b dir) set.now) }
    ensures none { IfNone result (NoneAmong (IsOfStep b dir) set.now) }
{
    if !set.may_step(b, dir) {
        return None;
    }
    let after = shifted(b, dir.step());
    for k in 0..set.len() {
        let pair = Encounter {
            before: b,
            after,
            other: set.vector(k),
        };
        if let Some(passage) = first_passage(&pair) {
            return Some(Crossing {
                b,
                dir,
                c: passage.start,
                e: pair.other,
                weights: passage.weights,
            });
        }
    }
    None
}

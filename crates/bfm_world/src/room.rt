ghost use Rattle.std.specs.Prelude.{◌≡◌, ◌+◌, ◌≤◌, Bool, true, false, slice_get, IfSome};
ghost use Rattle.bfm_geom.specs.Difference.{IsBox, IsWithin};
ghost use Rattle.bfm_geom.specs.Walls.{is_within_walls_along, is_within_walls};
ghost use Rattle.bfm_world.specs.Configuration.{is_clear, may_bond, may_reach, keeps_bonds, reach_of};

use bfm_base::limits::PLACE_REACH;
use bfm_base::{P3, Shape};
use bfm_geom::{overlap, plain_difference, wrap};
use bond_set::BondSet;

fn is_within_walls_along(periodic: bool, side: u16, coordinate: i64) -> bool
    ensures { result ≡ is_within_walls_along periodic side coordinate }
{
    periodic || (0 <= coordinate && coordinate <= i64::from(side) - 2)
}

/// Whether a monomer may stand at a place as far as the walls go: along each walled axis its
/// coordinate is from 0 to two below the side.
pub fn is_within_walls(shape: &Shape, p: P3) -> bool
    ensures { result ≡ is_within_walls shape.now p }
{
    let [x, y, z] = shape.sides;
    let [periodic_x, periodic_y, periodic_z] = shape.periodic;
    is_within_walls_along(periodic_x, x, p.x)
        && is_within_walls_along(periodic_y, y, p.y)
        && is_within_walls_along(periodic_z, z, p.z)
}

/// Whether a monomer at a place overlaps none at the other positions.
pub fn is_clear(shape: &Shape, others: &[P3], p: P3) -> bool
    requires shape { IsBox shape.now }
    requires others { reach_of others.now ≤ PLACE_REACH }
    requires place { IsWithin PLACE_REACH p }
    ensures { result ≡ is_clear shape.now others.now p }
{
    for other in others {
        if overlap(shape, *other, p) {
            return false;
        }
    }
    true
}

/// Whether a bond may run from one place to another: their wrapped difference is in the set.
pub fn may_bond(shape: &Shape, set: &BondSet, p: P3, q: P3) -> bool
    requires shape { IsBox shape.now }
    requires from { IsWithin PLACE_REACH p }
    requires to { IsWithin PLACE_REACH q }
    ensures { result ≡ may_bond shape.now set.now p q }
{
    set.id_of(wrap(shape, plain_difference(p, q))).is_some()
}

/// Whether a bond may run from a place to each of these monomers that has a position.
pub fn keeps_bonds(
    shape: &Shape,
    set: &BondSet,
    positions: &[P3],
    neighbours: &[u32],
    p: P3,
) -> bool
    requires shape { IsBox shape.now }
    requires positions { reach_of positions.now ≤ PLACE_REACH }
    requires place { IsWithin PLACE_REACH p }
    ensures { result ≡ keeps_bonds shape.now set.now positions.now neighbours.now p }
{
    for neighbour in neighbours {
        if !may_reach(shape, set, p, position_in(positions, *neighbour)) {
            return false;
        }
    }
    true
}

/// The position of a monomer, where it has one.
pub(crate) fn position_in(positions: &[P3], i: u32) -> Option<P3>
    ensures { result ≡ slice_get positions.now i }
{
    positions.get(i as usize).copied()
}

/// Whether a bond may run from a place to another, where there is another.
pub(crate) fn may_reach(shape: &Shape, set: &BondSet, p: P3, q: Option<P3>) -> bool
    requires shape { IsBox shape.now }
    requires from { IsWithin PLACE_REACH p }
    requires to { IfSome q (IsWithin PLACE_REACH) }
    ensures { result ≡ may_reach shape.now set.now p q }
{
    match q {
        Some(q) => may_bond(shape, set, p, q),
        None => true,
    }
}

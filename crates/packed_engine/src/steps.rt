ghost use Rattle.std.specs.Prelude.{◌≡◌, ◌<◌, length, pos, nat_abs, ◌-ℤ◌};
ghost use Rattle.bfm_geom.specs.Difference.{IsBox, IsSide, minus, wrapped, wrapped_along};
ghost use Rattle.bfm_base.specs.declared.place.Dir.{Dir};
ghost use Rattle.packed_lattice.specs.Sites.{IsSite};
ghost use Rattle.packed_engine.specs.Spots.{AreAllowed, ArePlaced, allows, may_step, place_in, site_in};

use crate::allowed::Allowed;
use crate::spots::{Spot, Spots};
use bfm_base::{P3, Shape};
use bfm_world::World;

/// All six directions.
const ALL_STEPS: u8 = 63;

/// The steps that a monomer may make as far as its own mark and its bonds go.
pub(crate) fn steps_of(world: &World, spots: &Spots, allowed: &Allowed, monomer: u32) -> u8
    requires monomer { monomer < length world.now.positions }
    requires allowed { AreAllowed world.now.set allowed.now }
    requires placed { ArePlaced world.now spots.now }
    ensures { (dir : Dir) → allows result dir ≡ may_step world.now monomer dir }
{
    prove!(monomer < world.len());
    if world.fixed(monomer) {
        return 0;
    }
    let shape = world.shape();
    let here = spots.at(monomer);
    let mut steps = ALL_STEPS;
    for neighbour in world.neighbours(monomer) {
        let there = spots.at(*neighbour);
        steps &= allowed.at(bond_vector(&shape, here, there));
    }
    steps
}

/// The vector of a bond from one spot to another.
fn bond_vector(shape: &Shape, here: Spot, there: Spot) -> P3
    requires shape { IsBox shape.now }
    requires here { IsSite shape.now (site_in here) }
    requires there { IsSite shape.now (site_in there) }
    ensures { result ≡ wrapped shape.now (minus (place_in there) (place_in here)) }
{
    let [x, y, z] = shape.sides;
    let [periodic_x, periodic_y, periodic_z] = shape.periodic;
    P3 {
        x: wrapped_along(periodic_x, x, here.x, there.x),
        y: wrapped_along(periodic_y, y, here.y, there.y),
        z: wrapped_along(periodic_z, z, here.z, there.z),
    }
}

/// The wrapped difference between two folded coordinates. Comparisons are cheaper than a remainder.
fn wrapped_along(periodic: bool, side: u16, from: u16, to: u16) -> i64
    requires side { IsSide side }
    requires from { from < side }
    requires to { to < side }
    ensures { result ≡ wrapped_along periodic side (pos to -ℤ pos from) }
{
    let side = i64::from(side);
    let plain = i64::from(to) - i64::from(from);
    if !periodic {
        plain
    } else if 2 * plain > side {
        plain - side
    } else if 2 * plain <= -side {
        plain + side
    } else {
        plain
    }
}

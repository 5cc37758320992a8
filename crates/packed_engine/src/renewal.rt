ghost use Rattle.std.specs.Prelude.{◌≡◌, ◌≢◌, ◌<◌, ◌≤◌, false, length, nat_abs, IfOk};
ghost use Rattle.bfm_base.specs.declared.limits.TheConstants.{WORLD_REACH};
ghost use Rattle.bfm_geom.specs.Difference.{IsSide};
ghost use Rattle.packed_lattice.specs.Sites.{folded};
ghost use Rattle.bfm_world.specs.Bonds.{are_bonded};
ghost use Rattle.bfm_world.specs.Configuration.{moved};
ghost use Rattle.packed_engine.specs.Spots.{AreAllowed, ArePlaced, AreSpots, AreSpotsOf, Renews};

use crate::allowed::Allowed;
use crate::spots::{Spot, Spots, stepped};
use crate::steps::steps_of;
use bfm_base::Dir;
use bfm_world::World;
use std::alloc::{AllocError, Global};

/// The spots of all monomers.
pub(crate) fn all_spots(
    alloc: Global,
    world: &World,
    allowed: &Allowed,
) -> Result<Spots, AllocError>
    requires { AreAllowed world.now.set allowed.now }
    ensures { IfOk result (AreSpots world.now) }
{
    let mut spots = placed(alloc, world)?;
    for i in 0..world.len() {
        renew(&mut spots, world, allowed, i);
    }
    Ok(spots)
}

/// Spots with the places of all monomers, which allow no step yet.
fn placed(alloc: Global, world: &World) -> Result<Spots, AllocError>
    ensures { IfOk result (ArePlaced world.now) }
{
    let [x, y, z] = world.shape().sides;
    let mut spots = Spots::new(alloc, world.len())?;
    for i in 0..world.len() {
        let p = world.position(i);
        let spot = Spot {
            x: folded(x, p.x),
            y: folded(y, p.y),
            z: folded(z, p.z),
            steps: 0,
        };
        spots.put(i, spot);
    }
    Ok(spots)
}

/// A coordinate folded into the box.
fn folded(side: u16, c: i64) -> u16
    requires side { IsSide side }
    requires reach { nat_abs c ≤ WORLD_REACH }
    ensures { result ≡ folded side c }
{
    c.rem_euclid(i64::from(side)) as u16
}

/// Makes the steps of a monomer anew.
pub(crate) fn renew(spots: &mut Spots, world: &World, allowed: &Allowed, monomer: u32)
    requires monomer { monomer < length world.now.positions }
    requires allowed { AreAllowed world.now.set allowed.now }
    requires placed { ArePlaced world.now spots.old }
    ensures { Renews world.now monomer spots.old spots.new }
{
    let steps = steps_of(world, spots, allowed, monomer);
    let spot = spots.at(monomer);
    spots.put(monomer, Spot { steps, ..spot });
}

/// Lets the place of a monomer follow a step that the world has not made yet. Its own steps and those of
/// its neighbours are to be made anew.
pub(crate) fn shift_spot(spots: &mut Spots, world: &World, monomer: u32, dir: Dir)
    requires monomer { monomer < length world.now.positions }
    requires spots { AreSpots world.now spots.old }
    ensures { AreSpotsOf (moved world.now monomer dir) (λ i. (i ≢ monomer) × (are_bonded world.now.bonds monomer i ≡ false)) spots.new }
{
    prove!(monomer < world.len());
    let spot = spots.at(monomer);
    spots.put(monomer, stepped(&world.shape(), spot, dir));
}

/// Makes the steps of a monomer that has moved anew, and those of each of its neighbours.
pub(crate) fn renew_beside(spots: &mut Spots, world: &World, allowed: &Allowed, monomer: u32)
    requires monomer { monomer < length world.now.positions }
    requires allowed { AreAllowed world.now.set allowed.now }
    requires spots { AreSpotsOf world.now (λ i. (i ≢ monomer) × (are_bonded world.now.bonds monomer i ≡ false)) spots.old }
    ensures { AreSpots world.now spots.new }
{
    prove!(monomer < world.len());
    renew(spots, world, allowed, monomer);
    for neighbour in world.neighbours(monomer) {
        renew(spots, world, allowed, *neighbour);
    }
}

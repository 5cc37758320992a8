ghost use Rattle.std.specs.Prelude.{◌≡◌, ℕ, ◌<◌, ◌≤◌, nat_abs, length, Some, IfSome, IfOk};
ghost use Rattle.bfm_base.specs.Place.{extent_of};
ghost use Rattle.bfm_base.specs.declared.limits.TheConstants.{WORLD_REACH};
ghost use Rattle.bfm_geom.specs.Difference.{IsSide};
ghost use Rattle.bfm_world.specs.Configuration.{position_of};
ghost use Rattle.bfm_world.specs.Sweeping.{IsImage, IsImageAlong};
ghost use Rattle.cluster_stats.specs.Places.{AreOwners, vector_to};

use bfm_base::P3;
use bfm_geom::shifted;
use bfm_world::World;
use packed_lattice::Owners;
use std::alloc::{AllocError, Global};

/// The monomers by their places.
pub(crate) fn owners_of(alloc: Global, world: &World) -> Result<Owners, AllocError>
    ensures { IfOk result (λ owners. AreOwners world.now (length world.now.positions) owners) }
{
    let mut owners = Owners::new(alloc, world.shape())?;
    for i in 0..world.len() {
        owners.set(world.position(i), Some(i));
    }
    Ok(owners)
}

/// The place of a monomer, folded into the box along periodic axes, so that looks beside it need no
/// division.
pub(crate) fn home_of(world: &World, i: u32) -> P3
    requires { i < length world.now.positions }
    ensures image { IsImage world.now.shape (position_of world.now i) result }
    ensures reach { extent_of result ≤ WORLD_REACH }
{
    let shape = world.shape();
    let p = world.position(i);
    P3 {
        x: fold_along(shape.periodic[0], shape.sides[0], p.x),
        y: fold_along(shape.periodic[1], shape.sides[1], p.y),
        z: fold_along(shape.periodic[2], shape.sides[2], p.z),
    }
}

fn fold_along(periodic: bool, side: u16, c: i64) -> i64
    requires side { IsSide side }
    requires reach { nat_abs c ≤ WORLD_REACH }
    ensures image { IsImageAlong periodic side c result }
    ensures reach { nat_abs result ≤ WORLD_REACH }
{
    if periodic {
        c.rem_euclid(i64::from(side))
    } else {
        c
    }
}

/// The monomer that stands at an offset from a monomer, where one does. The offset is at most 2
/// along each axis.
pub(crate) fn monomer_at(
    world: &World,
    owners: &Owners,
    i: u32,
    home: P3,
    offset: P3,
) -> Option<u32>
    requires monomer { i < length world.now.positions }
    requires owners { AreOwners world.now (length world.now.positions) owners.now }
    requires home { IsImage world.now.shape (position_of world.now i) home }
    requires reach { extent_of home ≤ WORLD_REACH }
    requires near { extent_of offset ≤ 2 }
    ensures there { IfSome result (λ j. (j < length world.now.positions) × (vector_to world.now i j ≡ offset)) }
    ensures all { (j : ℕ) → j < length world.now.positions → vector_to world.now i j ≡ offset → result ≡ Some j }
{
    prove!(i < world.len());
    owners.at(shifted(home, offset))
}

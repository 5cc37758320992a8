ghost use Rattle.std.specs.Prelude.{◌≡◌, ◌^◌, ◌<◌, true, IfOk};
ghost use Rattle.std.specs.Option.{ForSome};
ghost use Rattle.bfm_base.specs.declared.limits.TheConstants.{MOST_MONOMERS, PLACE_REACH};
ghost use Rattle.bfm_geom.specs.Difference.{IsBox, IsWithin};
ghost use Rattle.bfm_geom.specs.Walls.{is_within_walls};
ghost use Rattle.packed_lattice.specs.Owners.{IsUnowned, SetsOwner, owner_at, owner_kept_as};

use crate::site::{fold_place, is_inside, side};
use bfm_base::{P3, Shape};
use std::alloc::{AllocError, Global};
use std::marker::Model;

#[cfg(test)]
mod tests;

/// The owner of each place of a box, where it has one: a monomer by its number. Places that differ
/// by whole sides along periodic axes are one.
#[derive(Drop)]
pub struct Owners {
    shape: Shape,
    // 0 for no owner, else one more than the owner.
    kept: Vec<u32>,
}

impl Model for Owners {
    ghost use Rattle.std.specs.Prelude.{◌≡◌, map, length};
    ghost use Rattle.bfm_geom.specs.Difference.{IsBox};
    ghost use Rattle.packed_lattice.specs.Sites.{site_count};
    ghost use Rattle.packed_lattice.specs.Owners.{OwnedPlaces, owner_kept_as};

    ghost Value = { OwnedPlaces };

    ghost view = { λ a. record { shape = a.shape; owners = map owner_kept_as a.kept.items } };

    ghost invariant = { λ a. IsBox a.shape × (length a.kept.items ≡ site_count a.shape) };
}

// An owner as it is kept, and back.
fn keep(owner: Option<u32>) -> u32
    requires { ForSome owner (λ monomer. monomer < MOST_MONOMERS) }
    ensures { owner_kept_as result ≡ owner }
{
    owner.map_or(0, |monomer| monomer + 1)
}

fn restore(kept: u32) -> Option<u32>
    ensures { result ≡ owner_kept_as kept }
{
    kept.checked_sub(1)
}

impl Owners {
    /// A box in which no place has an owner.
    pub fn new(alloc: Global, shape: Shape) -> Result<Owners, AllocError>
        requires { IsBox shape }
        ensures shape { IfOk result (λ places. places.shape ≡ shape) }
        ensures none { IfOk result IsUnowned }
    {
        let kept = vec![in alloc; 0u32; side(&shape, 2) * side(&shape, 1) * side(&shape, 0)]?;
        Ok(Owners { shape, kept })
    }

    /// The owner of the place, or None where it has none or lies beyond a wall.
    pub fn at(&self, p: P3) -> Option<u32>
        requires { IsWithin PLACE_REACH p }
        ensures { result ≡ owner_at self.now p }
    {
        if !is_inside(&self.shape, p) {
            return None;
        }
        let site = fold_place(&self.shape, p);
        let number = (site.z * side(&self.shape, 1) + site.y) * side(&self.shape, 0) + site.x;
        restore(self.kept[number])
    }

    /// Gives the place this owner, or none.
    pub fn set(&mut self, p: P3, owner: Option<u32>)
        requires reach { IsWithin PLACE_REACH p }
        requires inside { is_within_walls self.old.shape p ≡ true }
        requires owner { ForSome owner (λ monomer. monomer < MOST_MONOMERS) }
        ensures { SetsOwner self.old self.new p owner }
    {
        let site = fold_place(&self.shape, p);
        let number = (site.z * side(&self.shape, 1) + site.y) * side(&self.shape, 0) + site.x;
        self.kept[number] = keep(owner);
    }
}

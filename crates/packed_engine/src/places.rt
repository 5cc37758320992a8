ghost use Rattle.std.specs.Prelude.{◌≡◌, ◌+◌, ◌<◌, ◌≤◌, ◌&&◌, true, length, remove, IfOk};
ghost use Rattle.bfm_geom.specs.Walls.{is_within_walls};
ghost use Rattle.bfm_world.specs.Configuration.{is_clear, is_legal, moved, target_of};
ghost use Rattle.bfm_world.specs.Draft.{IsFilled};
ghost use Rattle.packed_engine.specs.Spots.{site_in};
ghost use Rattle.packed_engine.specs.Tracking.{AreOwned, home_of};

use crate::spots::{Spot, place_in, stepped};
use bfm_base::{Dir, Steps};
use bfm_world::World;
use packed_lattice::{Lattice, Owners};
use std::alloc::{AllocError, Global};
use std::sync::ledger::Ledger;

/// The sites of the box, where those are taken that the monomers fill.
pub(crate) fn filled(alloc: Global, world: &World) -> Result<Lattice, AllocError>
    ensures { IfOk result (λ lattice. IsFilled world.now lattice) }
{
    let mut lattice = Lattice::new(alloc, world.shape())?;
    for i in 0..world.len() {
        lattice.place(world.position(i));
    }
    Ok(lattice)
}

/// The places of the box, each with the monomer that stands there as its owner.
pub(crate) fn owned(alloc: Global, world: &World) -> Result<Owners, AllocError>
    ensures { IfOk result (λ owners. AreOwned world.now (length world.now.positions) owners) }
{
    let mut owners = Owners::new(alloc, world.shape())?;
    for i in 0..world.len() {
        owners.set(world.position(i), Some(i));
    }
    Ok(owners)
}

/// Whether the walls and all other monomers leave room for a step.
pub(crate) fn has_room<L: Ledger>(
    lattice: &Lattice,
    world: &World,
    monomer: u32,
    spot: Spot,
    dir: Dir,
    steps: &mut Steps<L>,
) -> bool
    requires sites { IsFilled world.now lattice.now }
    requires monomer { monomer < length world.now.positions }
    requires spot { site_in spot ≡ home_of world.now monomer }
    ensures value { let target = target_of world.now monomer dir in
        result ≡ (is_within_walls world.now.shape target && is_clear world.now.shape (remove world.now.positions monomer) target) }
    ensures cost { steps.new ≤ steps.old + 4 }
{
    prove!(monomer < world.len());
    lattice.face_free(place_in(spot), dir, steps)
}

/// Lets the sites follow a legal step, which the world has not made yet.
pub(crate) fn shift_sites(lattice: &mut Lattice, world: &World, monomer: u32, spot: Spot, dir: Dir)
    requires sites { IsFilled world.now lattice.old }
    requires monomer { monomer < length world.now.positions }
    requires spot { site_in spot ≡ home_of world.now monomer }
    requires legal { is_legal world.now monomer dir ≡ true }
    ensures { IsFilled (moved world.now monomer dir) lattice.new }
{
    prove!(monomer < world.len());
    lattice.shift(place_in(spot), dir);
}

/// Lets the owners follow it.
pub(crate) fn shift_owner(owners: &mut Owners, world: &World, monomer: u32, spot: Spot, dir: Dir)
    requires owners { AreOwned world.now (length world.now.positions) owners.old }
    requires monomer { monomer < length world.now.positions }
    requires spot { site_in spot ≡ home_of world.now monomer }
    requires legal { is_legal world.now monomer dir ≡ true }
    ensures { let after = moved world.now monomer dir in AreOwned after (length after.positions) owners.new }
{
    prove!(monomer < world.len());
    let target = stepped(&world.shape(), spot, dir);
    owners.set(place_in(spot), None);
    owners.set(place_in(target), Some(monomer));
}

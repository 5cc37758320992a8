use crate::{MoleculeList, molecules};
use bfm_base::limits::WORLD_REACH;
use bfm_base::{P3, Shape};
use bfm_world::{World, WorldBuilder};
use bond_set::BondSet;
use contact_table::Table;
use std::alloc::{AllocError, Global};
use std::process::Abort;
use std::test::Fail;

// A periodic box of side 16 holds every start of these tests.
const BOX: Shape = Shape {
    sides: [16, 16, 16],
    periodic: [true, true, true],
};

const fn at(x: i64, y: i64, z: i64) -> P3 {
    P3 { x, y, z }
}

// The molecules of a world of monomers at these positions with these bonds.
fn molecules_of(
    rt: &impl Abort,
    alloc: Global,
    places: &[P3],
    bonds: &[(u32, u32)],
) -> Result<MoleculeList, AllocError> {
    let world = world_of(rt, alloc, places, bonds)?;
    molecules(alloc, &world)
}

fn world_of(
    rt: &impl Abort,
    alloc: Global,
    places: &[P3],
    bonds: &[(u32, u32)],
) -> Result<World, AllocError> {
    let set = BondSet::usual(alloc)?;
    assert!(rt; !places.is_empty() && places.len() <= 100);
    let mut builder = WorldBuilder::new(alloc, BOX, set, Table::new(), places.len() as u32)?;
    for p in places {
        assert!(rt; builder.placed() < builder.count() as usize && p.extent() <= WORLD_REACH);
        assert!(rt; builder.place(*p).is_ok());
    }
    for (i, j) in bonds {
        assert!(rt; builder.join(*i, *j) == Ok(true));
    }
    assert!(rt; builder.placed() == builder.count() as usize);
    Ok(builder.finish())
}

// These are the molecules, in this order.
fn expect(rt: &impl Abort, found: &MoleculeList, wanted: &[&[u32]]) {
    assert!(rt; found.count() == wanted.len());
    for (k, members) in wanted.iter().enumerate() {
        assert!(rt; k < found.count());
        assert!(rt; found.members(k) == *members);
    }
}

#[test]
fn a_chain_is_one_molecule(rt: HostRuntime) -> Result<(), Fail> {
    let places = [at(0, 0, 0), at(2, 0, 0), at(4, 0, 0), at(6, 0, 0)];
    let found = molecules_of(&rt, rt.alloc(), &places, &[(0, 1), (1, 2), (2, 3)])?;
    expect(&rt, &found, &[&[0, 1, 2, 3]]);
    Ok(())
}

#[test]
fn numbers_that_interleave_are_told_apart(rt: HostRuntime) -> Result<(), Fail> {
    // Two chains: 0 - 4 - 2 along x, and 3 - 1 - 5 above it.
    let places = [
        at(0, 0, 0),
        at(2, 4, 0),
        at(4, 0, 0),
        at(0, 4, 0),
        at(2, 0, 0),
        at(4, 4, 0),
    ];
    let found = molecules_of(&rt, rt.alloc(), &places, &[(0, 4), (4, 2), (3, 1), (1, 5)])?;
    expect(&rt, &found, &[&[0, 2, 4], &[1, 3, 5]]);
    Ok(())
}

#[test]
fn a_ring_and_its_neighbours_alone(rt: HostRuntime) -> Result<(), Fail> {
    // Monomers 1, 3, 4 and 5 make a square, 0 and 2 have no bonds.
    let places = [
        at(8, 8, 8),
        at(0, 0, 0),
        at(4, 0, 0),
        at(2, 0, 0),
        at(2, 2, 0),
        at(0, 2, 0),
    ];
    let found = molecules_of(&rt, rt.alloc(), &places, &[(1, 3), (3, 4), (4, 5), (5, 1)])?;
    expect(&rt, &found, &[&[0], &[1, 3, 4, 5], &[2]]);
    Ok(())
}

#[test]
fn a_star_is_one_molecule(rt: HostRuntime) -> Result<(), Fail> {
    // Its centre is the last of nine monomers.
    let places = [
        at(2, 0, 0),
        at(-2, 0, 0),
        at(0, 2, 0),
        at(0, -2, 0),
        at(0, 0, 2),
        at(0, 0, -2),
        at(2, 2, 1),
        at(-2, -2, 1),
        at(0, 0, 0),
    ];
    let arms = [
        (0, 8),
        (1, 8),
        (2, 8),
        (3, 8),
        (4, 8),
        (5, 8),
        (6, 8),
        (7, 8),
    ];
    let found = molecules_of(&rt, rt.alloc(), &places, &arms)?;
    expect(&rt, &found, &[&[0, 1, 2, 3, 4, 5, 6, 7, 8]]);
    Ok(())
}

#[test]
fn monomers_without_bonds_stand_alone(rt: HostRuntime) -> Result<(), Fail> {
    // The first two are near enough for a bond and have none.
    let places = [at(0, 0, 0), at(2, 0, 0), at(8, 0, 0)];
    let found = molecules_of(&rt, rt.alloc(), &places, &[])?;
    expect(&rt, &found, &[&[0], &[1], &[2]]);
    Ok(())
}

#[test]
fn a_bond_through_the_boundary_joins(rt: HostRuntime) -> Result<(), Fail> {
    let places = [at(0, 0, 0), at(8, 8, 8), at(14, 0, 0)];
    let found = molecules_of(&rt, rt.alloc(), &places, &[(2, 0)])?;
    expect(&rt, &found, &[&[0, 2], &[1]]);
    Ok(())
}

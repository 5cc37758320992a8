ghost use Rattle.bfm_geom.specs.Difference.{IsBox};

use crate::{clusters, contacts};
use bfm_base::limits::WORLD_REACH;
use bfm_base::{P3, Shape};
use bfm_world::{World, WorldBuilder};
use bond_set::BondSet;
use contact_table::Table;
use std::alloc::{AllocError, Global};
use std::process::Abort;
use std::test::Fail;

// The least box. Its boundaries are near everything.
const SMALL: Shape = Shape {
    sides: [8, 8, 8],
    periodic: [true, true, true],
};

const WIDE: Shape = Shape {
    sides: [16, 24, 40],
    periodic: [true, true, true],
};

// x is walled.
const WALLED: Shape = Shape {
    sides: [9, 8, 8],
    periodic: [false, true, true],
};

const fn at(x: i64, y: i64, z: i64) -> P3 {
    P3 { x, y, z }
}

// A world of monomers at these positions with these labels, as far as there are any, and bonds.
fn world_of(
    rt: &impl Abort,
    alloc: Global,
    shape: Shape,
    places: &[P3],
    labels: &[u32],
    bonds: &[(u32, u32)],
) -> Result<World, AllocError>
    requires { IsBox shape }
{
    let set = BondSet::usual(alloc)?;
    assert!(rt; !places.is_empty() && places.len() <= 100);
    let mut builder = WorldBuilder::new(alloc, shape, set, Table::new(), places.len() as u32)?;
    for p in places {
        assert!(rt; builder.placed() < builder.count() as usize && p.extent() <= WORLD_REACH);
        assert!(rt; builder.place(*p).is_ok());
    }
    for i in 0..builder.count() {
        let label = labels.get(i as usize).copied().unwrap_or(0);
        assert!(rt; i < builder.count() && label <= 20);
        builder.label(i, label);
    }
    for (i, j) in bonds {
        assert!(rt; builder.join(*i, *j) == Ok(true));
    }
    assert!(rt; builder.placed() == builder.count() as usize);
    Ok(builder.finish())
}

// So many pairs are in contact, and the clusters have these sizes.
fn expect(
    rt: &impl Abort,
    alloc: Global,
    world: &World,
    total: u64,
    sizes: &[(u32, u32)],
) -> Result<(), AllocError> {
    let counts = contacts(alloc, world)?;
    assert!(rt; counts.total() == total);
    let found = clusters(alloc, world)?;
    assert!(rt; found.rows() == sizes);
    Ok(())
}

// The same for monomers without labels and bonds.
fn expect_at(
    rt: &impl Abort,
    alloc: Global,
    shape: Shape,
    places: &[P3],
    total: u64,
    sizes: &[(u32, u32)],
) -> Result<(), AllocError>
    requires { IsBox shape }
{
    let world = world_of(rt, alloc, shape, places, &[], &[])?;
    expect(rt, alloc, &world, total, sizes)
}

#[test]
fn two_monomers_are_in_contact_where_the_squared_length_is_4_to_6(
    rt: HostRuntime,
) -> Result<(), Fail> {
    let near = [at(2, 0, 0), at(0, 2, 1), at(-1, 1, 2), at(-1, -2, 1)];
    for p in near {
        expect_at(&rt, rt.alloc(), WIDE, &[at(0, 0, 0), p], 1, &[(2, 1)])?;
    }
    // Squared 8, 9, 9, and 10.
    let far = [at(2, 2, 0), at(2, -2, 1), at(0, 0, 3), at(3, 1, 0)];
    for p in far {
        expect_at(&rt, rt.alloc(), WIDE, &[at(0, 0, 0), p], 0, &[(1, 2)])?;
    }
    Ok(())
}

#[test]
fn contacts_go_through_boundaries_and_not_through_walls(rt: HostRuntime) -> Result<(), Fail> {
    let corners = [at(0, 0, 0), at(7, 6, 7)];
    expect_at(&rt, rt.alloc(), SMALL, &corners, 1, &[(2, 1)])?;
    // The wrapped difference is (-1, 2, 1): coordinates are absolute, and many boxes apart.
    let apart = [at(-8000, 3, 1), at(7, 805, 802)];
    expect_at(&rt, rt.alloc(), SMALL, &apart, 1, &[(2, 1)])?;
    // 7 is next to the wall at 9. Along y the two are neighbours through the boundary.
    let across = [at(0, 0, 0), at(7, 0, 0), at(0, 6, 0)];
    expect_at(&rt, rt.alloc(), WALLED, &across, 1, &[(1, 1), (2, 1)])?;
    Ok(())
}

#[test]
fn rows_and_rings_and_monomers_alone(rt: HostRuntime) -> Result<(), Fail> {
    let row = [at(2, 0, 0), at(0, 0, 0), at(4, 0, 0)];
    expect_at(&rt, rt.alloc(), WIDE, &row, 2, &[(3, 1)])?;
    let line = [
        at(0, 5, 5),
        at(2, 5, 5),
        at(4, 5, 5),
        at(6, 5, 5),
        at(8, 5, 5),
    ];
    expect_at(&rt, rt.alloc(), WIDE, &line, 4, &[(5, 1)])?;
    // Four monomers 2 units apart around a box of side 8: each touches two others.
    let around = [at(0, 0, 0), at(4, 0, 0), at(2, 0, 0), at(6, 0, 0)];
    expect_at(&rt, rt.alloc(), SMALL, &around, 4, &[(4, 1)])?;
    // A square, whose diagonals have the squared length 8, and three monomers alone.
    let square = [
        at(10, 10, 10),
        at(0, 0, 0),
        at(2, 0, 0),
        at(10, 20, 10),
        at(2, 2, 0),
        at(0, 2, 0),
        at(10, 10, 30),
    ];
    expect_at(&rt, rt.alloc(), WIDE, &square, 4, &[(1, 3), (4, 1)])?;
    Ok(())
}

#[test]
fn sizes_ascend_and_bonds_say_nothing(rt: HostRuntime) -> Result<(), Fail> {
    // Three in a row, two, two and one. The bond of the first and the last has the length 3.
    let places = [
        at(0, 0, 0),
        at(2, 0, 0),
        at(4, 0, 0),
        at(0, 8, 0),
        at(0, 10, 0),
        at(0, 16, 0),
        at(0, 17, 2),
        at(0, 0, 3),
    ];
    let world = world_of(&rt, rt.alloc(), WIDE, &places, &[], &[(0, 7)])?;
    expect(&rt, rt.alloc(), &world, 4, &[(1, 1), (2, 2), (3, 1)])?;
    Ok(())
}

#[test]
fn classes_count_in_either_order(rt: HostRuntime) -> Result<(), Fail> {
    // In a row: classes 1, 2, 2, 1, 0 and, by a label above 15, 0 again.
    let row = [
        at(0, 0, 0),
        at(2, 0, 0),
        at(4, 0, 0),
        at(6, 0, 0),
        at(8, 0, 0),
        at(10, 0, 0),
    ];
    let world = world_of(&rt, rt.alloc(), WIDE, &row, &[1, 2, 2, 1, 0, 20], &[])?;
    let counts = contacts(rt.alloc(), &world)?;
    assert!(&rt; counts.count(1, 2) == 2 && counts.count(2, 1) == 2);
    assert!(&rt; counts.count(2, 2) == 1 && counts.count(1, 1) == 0);
    assert!(&rt; counts.count(0, 1) == 1 && counts.count(1, 0) == 1);
    assert!(&rt; counts.count(0, 0) == 1 && counts.count(15, 15) == 0);
    assert!(&rt; counts.total() == 5);
    Ok(())
}

#[test]
fn monomers_two_and_three_apart(rt: HostRuntime) -> Result<(), Fail> {
    let near = [at(0, 3, 0), at(0, 1, 0)];
    let world = world_of(&rt, rt.alloc(), SMALL, &near, &[1, 1], &[])?;
    expect(&rt, rt.alloc(), &world, 1, &[(2, 1)])?;
    let counts = contacts(rt.alloc(), &world)?;
    assert!(&rt; counts.count(1, 1) == 1);
    expect_at(
        &rt,
        rt.alloc(),
        SMALL,
        &[at(0, 3, 0), at(0, 0, 0)],
        0,
        &[(1, 2)],
    )?;
    // Two monomers with a bond of length 2.
    let bonded = [at(0, 0, 0), at(2, 0, 0)];
    let world = world_of(&rt, rt.alloc(), SMALL, &bonded, &[], &[(0, 1)])?;
    expect(&rt, rt.alloc(), &world, 1, &[(2, 1)])?;
    Ok(())
}

ghost use Rattle.std.specs.Prelude.{◌≡◌, ◌≤◌, length, IfOk};
ghost use Rattle.chain_stats.specs.Fractions.{AreMembers};

use crate::{Fraction, drift, end_square, mean_square, radius};
use bfm_base::limits::{MOST_MONOMERS, WORLD_REACH};
use bfm_base::{P3, Shape};
use bfm_world::{World, WorldBuilder};
use bond_set::BondSet;
use contact_table::Table;
use std::alloc::{AllocError, Global};
use std::process::Abort;
use std::test::Fail;

const fn at(x: i64, y: i64, z: i64) -> P3 {
    P3 { x, y, z }
}

// A world of monomers at these positions without bonds, in a periodic box of side 16.
fn world_of(rt: &impl Abort, alloc: Global, places: &[P3]) -> Result<World, AllocError>
    requires some { 1 ≤ length places.now }
    requires few { length places.now ≤ MOST_MONOMERS }
    ensures { IfOk result (λ world. length world.positions ≡ length places.now) }
{
    let shape = Shape {
        sides: [16, 16, 16],
        periodic: [true, true, true],
    };
    let set = BondSet::new(alloc);
    assert!(rt; set.finish().is_ok());
    let mut builder = WorldBuilder::new(alloc, shape, set, Table::new(), places.len() as u32)?;
    for p in places {
        assert!(rt; builder.placed() < builder.count() as usize && p.extent() <= WORLD_REACH);
        assert!(rt; builder.place(*p).is_ok());
    }
    assert!(rt; builder.placed() == builder.count() as usize);
    let world = builder.finish();
    assert!(rt; world.len() as usize == places.len());
    Ok(world)
}

fn over(top: u128, bottom: u128) -> Fraction {
    Fraction { top, bottom }
}

// These monomers of a world, at least one, each once.
fn members_of(
    rt: &impl Abort,
    alloc: Global,
    world: &World,
    numbers: &[u32],
) -> Result<Vec<u32>, AllocError>
    ensures { IfOk result (λ members. AreMembers world.now members.items) }
{
    let mut members: Vec<u32> = Vec::new(alloc);
    for i in numbers {
        assert!(rt; *i < world.len());
        assert!(rt; !members.contains(i));
        members.push(*i)?;
    }
    assert!(rt; !members.is_empty());
    Ok(members)
}

#[test]
fn a_straight_chain_has_the_figures_of_a_hand(rt: HostRuntime) -> Result<(), Fail> {
    // Along x from -3: 4 * (9 + 1 + 1 + 9) - 0^2 is 80.
    let chain = [at(-3, 0, 0), at(-1, 0, 0), at(1, 0, 0), at(3, 0, 0)];
    let world = world_of(&rt, rt.alloc(), &chain)?;
    let members = members_of(&rt, rt.alloc(), &world, &[0, 1, 2, 3])?;
    assert!(rt; radius(&world, &members) == over(80, 16));
    assert!(rt; end_square(&world, &members) == 36);
    Ok(())
}

#[test]
fn displacements_add_up(rt: HostRuntime) -> Result<(), Fail> {
    // By (1, 0, 0) and (0, -3, 0).
    let first = world_of(&rt, rt.alloc(), &[at(0, 0, 0), at(2, 0, 0)])?;
    let world = world_of(&rt, rt.alloc(), &[at(1, 0, 0), at(2, -3, 0)])?;
    let members = members_of(&rt, rt.alloc(), &world, &[0, 1])?;
    assert!(rt; drift(first.positions(), &world, &members) == over(10, 4));
    assert!(rt; mean_square(first.positions(), &world) == over(10, 2));
    Ok(())
}

#[test]
fn a_ring_ends_beside_its_beginning(rt: HostRuntime) -> Result<(), Fail> {
    // 4 * (0 + 4 + 8 + 4) - (4^2 + 4^2) is 32.
    let ring = [at(0, 0, 0), at(2, 0, 0), at(2, 2, 0), at(0, 2, 0)];
    let world = world_of(&rt, rt.alloc(), &ring)?;
    let members = members_of(&rt, rt.alloc(), &world, &[2, 0, 3, 1])?;
    assert!(rt; radius(&world, &members) == over(32, 16));
    assert!(rt; end_square(&world, &members) == 4);
    Ok(())
}

#[test]
fn one_monomer_has_no_size(rt: HostRuntime) -> Result<(), Fail> {
    let world = world_of(&rt, rt.alloc(), &[at(-5, 3, 700)])?;
    let members = members_of(&rt, rt.alloc(), &world, &[0])?;
    assert!(rt; radius(&world, &members) == over(0, 1));
    assert!(rt; end_square(&world, &members) == 0);
    Ok(())
}

#[test]
fn nothing_is_folded_through_a_boundary(rt: HostRuntime) -> Result<(), Fail> {
    // In the box of side 16 the two are 2 apart, and plainly 14: 2 * 196 - 196 is 196.
    let world = world_of(&rt, rt.alloc(), &[at(0, 0, 0), at(14, 0, 0)])?;
    let members = members_of(&rt, rt.alloc(), &world, &[0, 1])?;
    assert!(rt; radius(&world, &members) == over(196, 4));
    assert!(rt; end_square(&world, &members) == 196);
    Ok(())
}

#[test]
fn places_far_from_the_origin_are_exact(rt: HostRuntime) -> Result<(), Fail> {
    // 2^44 + 2^20, and 3 * d^2 with d = 2 * (2^44 + 2^20) - 4, the difference along each axis.
    const FAR: i64 = 17_592_187_092_992;
    const SQUARE: u128 = 3_713_820_560_577_167_362_885_681_200;
    let world = world_of(
        &rt,
        rt.alloc(),
        &[at(4 - FAR, 4 - FAR, 4 - FAR), at(FAR, FAR, FAR)],
    )?;
    let members = members_of(&rt, rt.alloc(), &world, &[0, 1])?;
    assert!(rt; radius(&world, &members) == over(SQUARE, 4));
    assert!(rt; end_square(&world, &members) == SQUARE);
    Ok(())
}

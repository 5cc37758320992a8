ghost use Rattle.std.specs.Prelude.{◌≡◌, ◌≤◌, length, unsigned_abs, IfOk};
ghost use Rattle.bfm_base.specs.declared.limits.TheConstants.{GREATEST_LABEL, GREATEST_THRESHOLD, GREATEST_WEIGHT};
ghost use Rattle.bond_set.specs.BondSet.{IsBondSet, IsSymmetric};
ghost use Rattle.bfm_world.specs.Configuration.{reach_of};

use crate::PlainEngine;
use bfm_base::{Dir, P3, Shape};
use bfm_world::{Engine, WorldBuilder, may_bond};
use bond_set::BondSet;
use contact_table::Table;
use std::alloc::{AllocError, Global};
use std::process::Abort;
use std::test::Fail;

#[test]
fn legal_steps_are_made_and_others_are_not(rt: HostRuntime) -> Result<(), Fail> {
    let shape = Shape {
        sides: [8, 8, 8],
        periodic: [true, true, false],
    };
    let set = BondSet::usual(rt.alloc())?;
    let mut builder = WorldBuilder::new(rt.alloc(), shape, set, Table::new(), 2)?;
    assert!(rt; builder.place(P3 { x: 0, y: 0, z: 0 }).is_ok());
    assert!(rt; builder.place(P3 { x: 0, y: 6, z: 0 }).is_ok());
    let mut engine = PlainEngine::new(builder.finish());
    // At (0, 7, 0) it would overlap the first one through the boundary, at z = -1 it would leave the
    // walls.
    assert!(rt; !engine.attempt(1, Dir::YUp, 0));
    assert!(rt; !engine.attempt(1, Dir::ZDown, 0));
    assert!(rt; engine.attempt(1, Dir::ZUp, 0));
    assert_eq!(rt; engine.world().position(1), P3 { x: 0, y: 6, z: 1 });
    assert_eq!(rt; engine.into_world().position(0), P3 { x: 0, y: 0, z: 0 });
    Ok(())
}

// Who stands at places of a box of side 8 whose z axis is walled, where monomers stand at (0, 0, 0)
// and (0, 6, 0).
#[rattlefmt::skip]
const PLACES: [([i64; 3], Option<u32>); 8] = [
    ([0, 0, 0], Some(0)),
    ([0, 6, 0], Some(1)),
    ([-8, 16, 0], Some(0)),
    ([8, -2, 0], Some(1)),
    ([0, 2, 0], None),
    ([0, 7, 0], None),
    ([0, 0, 8], None),
    ([1, 6, 0], None),
];

#[test]
fn places_whole_sides_apart_are_one_along_periodic_axes(rt: HostRuntime) -> Result<(), Fail> {
    let shape = Shape {
        sides: [8, 8, 8],
        periodic: [true, true, false],
    };
    let set = BondSet::usual(rt.alloc())?;
    let mut builder = WorldBuilder::new(rt.alloc(), shape, set, Table::new(), 2)?;
    assert!(rt; builder.place(P3 { x: 0, y: 0, z: 0 }).is_ok());
    assert!(rt; builder.place(P3 { x: 0, y: 6, z: 0 }).is_ok());
    let engine = PlainEngine::new(builder.finish());
    for ([x, y, z], monomer) in PLACES {
        let place = P3 { x, y, z };
        assert!(rt; place.extent() <= 16);
        assert!(rt; engine.at(place) == monomer, "at {place:?}");
    }
    Ok(())
}

#[test]
fn monomers_that_are_bonded_move_together(rt: HostRuntime) -> Result<(), Fail> {
    let shape = Shape {
        sides: [8, 8, 8],
        periodic: [true, true, false],
    };
    let set = BondSet::usual(rt.alloc())?;
    let mut builder = WorldBuilder::new(rt.alloc(), shape, set, Table::new(), 2)?;
    assert!(rt; builder.place(P3 { x: 0, y: 0, z: 0 }).is_ok());
    assert!(rt; builder.place(P3 { x: 0, y: 3, z: 0 }).is_ok());
    let mut engine = PlainEngine::new(builder.finish());
    let world = engine.world();
    assert_eq!(rt; world.len(), 2);
    assert!(rt;
        may_bond(
            &world.shape(),
            world.set(),
            world.position(0),
            world.position(1)
        )
    );
    assert!(rt; !world.bonded(0, 1));
    assert!(rt; world.neighbours(0).is_empty() && world.neighbours(1).is_empty());
    engine.bond(0, 1);
    assert!(rt; engine.world().bonded(1, 0));
    // A bond of four units along y is in no set.
    assert!(rt; !engine.attempt(1, Dir::YUp, 0));
    assert!(rt; engine.attempt(1, Dir::YDown, 0));
    Ok(())
}

#[test]
fn a_fixed_monomer_never_moves(rt: HostRuntime) -> Result<(), Fail> {
    let shape = Shape {
        sides: [8, 8, 8],
        periodic: [true, true, true],
    };
    let set = BondSet::usual(rt.alloc())?;
    let mut builder = WorldBuilder::new(rt.alloc(), shape, set, Table::new(), 2)?;
    builder.fix(1);
    assert!(rt; builder.place(P3 { x: 0, y: 0, z: 0 }).is_ok());
    assert!(rt; builder.place(P3 { x: 4, y: 4, z: 4 }).is_ok());
    let mut engine = PlainEngine::new(builder.finish());
    assert!(rt; !engine.attempt(1, Dir::XUp, 0));
    assert!(rt; !engine.attempt(1, Dir::ZDown, 0));
    assert!(rt; engine.attempt(0, Dir::XUp, 0));
    assert_eq!(rt; engine.world().position(0), P3 { x: 1, y: 0, z: 0 });
    assert_eq!(rt; engine.into_world().position(1), P3 { x: 4, y: 4, z: 4 });
    Ok(())
}

// An engine over two bonded monomers at (0, 0, 0) and (2, 0, 0).
fn paired(rt: &impl Abort, alloc: Global, set: BondSet) -> Result<PlainEngine, AllocError>
    requires set { IsBondSet set }
    requires finished { IsSymmetric set }
    ensures count { IfOk result (λ engine. length engine.positions ≡ 2) }
    ensures reach { IfOk result (λ engine. reach_of engine.positions ≤ 2) }
{
    let shape = Shape {
        sides: [8, 8, 8],
        periodic: [true, true, true],
    };
    let mut builder = WorldBuilder::new(alloc, shape, set, Table::new(), 2)?;
    assert!(rt; builder.join(0, 1) == Ok(true));
    assert!(rt; builder.place(P3 { x: 0, y: 0, z: 0 }).is_ok());
    assert!(rt; builder.place(P3 { x: 2, y: 0, z: 0 }).is_ok());
    let world = builder.finish();
    assert_eq!(rt; world.len(), 2);
    assert_eq!(rt; world.reach(), 2);
    Ok(PlainEngine::new(world))
}

#[test]
fn a_step_keeps_a_vector_of_the_set_for_each_bond(rt: HostRuntime) -> Result<(), Fail> {
    let mut set = BondSet::new(rt.alloc());
    set.add(P3 { x: 2, y: 0, z: 0 }, 32)?;
    set.add(P3 { x: -2, y: 0, z: 0 }, 33)?;
    assert!(rt; set.finish().is_ok());
    let mut engine = paired(&rt, rt.alloc(), set)?;
    assert!(rt; !engine.attempt(1, Dir::YUp, 0));
    assert_eq!(rt; engine.world().position(1), P3 { x: 2, y: 0, z: 0 });
    Ok(())
}

#[test]
fn a_bond_stretches_as_far_as_the_set_goes(rt: HostRuntime) -> Result<(), Fail> {
    let set = BondSet::usual(rt.alloc())?;
    let mut engine = paired(&rt, rt.alloc(), set)?;
    assert!(rt; engine.attempt(1, Dir::XUp, 0));
    assert_eq!(rt; engine.world().len(), 2);
    assert_eq!(rt; engine.world().reach(), 3);
    assert!(rt; !engine.attempt(1, Dir::XUp, 0));
    assert!(rt; engine.world().len() == 2);
    assert_eq!(rt; engine.world().position(1), P3 { x: 3, y: 0, z: 0 });
    Ok(())
}

// The set is not free. Seen along z the bonds of the first two and of the last two monomers lie across each other, and
// the step takes the one through the other: both pass (1, 1, 0).
#[test]
fn a_step_takes_a_bond_through_another_where_the_set_allows_it(
    rt: HostRuntime,
) -> Result<(), Fail> {
    let mut set = BondSet::new(rt.alloc());
    set.add(P3 { x: 2, y: 2, z: 0 }, 17)?;
    set.add(P3 { x: -2, y: -2, z: 0 }, 18)?;
    set.add(P3 { x: 2, y: 2, z: 1 }, 19)?;
    set.add(
        P3 {
            x: -2,
            y: -2,
            z: -1,
        },
        20,
    )?;
    set.add(P3 { x: 2, y: -2, z: 0 }, 21)?;
    set.add(P3 { x: -2, y: 2, z: 0 }, 22)?;
    assert!(rt; set.finish().is_ok());
    let shape = Shape {
        sides: [16, 16, 16],
        periodic: [true, true, true],
    };
    let mut builder = WorldBuilder::new(rt.alloc(), shape, set, Table::new(), 4)?;
    assert!(rt; builder.join(0, 1) == Ok(true));
    assert!(rt; builder.join(2, 3) == Ok(true));
    assert!(rt; builder.place(P3 { x: 0, y: 0, z: 0 }).is_ok());
    assert!(rt; builder.place(P3 { x: 2, y: 2, z: 0 }).is_ok());
    assert!(rt; builder.placed() < builder.count() as usize);
    assert!(rt; builder.place(P3 { x: 0, y: 2, z: 0 }).is_ok());
    assert!(rt; builder.placed() < builder.count() as usize);
    assert!(rt; builder.place(P3 { x: 2, y: 0, z: 0 }).is_ok());
    assert!(rt; builder.placed() == builder.count() as usize);
    let world = builder.finish();
    assert_eq!(rt; world.len(), 4);
    assert_eq!(rt; world.reach(), 2);
    let mut engine = PlainEngine::new(world);
    assert!(rt; engine.attempt(1, Dir::ZUp, 0));
    assert_eq!(rt; engine.world().position(1), P3 { x: 2, y: 2, z: 1 });
    Ok(())
}

// A table in which a contact of classes 1 and 1 and one of 1 and 2 have a weight each, with the
// threshold of 1 alone.
fn weighing(same: i32, mixed: i32, threshold: u64) -> Table
    requires same { unsigned_abs same ≤ GREATEST_WEIGHT }
    requires mixed { unsigned_abs mixed ≤ GREATEST_WEIGHT }
    requires threshold { threshold ≤ GREATEST_THRESHOLD }
{
    let mut table = Table::new();
    table.set_weight(1, 1, same);
    table.set_weight(1, 2, mixed);
    table.push_threshold(threshold);
    table
}

// An engine over two monomers with these labels at (0, 3, 0) and (0, 0, 0). They are not in contact,
// and a step YUp of the second, to (0, 1, 0), brings them to the squared distance 4.
fn labelled(
    rt: &impl Abort,
    alloc: Global,
    table: Table,
    first: u32,
    second: u32,
) -> Result<PlainEngine, AllocError>
    requires first { first ≤ GREATEST_LABEL }
    requires second { second ≤ GREATEST_LABEL }
    ensures count { IfOk result (λ engine. length engine.positions ≡ 2) }
    ensures reach { IfOk result (λ engine. reach_of engine.positions ≤ 3) }
{
    let shape = Shape {
        sides: [8, 8, 8],
        periodic: [true, true, true],
    };
    let set = BondSet::usual(alloc)?;
    let mut builder = WorldBuilder::new(alloc, shape, set, table, 2)?;
    builder.label(0, first);
    builder.label(1, second);
    assert!(rt; builder.place(P3 { x: 0, y: 3, z: 0 }).is_ok());
    assert!(rt; builder.place(P3 { x: 0, y: 0, z: 0 }).is_ok());
    assert!(rt; builder.placed() == builder.count() as usize);
    let world = builder.finish();
    assert_eq!(rt; world.len(), 2);
    assert_eq!(rt; world.reach(), 3);
    Ok(PlainEngine::new(world))
}

#[test]
fn a_step_into_a_contact_is_made_where_the_word_is_below_the_threshold(
    rt: HostRuntime,
) -> Result<(), Fail> {
    let mut engine = labelled(&rt, rt.alloc(), weighing(1, 0, 1_000), 1, 1)?;
    assert!(rt; !engine.attempt(1, Dir::YUp, 1_000));
    assert_eq!(rt; engine.world().position(1), P3 { x: 0, y: 0, z: 0 });
    assert!(rt; engine.attempt(1, Dir::YUp, 999));
    assert_eq!(rt; engine.world().position(1), P3 { x: 0, y: 1, z: 0 });
    Ok(())
}

// At (0, 1, 0), (0, 1, 1) and (1, 1, 1) the squared distance is 4, 5 and 6, so no step changes the sum;
// at (2, 1, 1) it is 9, and the sum falls.
#[test]
fn a_step_that_does_not_raise_the_sum_is_always_accepted(rt: HostRuntime) -> Result<(), Fail> {
    let mut engine = labelled(&rt, rt.alloc(), weighing(1, 0, 1), 1, 1)?;
    assert!(rt; engine.attempt(1, Dir::YUp, 0));
    for dir in [Dir::ZUp, Dir::XUp, Dir::XUp] {
        assert_eq!(rt; engine.world().len(), 2);
        assert_eq!(rt; engine.world().reach(), 3);
        assert!(rt; engine.attempt(1, dir, u32::MAX));
    }
    assert!(rt; engine.world().len() == 2);
    assert_eq!(rt; engine.world().position(1), P3 { x: 2, y: 1, z: 1 });
    Ok(())
}

#[test]
fn a_change_above_the_last_threshold_is_never_accepted(rt: HostRuntime) -> Result<(), Fail> {
    let mut once = labelled(&rt, rt.alloc(), weighing(1, 0, 4_294_967_296), 1, 1)?;
    assert!(rt; once.attempt(1, Dir::YUp, u32::MAX));
    let mut twice = labelled(&rt, rt.alloc(), weighing(2, 0, 4_294_967_296), 1, 1)?;
    assert!(rt; !twice.attempt(1, Dir::YUp, 0));
    Ok(())
}

#[test]
fn a_contact_that_attracts_is_gained_always_and_left_by_the_threshold(
    rt: HostRuntime,
) -> Result<(), Fail> {
    let mut engine = labelled(&rt, rt.alloc(), weighing(-1, 0, 1_000), 1, 1)?;
    assert!(rt; engine.attempt(1, Dir::YUp, u32::MAX));
    assert_eq!(rt; engine.world().len(), 2);
    assert_eq!(rt; engine.world().reach(), 3);
    assert!(rt; !engine.attempt(1, Dir::YDown, 1_000));
    assert!(rt; engine.attempt(1, Dir::YDown, 999));
    Ok(())
}

// Only the pair of classes 1 and 2 weighs anything here.
#[test]
fn a_contact_weighs_what_its_two_classes_say(rt: HostRuntime) -> Result<(), Fail> {
    for (first, second) in [(1, 2), (2, 1)] {
        let mut mixed = labelled(&rt, rt.alloc(), weighing(0, 1, 0), first, second)?;
        assert!(rt; !mixed.attempt(1, Dir::YUp, 0));
    }
    for (first, second) in [(1, 1), (2, 2), (0, 2), (1, 0), (1, 16)] {
        let mut free = labelled(&rt, rt.alloc(), weighing(0, 1, 0), first, second)?;
        assert!(rt; free.attempt(1, Dir::YUp, u32::MAX));
    }
    Ok(())
}

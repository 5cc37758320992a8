use crate::PackedEngine;
use bfm_base::limits::WORLD_REACH;
use bfm_base::{Dir, P3, Shape};
use bfm_world::{Engine, WorldBuilder, may_bond};
use bond_set::BondSet;
use contact_table::Table;
use std::alloc::Global;
use std::process::Abort;
use std::test::Fail;

// y is walled.
const SHAPE: Shape = Shape {
    sides: [8, 12, 16],
    periodic: [true, false, true],
};

const fn at(x: i64, y: i64, z: i64) -> P3 {
    P3 { x, y, z }
}

// Gives the monomers of a builder without any these positions.
fn place_all(rt: &impl Abort, builder: &mut WorldBuilder, places: &[P3]) {
    for p in places {
        assert!(rt; builder.placed() < builder.count() as usize && p.extent() <= WORLD_REACH);
        assert!(rt; builder.place(*p).is_ok());
    }
}

// An attempt, where there is such a monomer and none is as far out as it may be.
fn attempted(
    rt: &impl Abort,
    engine: &mut PackedEngine,
    monomer: u32,
    dir: Dir,
    word: u32,
) -> bool {
    let world = engine.world();
    assert!(rt; monomer < world.len() && world.reach() < WORLD_REACH as i64);
    engine.attempt(monomer, dir, word)
}

// Who stands at a place that is not far.
fn standing(rt: &impl Abort, engine: &PackedEngine, place: P3) -> Option<u32> {
    assert!(rt; place.extent() <= 64);
    engine.at(place)
}

// Steps in their order, and whether they are made. Monomers 0 and 1 begin at (0, 4, 0) and (6, 4, 0)
// and are bonded. 2 begins at the wall, at (3, 10, 8), and 3 is fixed.
#[rattlefmt::skip]
const STEPS: [(u32, Dir, bool); 11] = [
    // Through the boundary 0 stands at (8, 4, 0) too.
    (1, Dir::XUp, false),
    (1, Dir::XDown, true),
    // A bond of four units along x is in no set.
    (1, Dir::XDown, false),
    (0, Dir::XDown, true),
    (0, Dir::XDown, false),
    (1, Dir::XDown, true),
    (2, Dir::YUp, false),
    (2, Dir::YDown, true),
    (2, Dir::YUp, true),
    (3, Dir::YUp, false),
    (3, Dir::ZDown, false),
];

#[test]
fn legal_steps_are_made_and_others_refused(rt: HostRuntime) -> Result<(), Fail> {
    let set = BondSet::usual(rt.alloc())?;
    let mut builder = WorldBuilder::new(rt.alloc(), SHAPE, set, Table::new(), 4)?;
    builder.fix(3);
    assert!(rt; builder.join(0, 1) == Ok(true));
    place_all(
        &rt,
        &mut builder,
        &[at(0, 4, 0), at(6, 4, 0), at(3, 10, 8), at(3, 0, 8)],
    );
    assert!(rt; builder.placed() == builder.count() as usize);
    let Ok(mut engine) = PackedEngine::new(rt.alloc(), builder.finish()) else {
        return Err(Fail::from("want of memory"));
    };
    for (monomer, dir, made) in STEPS {
        assert!(rt;
            attempted(&rt, &mut engine, monomer, dir, 0) == made,
            "{monomer} {dir:?}"
        );
    }
    let ends = [at(-1, 4, 0), at(4, 4, 0), at(3, 10, 8), at(3, 0, 8)];
    assert!(rt; engine.world().positions() == ends.as_slice());
    Ok(())
}

// An engine over two monomers with these labels at these places.
fn paired(
    rt: &impl Abort,
    alloc: Global,
    table: Table,
    labels: [u32; 2],
    places: [P3; 2],
) -> Result<PackedEngine, Fail> {
    let set = BondSet::usual(alloc)?;
    let mut builder = WorldBuilder::new(alloc, SHAPE, set, table, 2)?;
    assert!(rt; labels[0] <= 20);
    builder.label(0, labels[0]);
    assert!(rt; labels[1] <= 20);
    builder.label(1, labels[1]);
    place_all(rt, &mut builder, &places);
    assert!(rt; builder.placed() == builder.count() as usize);
    match PackedEngine::new(alloc, builder.finish()) {
        Ok(engine) => Ok(engine),
        Err(_) => Err(Fail::from("want of memory")),
    }
}

// Bonds the two monomers of an engine that have no bond yet.
fn bond_both(rt: &impl Abort, engine: &mut PackedEngine) {
    let world = engine.world();
    assert!(rt; world.len() == 2);
    let from = world.position(0);
    assert!(rt; may_bond(&world.shape(), world.set(), from, world.position(1)));
    assert!(rt; !world.bonded(0, 1));
    assert!(rt; world.neighbours(0).is_empty());
    assert!(rt; world.neighbours(1).is_empty());
    engine.bond(0, 1);
}

// 2^40, a multiple of the side along z.
const FAR: i64 = 1_099_511_627_776;

// The label of the second monomer and the word of its step, and whether it is made. Only a contact of
// classes 1 and 2 weighs anything.
#[rattlefmt::skip]
const WORDS: [(u32, u32, bool); 5] = [
    (2, 699, true),
    (2, 700, false),
    (1, u32::MAX, true),
    (0, u32::MAX, true),
    (16, u32::MAX, true),
];

// The step leads from the squared distance 9 to 4, through the boundary.
#[test]
fn a_step_into_a_contact_far_out_is_made_below_the_threshold(rt: HostRuntime) -> Result<(), Fail> {
    let places = [at(0, 3, 0), at(0, 3, FAR - 3)];
    for (label, word, made) in WORDS {
        let mut table = Table::new();
        table.set_weight(1, 2, 1);
        assert!(rt; table.push_threshold(700));
        let mut engine = paired(&rt, rt.alloc(), table, [1, label], places)?;
        assert!(rt;
            attempted(&rt, &mut engine, 1, Dir::ZUp, word) == made,
            "{label} {word}"
        );
        let z = if made { -2 } else { -3 };
        assert!(rt;
            standing(&rt, &engine, at(8, 3, z)) == Some(1),
            "{label} {word}"
        );
    }
    Ok(())
}

// Who stands at places where monomers stand at (1, 0, 5) and (4, 0, 5).
#[rattlefmt::skip]
const PLACES: [(i64, i64, i64, Option<u32>); 8] = [
    (1, 0, 5, Some(0)),
    (-7, 0, 21, Some(0)),
    (9, 0, -11, Some(0)),
    (12, 0, 5, Some(1)),
    (2, 0, 5, None),
    (1, 0, 6, None),
    // Nobody stands beyond a wall.
    (1, 12, 5, None),
    (1, -12, 5, None),
];

#[test]
fn an_engine_knows_who_stands_where_and_keeps_bonds(rt: HostRuntime) -> Result<(), Fail> {
    let places = [at(1, 0, 5), at(4, 0, 5)];
    let mut engine = paired(&rt, rt.alloc(), Table::new(), [0, 0], places)?;
    for (x, y, z, monomer) in PLACES {
        assert!(rt;
            standing(&rt, &engine, at(x, y, z)) == monomer,
            "at {x} {y} {z}"
        );
    }
    bond_both(&rt, &mut engine);
    assert!(rt; !attempted(&rt, &mut engine, 1, Dir::XUp, 0));
    assert!(rt; attempted(&rt, &mut engine, 1, Dir::YUp, 0));
    assert!(rt; standing(&rt, &engine, at(4, 0, 5)).is_none());
    assert!(rt; standing(&rt, &engine, at(4, 1, 5)) == Some(1));
    let world = engine.into_world();
    assert!(rt; world.len() == 2 && world.bonded(1, 0));
    Ok(())
}

// Steps of two monomers in their order, and whether they are made. They are bonded and begin at
// (2, 4, 5) and (5, 4, 5). The usual set has (3, 0, 0) and (3, 1, 0), but neither (4, 0, 0) nor
// (3, 2, 0).
#[rattlefmt::skip]
const FOLLOWING: [(u32, Dir, bool); 9] = [
    (1, Dir::XUp, false),
    // A step of the neighbour allows it,
    (0, Dir::XUp, true),
    (1, Dir::XUp, true),
    (1, Dir::XUp, false),
    (1, Dir::YDown, true),
    // and another forbids one that was allowed, here to (3, -2, 0).
    (0, Dir::YUp, false),
    (0, Dir::YDown, true),
    (1, Dir::YDown, true),
    (0, Dir::YUp, false),
];

#[test]
fn a_step_of_a_neighbour_allows_and_forbids_steps(rt: HostRuntime) -> Result<(), Fail> {
    let places = [at(2, 4, 5), at(5, 4, 5)];
    let mut engine = paired(&rt, rt.alloc(), Table::new(), [0, 0], places)?;
    bond_both(&rt, &mut engine);
    for (monomer, dir, made) in FOLLOWING {
        assert!(rt;
            attempted(&rt, &mut engine, monomer, dir, 0) == made,
            "{monomer} {dir:?}"
        );
    }
    let ends = [at(3, 3, 5), at(6, 2, 5)];
    assert!(rt; engine.world().positions() == ends.as_slice());
    Ok(())
}

// Steps away from a bond that is made after them, and back.
#[rattlefmt::skip]
const APART: [(u32, Dir, Dir); 2] = [
    (0, Dir::XDown, Dir::XUp),
    (1, Dir::XUp, Dir::XDown),
];

#[test]
fn a_bond_forbids_steps_of_both_its_monomers(rt: HostRuntime) -> Result<(), Fail> {
    let places = [at(2, 4, 5), at(5, 4, 5)];
    let mut engine = paired(&rt, rt.alloc(), Table::new(), [0, 0], places)?;
    for (monomer, dir, back) in APART {
        assert!(rt; attempted(&rt, &mut engine, monomer, dir, 0), "{monomer}");
        assert!(rt; attempted(&rt, &mut engine, monomer, back, 0), "{monomer}");
    }
    bond_both(&rt, &mut engine);
    for (monomer, dir, back) in APART {
        assert!(rt; !attempted(&rt, &mut engine, monomer, dir, 0), "{monomer}");
        assert!(rt; attempted(&rt, &mut engine, monomer, back, 0), "{monomer}");
        assert!(rt; attempted(&rt, &mut engine, monomer, dir, 0), "{monomer}");
    }
    Ok(())
}

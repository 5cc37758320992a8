ghost use Rattle.std.specs.Prelude.{◌≡◌, ◌≤◌, [], IfOk};

use crate::{WorldBuilder, may_bond};
use bfm_base::limits::MOST_MONOMERS;
use bfm_base::{Cause, Dir, P3, Shape};
use bond_set::BondSet;
use contact_table::Table;
use std::alloc::{AllocError, Global};
use std::process::Abort;
use std::test::Fail;

// A box of side 8 whose y axis is walled.
const BOX: Shape = Shape {
    sides: [8, 8, 8],
    periodic: [true, false, true],
};

fn at(place: [i64; 3]) -> P3 {
    let [x, y, z] = place;
    P3 { x, y, z }
}

// Begins a world of `n` monomers in that box, with the usual set.
fn begun(alloc: Global, n: u32) -> Result<WorldBuilder, AllocError>
    requires some { 1 ≤ n }
    requires few { n ≤ MOST_MONOMERS }
    ensures count { IfOk result (λ builder. builder.count ≡ n) }
    ensures empty { IfOk result (λ builder. builder.world.positions ≡ []) }
{
    let set = BondSet::usual(alloc)?;
    WorldBuilder::new(alloc, BOX, set, Table::new(), n)
}

#[test]
fn places_are_refused_beyond_walls_and_where_monomers_overlap(rt: HostRuntime) -> Result<(), Fail> {
    let set = BondSet::new(rt.alloc());
    assert!(rt; set.finish().is_ok());
    let mut builder = WorldBuilder::new(rt.alloc(), BOX, set, Table::new(), 3)?;
    assert!(rt; builder.place(P3 { x: 0, y: 3, z: 0 }).is_ok());
    // Through the boundary: 7 and 0 differ by 1 around a side of 8.
    let overlap = builder.place(P3 { x: 7, y: 4, z: -16 });
    assert!(rt; overlap == Err(Cause::Overlap));
    // A monomer fills y and y + 1, so 6 is the last place along a walled side of 8.
    let outside = builder.place(P3 { x: 4, y: 7, z: 0 });
    assert!(rt; outside == Err(Cause::Outside));
    assert!(rt; builder.place(P3 { x: 4, y: 6, z: 0 }).is_ok());
    Ok(())
}

#[test]
fn a_draft_that_begins_again_keeps_all_but_positions(rt: HostRuntime) -> Result<(), Fail> {
    let mut builder = begun(rt.alloc(), 2)?;
    assert!(rt; builder.join(0, 1) == Ok(true));
    assert!(rt; builder.place(P3 { x: 0, y: 3, z: 0 }).is_ok());
    assert!(rt; builder.place(P3 { x: 2, y: 3, z: 0 }).is_ok());
    builder.begin();
    assert!(rt; builder.positions().is_empty());
    assert!(rt; builder.count() == 2 && builder.bonded(0, 1));
    // Where the first monomer stood there is room again, and the bond asks for what it asked before.
    assert!(rt; builder.place(P3 { x: 1, y: 3, z: 0 }).is_ok());
    assert!(rt; builder.place(P3 { x: 5, y: 3, z: 0 }) == Err(Cause::BadBond));
    assert!(rt; builder.count() == 2 && builder.placed() == 1);
    assert!(rt; builder.place(P3 { x: 4, y: 3, z: 0 }).is_ok());
    assert!(rt;
        builder.positions() == [P3 { x: 1, y: 3, z: 0 }, P3 { x: 4, y: 3, z: 0 }].as_slice()
    );
    Ok(())
}

// What placing a monomer that is bonded to one at (0, 6, 0) answers: the least cause, which in most
// rows is not the only one. A difference is wrapped along x and z alone.
#[rattlefmt::skip]
const PLACES: [([i64; 3], Result<(), Cause>); 10] = [
    ([0, 7, 0], Err(Cause::Outside)),
    ([0, -1, 0], Err(Cause::Outside)),
    ([1, 6, -1], Err(Cause::Overlap)),
    ([9, 5, 0], Err(Cause::Overlap)),
    ([4, 6, 0], Err(Cause::BadBond)),
    ([2, 4, 0], Err(Cause::BadBond)),
    ([0, 0, 0], Err(Cause::BadBond)),
    ([0, 4, 0], Ok(())),
    ([6, 6, 0], Ok(())),
    ([-3, 5, 16], Ok(())),
];

#[test]
fn a_place_has_a_vector_of_the_set_for_each_bond(rt: HostRuntime) -> Result<(), Fail> {
    for (place, answer) in PLACES {
        let mut builder = begun(rt.alloc(), 2)?;
        assert!(rt; builder.join(0, 1) == Ok(true));
        assert!(rt; builder.place(P3 { x: 0, y: 6, z: 0 }).is_ok());
        let p = at(place);
        assert!(rt; p.extent() <= 16);
        assert!(rt; builder.place(p) == answer, "at {p:?}");
    }
    Ok(())
}

// What joining two of ten monomers answers, where none is placed, and 0 and 1 are bonded to each
// other and to each of 2 to 8.
#[rattlefmt::skip]
const JOINED: [(u32, u32, Result<bool, Cause>); 10] = [
    (0, 0, Err(Cause::BadMonomer)),
    (0, 10, Err(Cause::BadMonomer)),
    (10, 9, Err(Cause::BadMonomer)),
    (10, 10, Err(Cause::BadMonomer)),
    (0, 1, Ok(false)),
    (1, 0, Ok(false)),
    (8, 1, Ok(false)),
    (0, 9, Err(Cause::TooManyBonds)),
    (9, 1, Err(Cause::TooManyBonds)),
    (9, 8, Ok(true)),
];

#[test]
fn a_monomer_takes_eight_bonds(rt: HostRuntime) -> Result<(), Fail> {
    let mut builder = begun(rt.alloc(), 10)?;
    for j in 1..=8 {
        assert!(rt; builder.join(0, j) == Ok(true));
    }
    for j in 2..=8 {
        assert!(rt; builder.join(1, j) == Ok(true));
    }
    for (i, j, answer) in JOINED {
        assert!(rt; builder.join(i, j) == answer, "at {i} and {j}");
    }
    assert!(rt; builder.count() == 10);
    assert!(rt; builder.bonded(8, 9) && builder.bonded(9, 8) && !builder.bonded(0, 9));
    assert!(rt; builder.neighbours(8) == [0, 1, 9].as_slice());
    Ok(())
}

// What joining two of twelve monomers answers, where 0 to 3 are placed at (0, 0, 0), (4, 0, 0),
// (0, 6, 0) and (10, 0, 0), and 0 is bonded to each of 4 to 11.
#[rattlefmt::skip]
const JOINED_IN_PLACE: [(u32, u32, Result<bool, Cause>); 9] = [
    (0, 1, Err(Cause::BadBond)),
    (1, 0, Err(Cause::BadBond)),
    (0, 2, Err(Cause::BadBond)),
    (0, 3, Err(Cause::TooManyBonds)),
    (3, 0, Err(Cause::TooManyBonds)),
    (11, 0, Ok(false)),
    (1, 3, Ok(true)),
    (3, 1, Ok(false)),
    (4, 2, Ok(true)),
];

#[test]
fn a_bond_between_places_has_a_vector_of_the_set(rt: HostRuntime) -> Result<(), Fail> {
    let mut builder = begun(rt.alloc(), 12)?;
    assert!(rt; builder.place(P3 { x: 0, y: 0, z: 0 }).is_ok());
    assert!(rt; builder.place(P3 { x: 4, y: 0, z: 0 }).is_ok());
    assert!(rt; builder.place(P3 { x: 0, y: 6, z: 0 }).is_ok());
    assert!(rt; builder.place(P3 { x: 10, y: 0, z: 0 }).is_ok());
    for j in 4..=11 {
        assert!(rt; builder.join(0, j) == Ok(true));
    }
    for (i, j, answer) in JOINED_IN_PLACE {
        assert!(rt; builder.join(i, j) == answer, "at {i} and {j}");
    }
    Ok(())
}

// What separating two of five monomers answers, where 0 is bonded to each of 1 to 4. The rows stand in
// the order of the calls.
#[rattlefmt::skip]
const PARTED: [(u32, u32, Result<(), Cause>); 8] = [
    (2, 2, Err(Cause::BadMonomer)),
    (0, 5, Err(Cause::BadMonomer)),
    (5, 0, Err(Cause::BadMonomer)),
    (1, 2, Err(Cause::BondUnknown)),
    (0, 3, Ok(())),
    (3, 0, Err(Cause::BondUnknown)),
    (1, 0, Ok(())),
    (0, 1, Err(Cause::BondUnknown)),
];

#[test]
fn a_bond_goes_from_both_ends(rt: HostRuntime) -> Result<(), Fail> {
    let mut builder = begun(rt.alloc(), 5)?;
    for j in 1..=4 {
        assert!(rt; builder.join(0, j) == Ok(true));
    }
    for (i, j, answer) in PARTED {
        assert!(rt; builder.part(i, j) == answer, "at {i} and {j}");
    }
    assert!(rt; builder.count() == 5);
    assert!(rt; builder.neighbours(0) == [2, 4].as_slice());
    assert!(rt; builder.neighbours(3).is_empty() && builder.neighbours(1).is_empty());
    assert!(rt; builder.neighbours(4) == [0].as_slice());
    Ok(())
}

#[test]
fn a_monomer_has_a_label_and_a_valence(rt: HostRuntime) -> Result<(), Fail> {
    let mut builder = begun(rt.alloc(), 3)?;
    builder.label(0, 15);
    builder.label(1, 3);
    builder.label(1, 16);
    builder.valence(1, 8);
    builder.valence(2, 2);
    builder.valence(2, 0);
    assert!(rt; builder.place(P3 { x: 0, y: 0, z: 0 }).is_ok());
    assert!(rt; builder.place(P3 { x: 4, y: 0, z: 0 }).is_ok());
    assert!(rt; builder.place(P3 { x: 0, y: 4, z: 0 }).is_ok());
    let world = builder.finish();
    assert_eq!(rt; world.len(), 3);
    assert!(rt; world.label(0) == 15 && world.label(1) == 16 && world.label(2) == 0);
    // Labels above 15 have the class of those that have none.
    assert!(rt; world.class(0) == 15 && world.class(1) == 0 && world.class(2) == 0);
    assert!(rt; world.valence(0) == 0 && world.valence(1) == 8 && world.valence(2) == 0);
    Ok(())
}

#[test]
fn a_monomer_is_fixed(rt: HostRuntime) -> Result<(), Fail> {
    let mut builder = begun(rt.alloc(), 3)?;
    builder.fix(1);
    builder.fix(2);
    builder.fix(1);
    assert!(rt; builder.place(P3 { x: 0, y: 0, z: 0 }).is_ok());
    assert!(rt; builder.place(P3 { x: 4, y: 0, z: 0 }).is_ok());
    assert!(rt; builder.place(P3 { x: 0, y: 4, z: 0 }).is_ok());
    let world = builder.finish();
    assert_eq!(rt; world.len(), 3);
    assert!(rt; !world.fixed(0) && world.fixed(1) && world.fixed(2));
    Ok(())
}

// Whether a monomer that is bonded to those at (0, 0, 0) and (2, 2, 1) may stand at a place, as far
// as its bonds go.
#[rattlefmt::skip]
const KEPT: [([i64; 3], bool); 6] = [
    ([3, 0, 0], true),
    ([4, 0, 0], false),
    ([2, -1, 0], true),
    ([-2, 0, 0], false),
    ([10, 0, 0], true),
    ([2, 8, 0], false),
];

// Begins a world of three monomers in a chain.
fn chained(rt: &impl Abort, alloc: Global) -> Result<WorldBuilder, AllocError>
    ensures count { IfOk result (λ builder. builder.count ≡ 3) }
    ensures empty { IfOk result (λ builder. builder.world.positions ≡ []) }
{
    let mut builder = begun(alloc, 3)?;
    assert!(rt; builder.join(1, 2) == Ok(true));
    assert!(rt; builder.join(0, 1) == Ok(true));
    Ok(builder)
}

#[test]
fn a_world_knows_its_bonds(rt: HostRuntime) -> Result<(), Fail> {
    let mut builder = chained(&rt, rt.alloc())?;
    assert!(rt; builder.place(P3 { x: 0, y: 0, z: 0 }).is_ok());
    assert!(rt; builder.place(P3 { x: 2, y: 0, z: 0 }).is_ok());
    assert!(rt; builder.place(P3 { x: 2, y: 2, z: 1 }).is_ok());
    let world = builder.finish();
    assert_eq!(rt; world.len(), 3);
    assert!(rt; world.neighbours(0) == [1].as_slice());
    assert!(rt; world.neighbours(1) == [0, 2].as_slice());
    assert!(rt; world.bonded(0, 1) && world.bonded(1, 0) && !world.bonded(0, 2));
    for (place, kept) in KEPT {
        let p = at(place);
        assert!(rt; p.extent() <= 16);
        assert_eq!(rt; world.keeps_bonds(1, p), kept, "at {p:?}");
    }
    assert_eq!(rt; world.set().len(), 108);
    Ok(())
}

#[test]
fn a_world_tells_positions_and_targets(rt: HostRuntime) -> Result<(), Fail> {
    let mut builder = begun(rt.alloc(), 1)?;
    assert!(rt; builder.place(P3 { x: 7, y: 3, z: -20 }).is_ok());
    let world = builder.finish();
    assert_eq!(rt; world.len(), 1);
    assert_eq!(rt; world.reach(), 20);
    assert_eq!(rt; world.target(0, Dir::XUp), P3 { x: 8, y: 3, z: -20 });
    assert_eq!(rt; world.position(0), P3 { x: 7, y: 3, z: -20 });
    Ok(())
}

#[test]
fn a_world_takes_a_bond(rt: HostRuntime) -> Result<(), Fail> {
    let mut builder = begun(rt.alloc(), 3)?;
    assert!(rt; builder.place(P3 { x: 0, y: 0, z: 0 }).is_ok());
    assert!(rt; builder.place(P3 { x: 2, y: 0, z: 0 }).is_ok());
    assert!(rt; builder.place(P3 { x: 8, y: 3, z: 0 }).is_ok());
    let mut world = builder.finish();
    assert_eq!(rt; world.len(), 3);
    // Through the boundary: the wrapped difference is (0, -3, 0).
    let (p, q) = (world.position(2), world.position(0));
    assert!(rt; may_bond(&world.shape(), world.set(), p, q));
    assert!(rt; !world.bonded(2, 0));
    assert!(rt; world.neighbours(2).is_empty() && world.neighbours(0).is_empty());
    world.bond(2, 0);
    assert!(rt; world.bonded(0, 2) && world.bonded(2, 0) && !world.bonded(1, 2));
    assert!(rt; world.neighbours(0) == [2].as_slice() && world.neighbours(2) == [0].as_slice());
    assert!(rt; world.neighbours(1).is_empty());
    assert_eq!(rt; world.position(2), P3 { x: 8, y: 3, z: 0 });
    Ok(())
}

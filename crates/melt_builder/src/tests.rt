use crate::melt;
use bfm_base::{P3, Shape};
use bfm_world::BuildFault;
use std::test::Fail;

fn at(place: [i64; 3]) -> P3 {
    let [x, y, z] = place;
    P3 { x, y, z }
}

// A box of 4 x 4 x 4 cells.
const CUBE: Shape = Shape {
    sides: [8, 8, 8],
    periodic: [true, true, true],
};

// Where some of 64 monomers stand in that box: the ends of rows, and those of layers, which have 16.
#[rattlefmt::skip]
const PLACES: [(u32, [i64; 3]); 15] = [
    (0, [0, 0, 0]), (1, [2, 0, 0]), (3, [6, 0, 0]), (4, [6, 2, 0]), (7, [0, 2, 0]),
    (8, [0, 4, 0]), (12, [6, 6, 0]), (15, [0, 6, 0]), (16, [0, 6, 2]), (20, [6, 4, 2]),
    (31, [0, 0, 2]), (32, [0, 0, 4]), (47, [0, 6, 4]), (48, [0, 6, 6]), (63, [0, 0, 6]),
];

// Who is bonded to whom in chains of four.
#[rattlefmt::skip]
const BONDED: [(u32, u32, bool); 8] = [
    (0, 1, true), (2, 3, true), (3, 4, false), (4, 5, true), (1, 3, false), (0, 8, false),
    (59, 60, false), (62, 63, true),
];

#[test]
fn chains_fill_a_box_to_its_last_cell(rt: HostRuntime) -> Result<(), Fail> {
    let world = melt(rt.alloc(), CUBE, 16, 4)?;
    assert_eq!(rt; world.len(), 64);
    for (monomer, place) in PLACES {
        assert!(rt; monomer < world.len());
        assert_eq!(rt; world.position(monomer), at(place), "monomer {monomer}");
    }
    for (i, j, bonded) in BONDED {
        assert!(rt; i < world.len() && j < world.len());
        assert_eq!(rt; world.bonded(i, j), bonded, "{i} and {j}");
    }
    assert!(rt; world.neighbours(3) == [2].as_slice());
    assert!(rt; world.neighbours(5) == [4, 6].as_slice());
    assert_eq!(rt; world.set().len(), 108);
    Ok(())
}

#[test]
fn one_chain_more_than_there_are_cells_for_is_refused(rt: HostRuntime) -> Result<(), Fail> {
    let refused = melt(rt.alloc(), CUBE, 17, 4).err();
    let room = BuildFault::NoRoom { need: 68, have: 64 };
    assert_eq!(rt; refused, Some(room));
    let refused = melt(rt.alloc(), CUBE, 65, 1).err();
    let room = BuildFault::NoRoom { need: 65, have: 64 };
    assert_eq!(rt; refused, Some(room));
    Ok(())
}

// A box of 4 x 5 x 4 cells, walled along x and z. Its odd sides leave a layer of sites over.
const ODD: Shape = Shape {
    sides: [9, 11, 8],
    periodic: [false, true, false],
};

// Where some of 80 monomers stand in that box: the ends of rows, and those of layers, which have 20.
#[rattlefmt::skip]
const ODD_PLACES: [(u32, [i64; 3]); 8] = [
    (3, [6, 0, 0]), (4, [6, 2, 0]), (16, [0, 8, 0]), (19, [6, 8, 0]), (20, [6, 8, 2]),
    (24, [0, 6, 2]), (39, [0, 0, 2]), (79, [0, 0, 6]),
];

#[test]
fn one_chain_fills_a_walled_box_with_odd_sides(rt: HostRuntime) -> Result<(), Fail> {
    let world = melt(rt.alloc(), ODD, 1, 80)?;
    for (monomer, place) in ODD_PLACES {
        assert!(rt; monomer < world.len());
        assert_eq!(rt; world.position(monomer), at(place), "monomer {monomer}");
    }
    for next in 1..world.len() {
        assert!(rt; world.bonded(next - 1, next), "{next} and the one before");
    }
    let room = BuildFault::NoRoom { need: 81, have: 80 };
    assert_eq!(rt; melt(rt.alloc(), ODD, 1, 81).err(), Some(room));
    Ok(())
}

#[test]
fn chains_of_one_monomer_have_no_bonds(rt: HostRuntime) -> Result<(), Fail> {
    let world = melt(rt.alloc(), CUBE, 3, 1)?;
    assert_eq!(rt; world.len(), 3);
    assert_eq!(rt; world.position(2), at([4, 0, 0]));
    assert!(rt; world.neighbours(0).is_empty() && world.neighbours(2).is_empty());
    assert!(rt; !world.bonded(0, 1));
    Ok(())
}

// The largest box with sides as long as they may be: 256 x 256 x 32 cells.
const FLAT: Shape = Shape {
    sides: [512, 512, 64],
    periodic: [true, true, true],
};

#[test]
fn as_many_monomers_as_may_be_stand_in_the_largest_box(rt: HostRuntime) -> Result<(), Fail> {
    let world = melt(rt.alloc(), FLAT, 4096, 64)?;
    assert_eq!(rt; world.len(), 262_144);
    // Four layers are filled. In the second the way leads back along y, and in odd rows back along x.
    assert_eq!(rt; world.position(65_536), at([0, 510, 2]));
    assert_eq!(rt; world.position(262_143), at([0, 0, 6]));
    assert!(rt; world.bonded(62, 63) && !world.bonded(63, 64) && world.bonded(262_142, 262_143));
    Ok(())
}

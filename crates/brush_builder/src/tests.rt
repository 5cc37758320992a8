use crate::brush;
use bfm_base::{P3, Shape};
use bfm_world::BuildFault;
use std::test::Fail;

fn at(place: [i64; 3]) -> P3 {
    let [x, y, z] = place;
    P3 { x, y, z }
}

// A box with four feet that stand 4 apart.
const BOX: Shape = Shape {
    sides: [8, 8, 9],
    periodic: [true, true, false],
};

// Where some of 16 monomers stand in that box: the feet, and the ends of the first and the last chain.
#[rattlefmt::skip]
const PLACES: [(u32, [i64; 3]); 8] = [
    (0, [0, 0, 0]), (1, [0, 0, 2]), (3, [0, 0, 6]), (4, [4, 0, 0]), (8, [0, 4, 0]),
    (11, [0, 4, 6]), (12, [4, 4, 0]), (15, [4, 4, 6]),
];

#[test]
fn chains_stand_upright_on_their_feet(rt: HostRuntime) -> Result<(), Fail> {
    let world = brush(rt.alloc(), BOX, 4, 4)?;
    assert_eq!(rt; world.len(), 16);
    for (monomer, place) in PLACES {
        assert!(rt; monomer < world.len());
        assert_eq!(rt; world.position(monomer), at(place), "monomer {monomer}");
    }
    assert!(rt; world.bonded(0, 1) && world.bonded(14, 15) && !world.bonded(3, 4));
    assert!(rt; world.neighbours(7) == [6].as_slice());
    for monomer in 0..world.len() {
        let foot = [0, 4, 8, 12].contains(&monomer);
        assert_eq!(rt; world.fixed(monomer), foot, "monomer {monomer}");
    }
    let room = BuildFault::NoRoom { need: 5, have: 4 };
    assert_eq!(rt; brush(rt.alloc(), BOX, 4, 5).err(), Some(room));
    Ok(())
}

// A box whose sides are no multiples of 3, walled along all axes.
const ODD: Shape = Shape {
    sides: [8, 11, 8],
    periodic: [false, false, false],
};

#[test]
fn feet_leave_over_what_is_less_than_their_spacing(rt: HostRuntime) -> Result<(), Fail> {
    // Two feet along x, at 0 and 3, and three along y, at 0, 3 and 6.
    let world = brush(rt.alloc(), ODD, 3, 1)?;
    assert_eq!(rt; world.len(), 6);
    assert_eq!(rt; world.position(1), at([3, 0, 0]));
    assert_eq!(rt; world.position(5), at([3, 6, 0]));
    assert!(rt; world.neighbours(5).is_empty());
    // The densest brush: feet that touch, in the whole box.
    let world = brush(rt.alloc(), ODD, 2, 4)?;
    assert_eq!(rt; world.len(), 80);
    assert_eq!(rt; world.position(79), at([6, 8, 6]));
    Ok(())
}

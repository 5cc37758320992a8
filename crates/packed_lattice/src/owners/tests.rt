ghost use Rattle.std.specs.Prelude.{◌^◌, IsTrue};
ghost use Rattle.bfm_base.specs.declared.limits.TheConstants.{PLACE_REACH};
ghost use Rattle.bfm_geom.specs.Difference.{IsWithin};

use super::Owners;
use crate::site::is_inside;
use bfm_base::{P3, Shape};
use std::test::Fail;

const FAR: i64 = 1 << 45;

// x and z are periodic, y is walled.
const SHAPE: Shape = Shape {
    sides: [9, 8, 70],
    periodic: [true, false, true],
};

fn is_in_reach(p: P3) -> bool
    ensures { IsTrue result → IsWithin PLACE_REACH p }
{
    if p.x < -FAR || FAR < p.x || p.y < -FAR || FAR < p.y || p.z < -FAR || FAR < p.z {
        return false;
    }
    true
}

// The places set, in turn, and then what is read. 2^45 is 1 below a multiple of 9 and 22 above one
// of 70.
#[test]
fn places_that_differ_by_whole_sides_have_one_owner(rt: HostRuntime) -> Result<(), Fail> {
    let mut owners = Owners::new(rt.alloc(), SHAPE)?;
    let writes = [
        ([0, 0, 0], Some(0)),
        ([8, 6, 69], Some(262143)),
        ([-1, 3, -70], Some(7)),
        ([FAR, 1, -FAR], Some(8)),
        ([3, 3, 3], Some(9)),
        ([12, 3, 143], None),
    ];
    for ([x, y, z], owner) in writes {
        let p = P3 { x, y, z };
        assert!(rt; is_in_reach(p));
        assert!(rt; is_inside(&owners.shape, p));
        assert!(rt; owner.is_none_or(|monomer| monomer < 262144));
        owners.set(p, owner);
    }
    let reads = [
        ([9, 0, -140], Some(0)),
        ([-1, 6, -1], Some(262143)),
        ([8, 3, 0], Some(7)),
        ([-1, 1, 118], Some(8)),
        ([3, 3, 3], None),
        ([4, 4, 4], None),
        ([0, -8, 0], None),
        ([0, 7, 0], None),
        ([0, 8, 0], None),
        ([0, FAR, 0], None),
    ];
    for ([x, y, z], owner) in reads {
        let p = P3 { x, y, z };
        assert!(rt; is_in_reach(p));
        assert_eq!(rt; owners.at(p), owner, "{p:?}");
    }
    Ok(())
}

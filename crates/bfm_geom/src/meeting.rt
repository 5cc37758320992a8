ghost use Rattle.std.specs.Prelude.{◌≡◌, ◌^◌, IfNone, IfSome};
ghost use Rattle.bfm_geom.specs.Difference.{IsWithin, minus};
ghost use Rattle.bfm_geom.specs.Meeting.{IsCommonPoint, IsUnit, Meets};
ghost use Rattle.bfm_geom.specs.Upright.{cycled};

use crate::difference::plain_difference;
use crate::upright::meets_upright;
use bfm_base::P3;

/// A common point of the triangle a, b, b2 and the segment c, d: the mean of the corners with the
/// weights u, v and w, and of the ends with the weights p and q. No weight is negative, and
/// u + v + w = p + q is above 0.
#[derive(Clone, Copy, Debug, PartialEq, Eq)]
pub struct Weights {
    pub u: i64,
    pub v: i64,
    pub w: i64,
    pub p: i64,
    pub q: i64,
}

/// Whether the triangle a, b, b2 that a bond sweeps when its end steps from b to b2 meets the bond
/// from c to d, each with its edge and ends: a common point, or None exactly where there is none.
/// The triangle may lie in a line, and the segment may be a point. Coordinates are in lattice
/// units.
pub fn meets(a: P3, b: P3, b2: P3, c: P3, d: P3) -> Option<Weights>
    requires a_within { IsWithin (2 ^ 10) a }
    requires b_within { IsWithin (2 ^ 10) b }
    requires b2_within { IsWithin (2 ^ 10) b2 }
    requires c_within { IsWithin (2 ^ 10) c }
    requires d_within { IsWithin (2 ^ 10) d }
    requires step { IsUnit (minus b2 b) }
    ensures found { IfSome result (IsCommonPoint a b b2 c d) }
    ensures none_missed { IfNone result (¬ Meets a b b2 c d) }
{
    let step = difference(b, b2);
    let b = difference(a, b);
    let c = difference(a, c);
    let d = difference(a, d);
    if step.z != 0 {
        meets_upright(b, step.z, c, d)
    } else if step.x != 0 {
        meets_upright(cycle(b), step.x, cycle(c), cycle(d))
    } else {
        meets_upright(cycle(cycle(b)), step.y, cycle(cycle(c)), cycle(cycle(d)))
    }
}

// The difference of two of these places.
fn difference(from: P3, to: P3) -> P3
    requires from { IsWithin (2 ^ 10) from }
    requires to { IsWithin (2 ^ 10) to }
    ensures value { result ≡ minus to from }
    ensures reach { IsWithin (2 ^ 11) result }
{
    plain_difference(from, to)
}

// The axes in the order y, z, x.
fn cycle(p: P3) -> P3
    ensures { result ≡ cycled p }
{
    P3 {
        x: p.y,
        y: p.z,
        z: p.x,
    }
}

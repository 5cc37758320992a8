ghost use Rattle.std.specs.Prelude.{IsTrue, nat_abs, pos, ◌≤ℤ◌};
ghost use Rattle.bfm_geom.specs.Difference.{IsWithin, minus};
ghost use Rattle.bfm_geom.specs.Meeting.{IsUnit};

use crate::{Weights, contact, meets, overlap, wrap};
use bfm_base::{Dir, P3, Shape};
use std::process::Abort;

const FAR: i64 = 1 << 45;

// x and y are periodic, with an even and an odd side; z is walled.
const SHAPE: Shape = Shape {
    sides: [8, 9, 8],
    periodic: [true, true, false],
};

fn at(place: [i64; 3]) -> P3 {
    let [x, y, z] = place;
    P3 { x, y, z }
}

fn is_within(reach: i64, p: P3) -> bool
    requires { pos 0 ≤ℤ reach }
    ensures { IsTrue result → IsWithin (nat_abs reach) p }
{
    if p.x < -reach || reach < p.x || p.y < -reach || reach < p.y || p.z < -reach || reach < p.z {
        return false;
    }
    true
}

// 2^46 is a multiple of 8, and 7 above a multiple of 9.
#[test]
fn a_difference_is_wrapped_on_periodic_axes_alone(rt: HostRuntime) {
    let farthest = 2 * FAR;
    let table = [
        ([3, 4, 5], [3, 4, 5]),
        ([4, 5, -4], [4, -4, -4]),
        ([-4, -4, 100], [4, -4, 100]),
        ([5, -5, 8], [-3, 4, 8]),
        ([8, 9, 0], [0, 0, 0]),
        ([12, 14, -70], [4, -4, -70]),
        ([-12, -13, 7], [4, -4, 7]),
        ([farthest, farthest, farthest], [0, -2, farthest]),
        ([3 - farthest, -farthest, -farthest], [3, 2, -farthest]),
    ];
    for (d, wrapped) in table {
        let d = at(d);
        assert!(rt; is_within(2 * FAR, d));
        assert_eq!(rt; wrap(&SHAPE, d), at(wrapped));
    }
}

#[test]
fn monomers_overlap_through_periodic_boundaries_alone(rt: HostRuntime) {
    let table = [
        ([0, 0, 0], [1, -1, 1], true),
        ([0, 0, 0], [2, 0, 0], false),
        ([0, 0, 0], [4, 0, 0], false),
        ([7, 0, 0], [0, 0, 0], true),
        ([0, 8, 0], [0, 0, 0], true),
        ([0, 0, 0], [0, 0, 7], false),
        ([-1, -1, 0], [8, 9, 1], true),
        ([-2, 0, 0], [8, 0, 0], false),
        ([FAR, 0, 0], [1 - FAR, 0, 0], true),
        ([FAR, 0, 0], [2 - FAR, 0, 0], false),
    ];
    for (a, b, expected) in table {
        let (a, b) = (at(a), at(b));
        assert!(rt; is_within(FAR, a));
        assert!(rt; is_within(FAR, b));
        assert_eq!(rt; overlap(&SHAPE, a, b), expected);
    }
}

#[test]
fn monomers_are_in_contact_at_squared_distances_4_to_6(rt: HostRuntime) {
    let table = [
        ([0, 0, 0], [2, 0, 0], true),
        ([0, 0, 0], [0, -2, 1], true),
        ([0, 0, 0], [-1, 1, 2], true),
        ([0, 0, 0], [1, 1, 1], false),
        ([0, 0, 0], [2, 2, 0], false),
        ([0, 0, 0], [3, 0, 0], false),
        ([7, 0, 0], [1, 0, 0], true),
        ([0, 8, 0], [1, 1, 1], true),
        ([0, 0, 0], [0, 0, 6], false),
        ([0, 0, FAR], [0, 0, -FAR], false),
        ([FAR, 0, 0], [2 - FAR, 1, -1], true),
    ];
    for (a, b, expected) in table {
        let (a, b) = (at(a), at(b));
        assert!(rt; is_within(FAR, a));
        assert!(rt; is_within(FAR, b));
        assert_eq!(rt; contact(&SHAPE, a, b), expected);
    }
}

fn after(step: Dir, b: P3) -> P3
    requires { IsWithin 1000 b }
    ensures unit { IsUnit (minus result b) }
    ensures reach { IsWithin 1024 result }
{
    let unit = step.step();
    P3 {
        x: b.x + unit.x,
        y: b.y + unit.y,
        z: b.z + unit.z,
    }
}

// Along one axis the weights show the same coordinate of the triangle and of the segment.
fn is_balanced(k: Weights, corners: [i64; 3], ends: [i64; 2]) -> bool {
    let [a, b, b2] = corners;
    let [c, d] = ends;
    let triangle = k
        .u
        .wrapping_mul(a)
        .wrapping_add(k.v.wrapping_mul(b))
        .wrapping_add(k.w.wrapping_mul(b2));
    triangle == k.p.wrapping_mul(c).wrapping_add(k.q.wrapping_mul(d))
}

// What is found for the triangle of a, b and the place one step from b, and the segment from c to
// d. The weights of what is found are tried.
fn meeting(
    rt: &impl Abort,
    a: [i64; 3],
    b: [i64; 3],
    step: Dir,
    c: [i64; 3],
    d: [i64; 3],
) -> Option<Weights> {
    let (a, b, c, d) = (at(a), at(b), at(c), at(d));
    assert!(rt; is_within(1000, a));
    assert!(rt; is_within(1000, b));
    assert!(rt; is_within(1000, c));
    assert!(rt; is_within(1000, d));
    let b2 = after(step, b);
    let found = meets(a, b, b2, c, d);
    if let Some(k) = found {
        assert!(rt; 0 <= k.u && 0 <= k.v && 0 <= k.w && 0 <= k.p && 0 <= k.q);
        assert!(rt; 0 < k.p.wrapping_add(k.q));
        assert!(rt; is_balanced(k, [1, 1, 1], [1, 1]));
        assert!(rt; is_balanced(k, [a.x, b.x, b2.x], [c.x, d.x]));
        assert!(rt; is_balanced(k, [a.y, b.y, b2.y], [c.y, d.y]));
        assert!(rt; is_balanced(k, [a.z, b.z, b2.z], [c.z, d.z]));
    }
    found
}

#[test]
fn a_triangle_meets_a_segment_where_they_share_a_point(rt: HostRuntime) {
    let zero = [0, 0, 0];
    let b = [4, 0, 0];
    let table = [
        // seen along the step the shadows cross, at the height of the triangle or not
        (zero, [2, 2, 0], Dir::ZUp, [0, 2, 0], [2, 0, 0], true),
        (zero, b, Dir::ZUp, [3, -1, 0], [3, 1, 1], true),
        (zero, b, Dir::ZUp, [3, -1, 1], [3, 1, 1], false),
        (zero, b, Dir::ZUp, [3, -1, -1], [3, 1, 0], false),
        (zero, [2, 0, 0], Dir::YUp, [1, 0, 0], [1, 0, 5], true),
        (zero, [2, 0, 0], Dir::YUp, [1, 0, 1], [1, 0, 5], false),
        // touching: an edge, the corners, and an end of the segment
        (zero, b, Dir::ZUp, [2, -1, 0], [2, 1, 1], true),
        (zero, b, Dir::ZUp, [4, -1, 1], [4, 1, 1], true),
        (zero, b, Dir::ZUp, [0, -1, 0], [0, 1, 0], true),
        (zero, b, Dir::ZUp, [3, 0, 0], [3, 5, 7], true),
        (zero, b, Dir::ZUp, [3, 1, 0], [3, 5, 7], false),
        // in one plane: across, beside, along an edge, at one corner; parallel to the plane
        (zero, b, Dir::ZUp, [2, 0, -1], [2, 0, 1], true),
        (zero, b, Dir::ZUp, [1, 0, 1], [3, 0, 1], false),
        (zero, b, Dir::ZUp, [4, 0, -3], [4, 0, 5], true),
        (zero, b, Dir::ZUp, [3, 0, 1], [5, 0, 1], true),
        (zero, b, Dir::ZUp, [5, 0, 0], [7, 0, 0], false),
        (zero, b, Dir::ZUp, [0, 1, 0], [4, 1, 0], false),
        // the segment is a point
        (zero, [4, 2, 0], Dir::YDown, [3, 1, 0], [3, 1, 0], true),
        (zero, b, Dir::ZUp, [2, 0, 1], [2, 0, 1], false),
        // the triangle lies in a line: through it, at its top, past it, below a, along it
        (zero, [0, 0, 3], Dir::ZUp, [-1, 0, 2], [1, 0, 2], true),
        (zero, [0, 0, 3], Dir::ZUp, [-1, -1, 4], [1, 1, 4], true),
        (zero, [0, 0, 3], Dir::ZUp, [-1, 0, 5], [1, 0, 5], false),
        (zero, [0, 0, -3], Dir::ZUp, [-1, 0, -1], [1, 0, -1], true),
        (zero, [0, 0, -3], Dir::ZUp, [-1, 0, 1], [1, 0, 1], false),
        (zero, [2, 0, 0], Dir::XUp, [4, 0, 0], [6, 0, 0], false),
        (zero, [2, 0, 0], Dir::XUp, [3, 0, 0], [6, 0, 0], true),
        // it is an edge alone, from a or back to a
        (zero, zero, Dir::ZUp, [-1, -1, 1], [1, 1, 1], true),
        ([0, 0, 1], zero, Dir::ZUp, [1, 0, 0], [2, 0, 0], false),
        // the other steps, and places far apart
        (zero, [0, 4, 0], Dir::XDown, [0, 2, -1], [-1, 2, 1], true),
        (zero, [0, 4, 0], Dir::XDown, [1, 2, -1], [0, 2, 1], false),
        (
            [-1000, -1000, -1000],
            [1000, 1000, 1000],
            Dir::YUp,
            [1000, -1000, 0],
            [-1000, 1000, 0],
            true,
        ),
        (
            [-1000, -1000, -1000],
            [1000, 1000, 1000],
            Dir::YUp,
            [1000, -1000, 1],
            [-1000, 1000, 1],
            false,
        ),
    ];
    for (a, b, step, c, d, expected) in table {
        assert_eq!(rt;
            meeting(&rt, a, b, step, c, d).is_some(),
            expected,
            "{a:?} {b:?} {step:?} {c:?} {d:?}"
        );
    }
}

// Where one point alone is common, the shares of the corners in it are known.
#[test]
fn the_weights_show_the_one_common_point(rt: HostRuntime) {
    let zero = [0, 0, 0];
    let b = [4, 0, 0];
    let table = [
        (
            zero,
            [2, 2, 0],
            Dir::ZUp,
            [0, 2, 0],
            [2, 0, 0],
            [1, 1, 0],
            2,
        ),
        (
            zero,
            [2, 0, 0],
            Dir::YUp,
            [1, 0, 0],
            [1, 0, 5],
            [1, 1, 0],
            2,
        ),
        // (3, 0, 1/2)
        (zero, b, Dir::ZUp, [3, -1, 0], [3, 1, 1], [1, 1, 2], 4),
        // (2, 0, 1/2)
        (zero, b, Dir::ZUp, [2, -1, 0], [2, 1, 1], [1, 0, 1], 2),
        (
            zero,
            [4, 2, 0],
            Dir::YDown,
            [3, 1, 0],
            [3, 1, 0],
            [1, 1, 2],
            4,
        ),
        (
            [-1000, -1000, -1000],
            [1000, 1000, 1000],
            Dir::YUp,
            [1000, -1000, 0],
            [-1000, 1000, 0],
            [1, 1, 0],
            2,
        ),
    ];
    for (a, b, step, c, d, shares, whole) in table {
        let k = meeting(&rt, a, b, step, c, d).expect(&rt, "they meet");
        let [u, v, w] = shares;
        let sum = k.p.wrapping_add(k.q);
        assert_eq!(rt; k.u.wrapping_mul(whole), sum.wrapping_mul(u));
        assert_eq!(rt; k.v.wrapping_mul(whole), sum.wrapping_mul(v));
        assert_eq!(rt; k.w.wrapping_mul(whole), sum.wrapping_mul(w));
    }
}

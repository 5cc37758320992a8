ghost use Rattle.std.specs.Prelude.{◌≡◌, ◌+◌, ◌*◌, ◌^◌, ◌≤◌, true, false, nat_abs, nat_le};
ghost use Rattle.bfm_base.specs.Place.{extent_of};
ghost use Rattle.bfm_geom.specs.Difference.{HasSides, IsSide, IsWithin, IsWrapped, are_in_contact, is_contact_square, minus, plus, square_of, wrapped, wrapped_along, overlaps};

use bfm_base::limits::{DIFFERENCE_REACH, PLACE_REACH};
use bfm_base::{P3, Shape};

/// The difference of two places, in lattice units: the plain one, whatever the box.
pub fn plain_difference(from: P3, to: P3) -> P3
    requires from { IsWithin PLACE_REACH from }
    requires to { IsWithin PLACE_REACH to }
    ensures value { result ≡ minus to from }
    ensures reach { IsWithin DIFFERENCE_REACH result }
    ensures near { IsWithin (2 ^ 10) from → IsWithin (2 ^ 10) to → IsWithin (2 ^ 11) result }
{
    P3 {
        x: to.x - from.x,
        y: to.y - from.y,
        z: to.z - from.z,
    }
}

/// The place that a vector leads to from another, in lattice units.
pub fn shifted(p: P3, vector: P3) -> P3
    requires place { extent_of p ≤ PLACE_REACH }
    requires vector { extent_of vector ≤ PLACE_REACH }
    ensures value { result ≡ plus p vector }
    ensures near { extent_of result ≤ extent_of p + extent_of vector }
{
    sum(p, vector)
}

// The sum of two vectors.
fn sum(a: P3, b: P3) -> P3
    requires first { extent_of a ≤ PLACE_REACH }
    requires second { extent_of b ≤ PLACE_REACH }
    ensures { result ≡ plus a b }
{
    P3 {
        x: a.x + b.x,
        y: a.y + b.y,
        z: a.z + b.z,
    }
}

/// The wrapped form of the difference of two places, in lattice units: on a periodic axis the
/// number that differs from the component by whole sides and lies above minus half the side and at
/// or below half the side, on a walled axis the component itself.
pub fn wrap(shape: &Shape, p: P3) -> P3
    requires shape { HasSides shape.now }
    requires reach { IsWithin DIFFERENCE_REACH p }
    ensures value { result ≡ wrapped shape.now p }
    ensures nearest { IsWrapped shape.now p result }
{
    P3 {
        x: wrap_along(shape.periodic[0], shape.sides[0], p.x),
        y: wrap_along(shape.periodic[1], shape.sides[1], p.y),
        z: wrap_along(shape.periodic[2], shape.sides[2], p.z),
    }
}

// The wrapped form along one axis.
fn wrap_along(periodic: bool, side: u16, d: i64) -> i64
    requires side { IsSide side }
    requires reach { nat_abs d ≤ DIFFERENCE_REACH }
    ensures { result ≡ wrapped_along periodic side d }
{
    if periodic { fold_around(side, d) } else { d }
}

// The wrapped form along a periodic axis. Most differences are at most half the side, and need no
// division.
fn fold_around(side: u16, d: i64) -> i64
    requires side { IsSide side }
    requires reach { nat_abs d ≤ DIFFERENCE_REACH }
    ensures { result ≡ wrapped_along true side d }
{
    let side = i64::from(side);
    if -side < 2 * d && 2 * d <= side {
        return d;
    }
    let folded = d.rem_euclid(side);
    if 2 * folded <= side {
        folded
    } else {
        folded - side
    }
}

/// Whether two monomers share a site of the lattice (Carmesin and Kremer 1988): each component of
/// their wrapped difference is at most 1 in absolute value.
pub fn overlap(shape: &Shape, a: P3, b: P3) -> bool
    requires shape { HasSides shape.now }
    requires first { IsWithin PLACE_REACH a }
    requires second { IsWithin PLACE_REACH b }
    ensures { result ≡ overlaps shape.now a b }
{
    is_near_along(shape.periodic[0], shape.sides[0], b.x - a.x)
        && is_near_along(shape.periodic[1], shape.sides[1], b.y - a.y)
        && is_near_along(shape.periodic[2], shape.sides[2], b.z - a.z)
}

// Whether the wrapped form along one axis is at most 1 in absolute value.
fn is_near_along(periodic: bool, side: u16, d: i64) -> bool
    requires side { IsSide side }
    requires reach { nat_abs d ≤ DIFFERENCE_REACH }
    ensures { result ≡ nat_le (nat_abs (wrapped_along periodic side d)) 1 }
{
    let w = wrap_along(periodic, side, d);
    -1 <= w && w <= 1
}

/// Whether two monomers are in contact: the squared length of their wrapped difference is 4, 5 or 6,
/// in lattice units squared. There are 54 such differences, and monomers that overlap have none of them.
pub fn contact(shape: &Shape, a: P3, b: P3) -> bool
    requires shape { HasSides shape.now }
    requires first { IsWithin PLACE_REACH a }
    requires second { IsWithin PLACE_REACH b }
    ensures value { result ≡ are_in_contact shape.now a b }
    ensures symmetric { result ≡ are_in_contact shape.now b a }
    ensures apart { result ≡ true → overlaps shape.now a b ≡ false }
{
    is_contact(wrap(shape, plain_difference(a, b)))
}

// Whether the squared length is 4, 5 or 6. That of a longer difference might not fit.
fn is_contact(d: P3) -> bool
    ensures { result ≡ is_contact_square (square_of d) }
{
    if d.extent() > 2 {
        return false;
    }
    let square = squared(d.x) + squared(d.y) + squared(d.z);
    4 <= square && square <= 6
}

// The square of a short component.
fn squared(d: i64) -> u64
    requires { nat_abs d ≤ 2 }
    ensures value { result ≡ nat_abs d * nat_abs d }
    ensures few { result ≤ 4 }
{
    d.unsigned_abs() * d.unsigned_abs()
}

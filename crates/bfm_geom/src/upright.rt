ghost use Rattle.std.specs.Prelude.{◌≡◌, ◌≤◌, ◌^◌, IfNone, IfSome, nat_abs, pos, ◌-ℤ◌, ◌*ℤ◌, ◌<ℤ◌};
ghost use Rattle.bfm_geom.specs.Difference.{IsWithin};
ghost use Rattle.bfm_geom.specs.Stretch.{IsSmall};
ghost use Rattle.bfm_geom.specs.Upright.{IsAxisApart, IsAxisPoint, IsInReach, IsUprightApart, IsUprightPoint, along_x_of, along_y_of, aside_of, depth_of, half_turned, height_of, lower_weight_of, mirrored, origin_weight_of, quarter_turned, three_quarter_turned, upper_weight_of};

use crate::meeting::Weights;
use crate::stretch::{Bound, SegmentPoint, Stretch};
use bfm_base::P3;

// Corner a of the triangle lies at the origin, and its edge from b to b2 runs along z. Seen from
// above the triangle is then a segment from the origin to b, or a point where b lies on the z axis.

/// For the triangle of the origin, b and the place that lies `rise`, 1 or -1, above b.
pub(crate) fn meets_upright(b: P3, rise: i64, c: P3, d: P3) -> Option<Weights>
    requires rise { nat_abs rise ≡ 1 }
    requires reach { IsInReach b c d }
    ensures found { IfSome result (IsUprightPoint b rise c d) }
    ensures none_missed { IfNone result (IsUprightApart b rise c d) }
{
    if 0 < rise {
        meets_above(b, c, d)
    } else {
        meets_above(upside_down(b), upside_down(c), upside_down(d))
    }
}

// With b2 one above b: turned about z until b lies at positive x, or else on the axis.
fn meets_above(b: P3, c: P3, d: P3) -> Option<Weights>
    requires { IsInReach b c d }
    ensures found { IfSome result (IsUprightPoint b (pos 1) c d) }
    ensures none_missed { IfNone result (IsUprightApart b (pos 1) c d) }
{
    if 0 < b.x {
        meets_leaning(b, c, d)
    } else if b.x < 0 {
        meets_leaning(half_turn(b), half_turn(c), half_turn(d))
    } else if 0 < b.y {
        meets_leaning(quarter_turn(b), quarter_turn(c), quarter_turn(d))
    } else if b.y < 0 {
        meets_leaning(
            three_quarter_turn(b),
            three_quarter_turn(c),
            three_quarter_turn(d),
        )
    } else {
        meets_column(b, c, d)
    }
}

// With b at positive x.
fn meets_leaning(b: P3, c: P3, d: P3) -> Option<Weights>
    requires corner { pos 0 <ℤ b.x }
    requires reach { IsInReach b c d }
    ensures found { IfSome result (IsUprightPoint b (pos 1) c d) }
    ensures none_missed { IfNone result (IsUprightApart b (pos 1) c d) }
{
    let beside = aside(b, c, d);
    let line = Stretch::WHOLE.narrowed(&[beside, beside.opposite()])?;
    let at_origin = origin_weight(b, c, d);
    let lower = lower_weight(b, c, d);
    let upper = upper_weight(b, c, d);
    let point = line.narrowed(&[at_origin, lower, upper])?.from;
    let ends = scaled(b.x, point);
    Some(Weights {
        u: at_origin.value(point),
        v: lower.value(point),
        w: upper.value(point),
        p: ends.p,
        q: ends.q,
    })
}

// With b on the z axis: the triangle is the part of the axis from the origin to b2 or, where b lies
// below the origin, to b.
fn meets_column(b: P3, c: P3, d: P3) -> Option<Weights>
    requires column { (b.x ≡ pos 0) × (b.y ≡ pos 0) }
    requires reach { IsInReach b c d }
    ensures found { IfSome result (IsUprightPoint b (pos 1) c d) }
    ensures none_missed { IfNone result (IsUprightApart b (pos 1) c d) }
{
    if b.z < 0 {
        return meets_axis(-b.z, upside_down(c), upside_down(d));
    }
    let shown = meets_axis(b.z + 1, c, d)?;
    Some(Weights {
        v: 0,
        w: shown.v,
        ..shown
    })
}

// For the part of the z axis from the origin up to `top`, where both b and b2 lie.
fn meets_axis(top: i64, c: P3, d: P3) -> Option<Weights>
    requires above { pos 0 <ℤ top }
    requires top { nat_abs top ≤ 2 ^ 12 }
    requires reach_c { IsWithin (2 ^ 11) c }
    requires reach_d { IsWithin (2 ^ 11) d }
    ensures found { IfSome result (IsAxisPoint top c d) }
    ensures none_missed { IfNone result (IsAxisApart top c d) }
{
    let x = along_x(c, d);
    let y = along_y(c, d);
    let axis = Stretch::WHOLE.narrowed(&[x, x.opposite(), y, y.opposite()])?;
    let below_top = depth(top, c, d);
    let above_origin = height(c, d);
    let point = axis.narrowed(&[below_top, above_origin])?.from;
    let ends = scaled(top, point);
    Some(Weights {
        u: below_top.value(point),
        v: above_origin.value(point),
        w: 0,
        p: ends.p,
        q: ends.q,
    })
}

// How far the segment lies beside the plane of the triangle, times the length of its shadow.
fn aside(b: P3, c: P3, d: P3) -> Bound
    requires { IsInReach b c d }
    ensures value { result ≡ aside_of b c d }
    ensures size { IsSmall result.at_c result.at_d }
{
    Bound {
        at_c: determinant(b.x, b.y, c.x, c.y),
        at_d: determinant(b.x, b.y, d.x, d.y),
    }
}

// The weight of the corner at the origin for a point in the plane of the triangle, times b.x.
fn origin_weight(b: P3, c: P3, d: P3) -> Bound
    requires { IsInReach b c d }
    ensures value { result ≡ origin_weight_of b c d }
    ensures size { IsSmall result.at_c result.at_d }
{
    Bound {
        at_c: b.x - c.x,
        at_d: b.x - d.x,
    }
}

// The weight of b.
fn lower_weight(b: P3, c: P3, d: P3) -> Bound
    requires { IsInReach b c d }
    ensures value { result ≡ lower_weight_of b c d }
    ensures size { IsSmall result.at_c result.at_d }
{
    let over = upper_weight(b, c, d);
    Bound {
        at_c: c.x - over.at_c,
        at_d: d.x - over.at_d,
    }
}

// The weight of b2: how far the segment lies above the edge from the origin to b.
fn upper_weight(b: P3, c: P3, d: P3) -> Bound
    requires { IsInReach b c d }
    ensures value { result ≡ upper_weight_of b c d }
    ensures size { (nat_abs result.at_c ≤ 2 ^ 23) × (nat_abs result.at_d ≤ 2 ^ 23) }
{
    Bound {
        at_c: determinant(b.x, b.z, c.x, c.z),
        at_d: determinant(b.x, b.z, d.x, d.z),
    }
}

// a d - b c.
fn determinant(a: i64, b: i64, c: i64, d: i64) -> i64
    requires first { (nat_abs a ≤ 2 ^ 11) × (nat_abs b ≤ 2 ^ 11) }
    requires second { (nat_abs c ≤ 2 ^ 11) × (nat_abs d ≤ 2 ^ 11) }
    ensures value { result ≡ a *ℤ d -ℤ b *ℤ c }
    ensures size { nat_abs result ≤ 2 ^ 23 }
{
    a * d - b * c
}

// The same point, with weights that are this many times as large.
fn scaled(factor: i64, point: SegmentPoint) -> SegmentPoint
    requires factor { nat_abs factor ≤ 2 ^ 12 }
    requires point { IsSmall point.p point.q }
    ensures p { result.p ≡ factor *ℤ point.p }
    ensures q { result.q ≡ factor *ℤ point.q }
{
    SegmentPoint {
        p: factor * point.p,
        q: factor * point.q,
    }
}

// Where the segment's ends lie along x, along y and along z, and how far below a height.
fn along_x(c: P3, d: P3) -> Bound
    requires c { IsWithin (2 ^ 11) c }
    requires d { IsWithin (2 ^ 11) d }
    ensures value { result ≡ along_x_of c d }
    ensures size { IsSmall result.at_c result.at_d }
{
    Bound {
        at_c: c.x,
        at_d: d.x,
    }
}

fn along_y(c: P3, d: P3) -> Bound
    requires c { IsWithin (2 ^ 11) c }
    requires d { IsWithin (2 ^ 11) d }
    ensures value { result ≡ along_y_of c d }
    ensures size { IsSmall result.at_c result.at_d }
{
    Bound {
        at_c: c.y,
        at_d: d.y,
    }
}

fn height(c: P3, d: P3) -> Bound
    requires c { IsWithin (2 ^ 11) c }
    requires d { IsWithin (2 ^ 11) d }
    ensures value { result ≡ height_of c d }
    ensures size { IsSmall result.at_c result.at_d }
{
    Bound {
        at_c: c.z,
        at_d: d.z,
    }
}

fn depth(top: i64, c: P3, d: P3) -> Bound
    requires top { nat_abs top ≤ 2 ^ 12 }
    requires c { IsWithin (2 ^ 11) c }
    requires d { IsWithin (2 ^ 11) d }
    ensures value { result ≡ depth_of top c d }
    ensures size { IsSmall result.at_c result.at_d }
{
    Bound {
        at_c: top - c.z,
        at_d: top - d.z,
    }
}

// Turns about z by one, two and three right angles, and one that leaves x and y.
fn quarter_turn(p: P3) -> P3
    requires { IsWithin (2 ^ 11) p }
    ensures value { result ≡ quarter_turned p }
    ensures reach { IsWithin (2 ^ 11) result }
{
    P3 {
        x: p.y,
        y: -p.x,
        z: p.z,
    }
}

fn half_turn(p: P3) -> P3
    requires { IsWithin (2 ^ 11) p }
    ensures value { result ≡ half_turned p }
    ensures reach { IsWithin (2 ^ 11) result }
{
    P3 {
        x: -p.x,
        y: -p.y,
        z: p.z,
    }
}

fn three_quarter_turn(p: P3) -> P3
    requires { IsWithin (2 ^ 11) p }
    ensures value { result ≡ three_quarter_turned p }
    ensures reach { IsWithin (2 ^ 11) result }
{
    P3 {
        x: -p.y,
        y: p.x,
        z: p.z,
    }
}

fn upside_down(p: P3) -> P3
    requires { IsWithin (2 ^ 11) p }
    ensures value { result ≡ mirrored p }
    ensures reach { IsWithin (2 ^ 11) result }
{
    P3 {
        x: p.x,
        y: p.y,
        z: -p.z,
    }
}

ghost use Rattle.std.specs.Prelude.{◌≡◌, ◌≤◌, ◌↔◌, ℤ, ⊤, IfNone, IfSome, IsTrue, nat_abs, negsuc, pos, ◌<ℤ◌, ◌≤ℤ◌};
ghost use Rattle.bfm_base.specs.Place.{extent_of};
ghost use Rattle.bond_set.specs.Crossing.{IsClear};
ghost use Rattle.crossing_check.specs.Passage.{IsEncounter, IsFirstPassage, IsInPlane, IsInRow, IsShown, MeetAlong, NoPassage, SweepsFrom};

use bfm_base::P3;
use bfm_geom::{Weights, meets, plain_difference, shifted};

/// A bond from the origin whose end steps from `before` to `after`, and the vector of another bond
/// that it may meet, in lattice units.
#[derive(Clone, Copy)]
pub(crate) struct Encounter {
    pub before: P3,
    pub after: P3,
    pub other: P3,
}

/// A place from which the other bond is swept through, and weights that show a point which it has
/// in common with the triangle.
#[derive(Clone, Copy)]
pub(crate) struct Passage {
    pub start: P3,
    pub weights: Weights,
}

// The whole numbers from one up to, but without, another.
#[derive(Clone, Copy)]
struct Span {
    from: i64,
    end: i64,
}

/// The first place from which the other bond is swept through: the least x, then the least y, then
/// the least z.
pub(crate) fn first_passage(pair: &Encounter) -> Option<Passage>
    requires { IsEncounter pair.now }
    ensures first { IfSome result (IsFirstPassage (λ _. ⊤) pair.now) }
    ensures none { IfNone result (NoPassage (λ _. ⊤) pair.now) }
{
    let span = span_of_starts(pair.before.x, pair.after.x, pair.other.x);
    for x in span.from..span.end {
        if let Some(first) = first_in_plane(pair, x) {
            return Some(first);
        }
    }
    None
}

// The first with this x.
fn first_in_plane(pair: &Encounter, x: i64) -> Option<Passage>
    requires pair { IsEncounter pair.now }
    requires x { nat_abs x ≤ 6 }
    ensures first { IfSome result (IsFirstPassage (IsInPlane x) pair.now) }
    ensures none { IfNone result (NoPassage (IsInPlane x) pair.now) }
{
    let span = span_of_starts(pair.before.y, pair.after.y, pair.other.y);
    for y in span.from..span.end {
        if let Some(first) = first_in_row(pair, x, y) {
            return Some(first);
        }
    }
    None
}

// The first with this x and y.
fn first_in_row(pair: &Encounter, x: i64, y: i64) -> Option<Passage>
    requires pair { IsEncounter pair.now }
    requires x { nat_abs x ≤ 6 }
    requires y { nat_abs y ≤ 6 }
    ensures first { IfSome result (IsFirstPassage (IsInRow x y) pair.now) }
    ensures none { IfNone result (NoPassage (IsInRow x y) pair.now) }
{
    let span = span_of_starts(pair.before.z, pair.after.z, pair.other.z);
    for z in span.from..span.end {
        let start = P3 { x, y, z };
        if let Some(weights) = common_point(pair, start) {
            return Some(Passage { start, weights });
        }
    }
    None
}

// Weights of a point that the triangle and the other bond have in common, where that begins here
// and both its ends are clear of the first bond.
fn common_point(pair: &Encounter, start: P3) -> Option<Weights>
    requires pair { IsEncounter pair.now }
    requires start { extent_of start ≤ 6 }
    ensures sweeps { IfSome result (λ _. SweepsFrom pair.now start) }
    ensures shown { IfSome result (IsShown pair.now.before pair.now.after start pair.now.other) }
    ensures none { IfNone result (¬ (SweepsFrom pair.now start)) }
{
    let end = shifted(start, pair.other);
    if !is_clear(pair, start) || !is_clear(pair, end) {
        return None;
    }
    let origin = P3 { x: 0, y: 0, z: 0 };
    meets(origin, pair.before, pair.after, start, end)
}

// Whether a monomer at the place would overlap none of the three places of the first bond.
fn is_clear(pair: &Encounter, place: P3) -> bool
    requires pair { IsEncounter pair.now }
    requires place { extent_of place ≤ 9 }
    ensures { IsTrue result ↔ IsClear pair.now.before pair.now.after place }
{
    is_far(place)
        && is_far(plain_difference(pair.before, place))
        && is_far(plain_difference(pair.after, place))
}

// Whether the greatest absolute component is at least 2.
fn is_far(difference: P3) -> bool
    ensures { IsTrue result ↔ (2 ≤ extent_of difference) }
{
    let P3 { x, y, z } = difference;
    x < -1 || 1 < x || y < -1 || 1 < y || z < -1 || 1 < z
}

// Where along an axis the other bond may begin to reach the triangle's part of the axis.
fn span_of_starts(before: i64, after: i64, other: i64) -> Span
    requires before { nat_abs before ≤ 3 }
    requires after { nat_abs after ≤ 3 }
    requires other { nat_abs other ≤ 3 }
    ensures all_starts { (start : ℤ) → MeetAlong before after other start → (result.from ≤ℤ start) × (start <ℤ result.end) }
    ensures reach { (nat_abs result.from ≤ 6) × (nat_abs result.end ≤ 7) }
{
    Span {
        from: lowest(before, after) - highest(other, 0),
        end: highest(before, after) - lowest(other, 0) + 1,
    }
}

// The least of two numbers and 0, and the greatest.
fn lowest(a: i64, b: i64) -> i64
    requires a { nat_abs a ≤ 3 }
    requires b { nat_abs b ≤ 3 }
    ensures least { (result ≤ℤ pos 0) × (result ≤ℤ a) × (result ≤ℤ b) }
    ensures reach { negsuc 2 ≤ℤ result }
{
    a.min(b).min(0)
}

fn highest(a: i64, b: i64) -> i64
    requires a { nat_abs a ≤ 3 }
    requires b { nat_abs b ≤ 3 }
    ensures greatest { (pos 0 ≤ℤ result) × (a ≤ℤ result) × (b ≤ℤ result) }
    ensures reach { result ≤ℤ pos 3 }
{
    a.max(b).max(0)
}

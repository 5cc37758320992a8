ghost use Rattle.std.specs.Prelude.{◌≡◌, [], ◌∷◌, All, IfNone, IfSome, ◌*ℤ◌, ◌+ℤ◌};
ghost use Rattle.bfm_geom.specs.Stretch.{IsRuledOut, IsSmall, IsStretch, Narrows, opposite_of, value_at};

/// A point of the segment from c to d: the mean of its ends, with the weight p of c and q of d.
#[derive(Clone, Copy)]
pub(crate) struct SegmentPoint {
    pub p: i64,
    pub q: i64,
}

/// A number that changes evenly along the segment, by its values at the ends. As a condition on a
/// point it asks that the number is at least 0 there.
#[derive(Clone, Copy)]
pub(crate) struct Bound {
    pub at_c: i64,
    pub at_d: i64,
}

/// The part of the segment between two of its points.
#[derive(Clone, Copy)]
pub(crate) struct Stretch {
    pub from: SegmentPoint,
    pub to: SegmentPoint,
}

impl Bound {
    /// The bound that holds where the number is at most 0.
    pub fn opposite(self) -> Bound
        requires { IsSmall self.at_c self.at_d }
        ensures value { result ≡ opposite_of self }
        ensures size { IsSmall result.at_c result.at_d }
    {
        Bound {
            at_c: -self.at_c,
            at_d: -self.at_d,
        }
    }

    /// The number at a point, times the sum of the point's weights.
    pub fn value(self, point: SegmentPoint) -> i64
        requires bound { IsSmall self.at_c self.at_d }
        requires point { IsSmall point.p point.q }
        ensures { result ≡ value_at self point }
    {
        sum_of_products(point.p, self.at_c, point.q, self.at_d)
    }
}

impl Stretch {
    /// The segment from end to end.
    pub const WHOLE: Stretch = Stretch {
        from: SegmentPoint { p: 1, q: 0 },
        to: SegmentPoint { p: 0, q: 1 },
    };

    /// The part where all the bounds hold, if they hold together anywhere on the stretch.
    pub fn narrowed(self, bounds: &[Bound]) -> Option<Stretch>
        requires stretch { IsStretch self }
        requires bounds { All (λ g. IsSmall g.at_c g.at_d) bounds.now }
        ensures found { IfSome result (Narrows self bounds.now) }
        ensures ruled_out { IfNone result (IsRuledOut self bounds.now) }
    {
        let mut rest = self;
        for bound in bounds {
            rest = rest.clipped(*bound)?;
        }
        Some(rest)
    }

    // The part where one bound holds. An end where it fails gives way to the point where the number
    // is 0: the values at the ends of the segment are its weights, crosswise.
    fn clipped(self, bound: Bound) -> Option<Stretch>
        requires stretch { IsStretch self }
        requires bound { IsSmall bound.at_c bound.at_d }
        ensures found { IfSome result (Narrows self (bound ∷ [])) }
        ensures ruled_out { IfNone result (IsRuledOut self (bound ∷ [])) }
    {
        let at_from = bound.value(self.from);
        let at_to = bound.value(self.to);
        if at_from < 0 {
            if at_to < 0 {
                return None;
            }
            let from = SegmentPoint {
                p: bound.at_d,
                q: -bound.at_c,
            };
            return Some(Stretch { from, ..self });
        }
        if at_to < 0 {
            let to = SegmentPoint {
                p: -bound.at_d,
                q: bound.at_c,
            };
            return Some(Stretch { to, ..self });
        }
        Some(self)
    }
}

// a b + c d.
fn sum_of_products(a: i64, b: i64, c: i64, d: i64) -> i64
    requires left { IsSmall a c }
    requires right { IsSmall b d }
    ensures { result ≡ a *ℤ b +ℤ c *ℤ d }
{
    a * b + c * d
}

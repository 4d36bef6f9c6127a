ghost use Rattle.std.specs.Prelude.{◌≡◌, ℕ, ◌<◌, ◌≤◌, ◌*◌, ◌^◌, ◌↔◌, unsigned_abs, IsTrue, IsNone, IfSome};
ghost use Rattle.std.specs.declared.cmp.Ordering.TheVariants.{Equal};
ghost use Rattle.plan_spec.specs.Vector.{Same};
ghost use Rattle.plan_grid.specs.Spot.{spot_seen, IsWithin};
ghost use Rattle.plan_grid.specs.Bounds.{IsInRange, IsBounded, IsBeyond};
ghost use Rattle.plan_grid.specs.Fraction.{IsLcm, point_at};
ghost use Rattle.plan_grid.specs.Order.{IsPointOrder};

use crate::bounds::{MOST_COORDINATE, MOST_WEIGHT};
use crate::gcd::{divisor, quotient};
use crate::order::fraction_order;
use crate::ratio::{Ratio, common_denominator};
use crate::spot::Spot;
use std::cmp::Ordering;
use std::marker::Model;

/// A rational point at the position `(x / w, y / w)`, in lowest terms: no number above 1 divides all three,
/// `1 <= w <= 2^51`, and `x` and `y` are at most `2046 * w` in absolute value. Points
/// are ordered by x, then by y.
#[derive(Clone, Copy, Debug)]
pub struct Point {
    x: i64,
    y: i64,
    w: i64,
}

impl Model for Point {
    ghost use Rattle.plan_exact.specs.Vectors.{Vector};
    ghost use Rattle.plan_grid.specs.Bounds.{IsInRange};

    ghost Value = { Vector };

    ghost view = { λ p. record { x = p.x; y = p.y; w = p.w } };

    ghost invariant = { λ p. IsInRange (record { x = p.x; y = p.y; w = p.w }) };

    ghost inverse = { λ v. record { x = v.x; y = v.y; w = v.w } };
}

impl PartialEq for Point {
    ghost use Rattle.plan_grid.specs.PointOrder.{point_eq, point_eq_equivalence};
    ghost use Rattle.std.specs.Cmp.{partial_equiv_from_equiv};

    ghost eq = { point_eq };

    ghost laws = { partial_equiv_from_equiv point_eq_equivalence };

    fn eq(&self, other: &Point) -> bool {
        self.cmp(other).is_eq()
    }
}

impl Eq for Point {
    ghost use Rattle.plan_grid.specs.PointOrder.{point_eq_equivalence};

    ghost laws = { point_eq_equivalence };
}

impl PartialOrd for Point {
    ghost use Rattle.plan_grid.specs.PointOrder.{point_cmp, point_order};
    ghost use Rattle.std.specs.Ordering.{as_partial_cmp};

    ghost partial_cmp = { as_partial_cmp point_cmp };

    ghost laws = { point_order };

    fn partial_cmp(&self, other: &Point) -> Option<Ordering> {
        Some(self.cmp(other))
    }
}

impl Ord for Point {
    ghost use Rattle.plan_grid.specs.PointOrder.{point_cmp, point_cmp_total};
    ghost use Rattle.std.proofs.Common.{refl};

    ghost cmp = { point_cmp };

    ghost total = { point_cmp_total };

    ghost matches_partial_cmp = { λ _ _. refl };

    ghost matches_eq = { λ _ _. refl };

    fn cmp(&self, other: &Point) -> Ordering {
        prove!(self.w > 0);
        prove!(other.w > 0);
        compare(self, other)
    }
}

impl Point {
    /// The point at `(x / w, y / w)`, in lowest terms; None where it is beyond what a `Point` holds.
    pub fn new(x: i64, y: i64, w: i64) -> Option<Point>
        ensures none { IsNone result ↔ IsBeyond x y w }
        ensures same { IfSome result (λ p. Same p (record { x = x; y = y; w = w })) }
        ensures in_range { IfSome result IsInRange }
    {
        if w < 1 || w.unsigned_abs() > MOST_WEIGHT || is_beyond(x, w) || is_beyond(y, w) {
            return None;
        }
        Some(Point::lowest(x, y, w))
    }

    /// The point with the coordinates `x` and `y`. The least common multiple of their denominators must be at most 2^51.
    pub fn at(x: Ratio, y: Ratio) -> Point
        requires { (l : ℕ) → IsLcm (unsigned_abs x.den) (unsigned_abs y.den) l → l ≤ MOST_WEIGHT }
        ensures same { Same result (point_at x y) }
        ensures in_range { IsInRange result }
    {
        let l = common_denominator(x, y);
        Point {
            x: x.over(l).get() as i64,
            y: y.over(l).get() as i64,
            w: l as i64,
        }
    }

    // The point at (`x / w`, `y / w`), in lowest terms.
    fn lowest(x: i64, y: i64, w: i64) -> Point
        requires { IsBounded MOST_WEIGHT (record { x = x; y = y; w = w }) }
        ensures same { Same result (record { x = x; y = y; w = w }) }
        ensures in_range { IsInRange result }
    {
        let g = divisor(x, y, w);
        Point {
            x: quotient(x, g),
            y: quotient(y, g),
            w: quotient(w, g),
        }
    }

    /// The point at a spot whose coordinates are at most 2046 in absolute value.
    pub fn of(spot: Spot) -> Point
        requires { IsWithin MOST_COORDINATE spot }
        ensures { result ≡ spot_seen spot }
    {
        Point {
            x: i64::from(spot.x),
            y: i64::from(spot.y),
            w: 1,
        }
    }

    /// The numerator of its x, over `w`: at most `2046 * w` in absolute value.
    pub fn x(&self) -> i64
        ensures value { result ≡ self.now.x }
        ensures in_range { IsInRange self.now }
    {
        self.x
    }

    /// The numerator of its y, over `w`: at most `2046 * w` in absolute value.
    pub fn y(&self) -> i64
        ensures value { result ≡ self.now.y }
        ensures in_range { IsInRange self.now }
    {
        self.y
    }

    /// Its weight, the least denominator that serves both coordinates: from 1 to 2^51.
    pub fn w(&self) -> i64
        ensures value { result ≡ self.now.w }
        ensures in_range { IsInRange self.now }
    {
        self.w
    }
}

// Whether `|x| > 2046 * w`.
fn is_beyond(x: i64, w: i64) -> bool
    requires { unsigned_abs w ≤ MOST_WEIGHT }
    ensures { IsTrue result ↔ (MOST_COORDINATE * unsigned_abs w < unsigned_abs x) }
{
    x.unsigned_abs() > u64::from(MOST_COORDINATE) * w.unsigned_abs()
}

/// How `a` stands to `b`, by x, then by y.
pub fn compare(a: &Point, b: &Point) -> Ordering
    ensures order { IsPointOrder result a.now b.now }
    ensures equal { (result ≡ Equal) ↔ (a.now ≡ b.now) }
{
    match fraction_order(a.x, a.w, b.x, b.w) {
        Ordering::Equal => fraction_order(a.y, a.w, b.y, b.w),
        by_x => by_x,
    }
}

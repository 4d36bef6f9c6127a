ghost use Rattle.std.specs.Prelude.{◌≡◌, ◌-ℤ◌, ◌*ℤ◌, ◌≤ℤ◌, ◌<ℤ◌, ◌<◌, ◌≤◌, ◌^◌, ◌↔◌, IsTrue, unsigned_abs};
ghost use Rattle.plan_spec.specs.Segment.{On};
ghost use Rattle.plan_grid.specs.Fraction.{SameValue, IsRatio, height_of, point_at};
ghost use Rattle.plan_grid.specs.Segment.{IsBetween, IsInBox};
ghost use Rattle.plan_grid.specs.Spot.{spot_seen, edge_seen, IsWithin};

use crate::bounds::{MOST_COORDINATE, MOST_WEIGHT};
use crate::point::Point;
use crate::ratio::Ratio;
use crate::sides::orientation_at;
use crate::spot::Spot;
use plan_exact::Whole;

/// Whether `z` is on the segment from `a` to `b`, its ends included; where `a` is `b`, whether it is that point. The
/// spots may be any.
pub fn on_segment(a: Spot, b: Spot, z: &Point) -> bool
    ensures { IsTrue result ↔ On (edge_seen a b) z.now }
{
    orientation_at(a, b, z).is_eq() && is_in_box(a, b, z)
}

/// The y of the segment from `a` to `b` at `x`, which must be between the two, with a denominator below 2^26. `a` must
/// be left of `b`, with coordinates of at most 2046 in absolute value.
pub fn height(a: Spot, b: Spot, x: Ratio) -> Ratio
    requires rising { a.x <ℤ b.x }
    requires from { (a.x *ℤ x.den) ≤ℤ x.num }
    requires to { x.num ≤ℤ (b.x *ℤ x.den) }
    requires a_bounded { IsWithin MOST_COORDINATE a }
    requires b_bounded { IsWithin MOST_COORDINATE b }
    requires den_bounded { unsigned_abs x.den < 2 ^ 26 }
    ensures on_segment { On (edge_seen a b) (point_at x result) }
    ensures value { SameValue result (height_of (spot_seen a) (spot_seen b) x) }
    ensures in_range { IsRatio result }
{
    let past = way_to(a.x, x);
    let left = way_to(b.x, x).negated();
    let rise = Whole::from(a.y)
        .times(left)
        .plus(Whole::from(b.y).times(past));
    Ratio::new(rise.get(), past.plus(left).get())
}

// The way from `a` to `x`, times the denominator of `x`.
fn way_to(a: i32, x: Ratio) -> Whole
    requires bounded { unsigned_abs a ≤ MOST_COORDINATE }
    requires den_bounded { unsigned_abs x.den < 2 ^ 26 }
    ensures value { result ≡ x.num -ℤ a *ℤ x.den }
    ensures size { unsigned_abs result < 2 ^ 38 }
    ensures in_range { IsRatio x }
{
    x.whole_num().minus(Whole::from(a).times(x.whole_den()))
}

// Whether `z` is in the box of `a` and `b`, its sides included.
fn is_in_box(a: Spot, b: Spot, z: &Point) -> bool
    ensures { IsTrue result ↔ IsInBox (spot_seen a) (spot_seen b) z.now }
{
    let w = Whole::from(z.w());
    is_between(a.x, b.x, z.x(), w) && is_between(a.y, b.y, z.y(), w)
}

// Whether `z / w` is between `a` and `b`, which may come in either order.
fn is_between(a: i32, b: i32, z: i64, w: Whole) -> bool
    requires { unsigned_abs w ≤ MOST_WEIGHT }
    ensures { IsTrue result ↔ IsBetween (a *ℤ w) (b *ℤ w) z }
{
    let z = Whole::from(z);
    let a = Whole::from(a).times(w);
    let b = Whole::from(b).times(w);
    is_within(a, z, b) || is_within(b, z, a)
}

// Whether `low <= z <= high`.
fn is_within(low: Whole, z: Whole, high: Whole) -> bool
    ensures { IsTrue result ↔ ((low ≤ℤ z) × (z ≤ℤ high)) }
{
    low.is_at_most(z) && z.is_at_most(high)
}

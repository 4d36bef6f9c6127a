ghost use Rattle.std.specs.Prelude.{◌⊎◌, ◌↔◌, ◌*ℤ◌, pos, IsTrue};
ghost use Rattle.plan_spec.specs.Vector.{LeX, LtX, LeY, LtY};
ghost use Rattle.plan_spec.specs.Frame.{OnOrBeyond};
ghost use Rattle.plan_grid.specs.Frame.{frame_seen, IsPast};
ghost use Rattle.plan_grid.specs.Order.{IsOrder};
ghost use Rattle.plan_grid.specs.Spot.{spot_seen};

use crate::order::fraction_order;
use crate::point::Point;
use crate::spot::Spot;
use std::cmp::Ordering;

/// An axis-parallel rectangle, by its lower left and its upper right corner. As a type it takes any two spots; those of
/// a document have the first strictly left of and below the second.
#[derive(Clone, Copy, Debug, PartialEq, Eq)]
pub struct Frame {
    pub low: Spot,
    pub high: Spot,
}

impl Frame {
    /// Whether the spot is on a side of the frame or beyond it.
    pub fn is_on_or_beyond(self, p: Spot) -> bool
        ensures { IsTrue result ↔ OnOrBeyond (frame_seen self) (spot_seen p) }
    {
        is_left_or_below(p, self.low) || is_left_or_below(self.high, p)
    }

    /// Whether the point is on a side of the frame or beyond it.
    pub fn is_on_or_beyond_at(self, z: &Point) -> bool
        ensures { IsTrue result ↔ OnOrBeyond (frame_seen self) z.now }
    {
        is_low(z, self.low) || is_high(z, self.high)
    }

    /// Whether the point is strictly beyond a side of the frame.
    pub fn is_past(self, z: &Point) -> bool
        ensures { IsTrue result ↔ IsPast (frame_seen self) z.now }
    {
        is_left(z, self.low)
            || is_below(z, self.low)
            || is_right(z, self.high)
            || is_above(z, self.high)
    }
}

// Whether `p` is left of `q` or below it, or level with it either way.
fn is_left_or_below(p: Spot, q: Spot) -> bool
    ensures { IsTrue result
        ↔ (LeX (spot_seen p) (spot_seen q) ⊎ LeY (spot_seen p) (spot_seen q)) }
{
    p.x <= q.x || p.y <= q.y
}

// Whether `z` is left of `p` or below it, or level with it either way.
fn is_low(z: &Point, p: Spot) -> bool
    ensures { IsTrue result
        ↔ (LeX z.now (spot_seen p) ⊎ LeY z.now (spot_seen p)) }
{
    !(is_right(z, p) && is_above(z, p))
}

// Whether `z` is right of `p` or above it, or level with it either way.
fn is_high(z: &Point, p: Spot) -> bool
    ensures { IsTrue result
        ↔ (LeX (spot_seen p) z.now ⊎ LeY (spot_seen p) z.now) }
{
    !(is_left(z, p) && is_below(z, p))
}

// How the x of `z` stands to that of `p`.
fn x_order(z: &Point, p: Spot) -> Ordering
    ensures { IsOrder result (z.now.x *ℤ pos 1) (p.x *ℤ z.now.w) }
{
    fraction_order(z.x(), z.w(), i64::from(p.x), 1)
}

// How the y of `z` stands to that of `p`.
fn y_order(z: &Point, p: Spot) -> Ordering
    ensures { IsOrder result (z.now.y *ℤ pos 1) (p.y *ℤ z.now.w) }
{
    fraction_order(z.y(), z.w(), i64::from(p.y), 1)
}

// Whether `z` is left of `p`.
fn is_left(z: &Point, p: Spot) -> bool
    ensures { IsTrue result ↔ LtX z.now (spot_seen p) }
{
    x_order(z, p).is_lt()
}

// Whether `z` is right of `p`.
fn is_right(z: &Point, p: Spot) -> bool
    ensures { IsTrue result ↔ LtX (spot_seen p) z.now }
{
    x_order(z, p).is_gt()
}

// Whether `z` is below `p`.
fn is_below(z: &Point, p: Spot) -> bool
    ensures { IsTrue result ↔ LtY z.now (spot_seen p) }
{
    y_order(z, p).is_lt()
}

// Whether `z` is above `p`.
fn is_above(z: &Point, p: Spot) -> bool
    ensures { IsTrue result ↔ LtY (spot_seen p) z.now }
{
    y_order(z, p).is_gt()
}

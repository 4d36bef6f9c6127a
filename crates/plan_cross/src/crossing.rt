ghost use Rattle.std.specs.Prelude.{◌≡◌, pos, ◌*ℤ◌, ◌<ℤ◌, ◌≤◌, ◌↔◌, IsTrue, map, unsigned_abs};
ghost use Rattle.plan_spec.specs.Vector.{LtX, turn};
ghost use Rattle.plan_spec.specs.Parity.{over, over_from, parity};
ghost use Rattle.plan_grid.specs.Spot.{spot_seen, IsWithin};
ghost use Rattle.plan_cross.specs.Segment.{segment_seen};

use crate::segment::Segment;
use plan_exact::Whole;
use plan_grid::{MOST_COORDINATE, Point, Spot, side_of};

/// Whether the segment stands over `z`, whose coordinates are at most 2046 in absolute value: strictly above it, from
/// the left end's x to before the right end's, so that a point under a common end of two segments counts once. A
/// vertical segment stands over nothing.
pub fn over(segment: &Segment, z: Spot) -> bool
    requires { IsWithin MOST_COORDINATE z }
    ensures { result ≡ over (segment_seen segment.now) (spot_seen z) }
{
    over_from(&segment.a, &segment.b, z) || over_from(&segment.b, &segment.a, z)
}

/// Whether an odd number of the segments stands over `z`, whose coordinates are at most 2046 in absolute value.
pub fn parity(segments: &[Segment], z: Spot) -> bool
    requires { IsWithin MOST_COORDINATE z }
    ensures { result ≡ parity (map segment_seen segments.now) (spot_seen z) }
{
    let mut odd = false;
    for segment in segments {
        odd ^= over(segment, z);
    }
    odd
}

// Whether the segment from its left end `a` to `b` stands over `z`.
fn over_from(a: &Point, b: &Point, z: Spot) -> bool
    requires { IsWithin MOST_COORDINATE z }
    ensures { result ≡ over_from a.now b.now (spot_seen z) }
{
    !is_right(a, z) && is_right(b, z) && is_above(a, b, z)
}

// Whether `p` is right of `z`.
fn is_right(p: &Point, z: Spot) -> bool
    requires { unsigned_abs z.x ≤ MOST_COORDINATE }
    ensures { IsTrue result ↔ LtX (spot_seen z) p.now }
{
    weighted(z.x, p) < Whole::from(p.x())
}

// Whether the line from `a` to its right end `b` is above `z`.
fn is_above(a: &Point, b: &Point, z: Spot) -> bool
    requires { IsWithin MOST_COORDINATE z }
    ensures { IsTrue result ↔ (turn a.now b.now (spot_seen z) <ℤ pos 0) }
{
    side_of(a, b, z).is_lt()
}

// `z` times the weight of `p`.
fn weighted(z: i32, p: &Point) -> Whole
    requires { unsigned_abs z ≤ MOST_COORDINATE }
    ensures { result ≡ z *ℤ p.now.w }
{
    Whole::from(z).times(Whole::from(p.w()))
}

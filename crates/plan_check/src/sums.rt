ghost use Rattle.std.specs.Prelude.{◌↔◌, IsTrue, All, Any};
ghost use Rattle.plan_spec.specs.Segment.{AnyOn, segment};
ghost use Rattle.plan_spec.specs.Polygon.{Inside};
ghost use Rattle.plan_grid.specs.Spot.{spots_seen};
ghost use Rattle.plan_convex.specs.Boxes.{Encloses};
ghost use Rattle.plan_convex.specs.Piece.{sums_seen};
ghost use Rattle.plan_check.specs.Boxes.{AreBoxes, IsWholeBox, HoldsBox, HoldsBoth, IsLowerLeft};

use crate::whole_box::whole_box;
use plan_convex::{Convex, are_apart};
use plan_grid::{Frame, Point, Spot};

/// Whether some sum has a point of the segment from `p` to `q`. A sum whose box is apart from the segment's is passed
/// over.
pub fn some_meets(sums: &[Convex], boxes: &[Frame], p: &Point, q: &Point) -> bool
    requires { AreBoxes sums.now boxes.now }
    ensures { IsTrue result
        ↔ Any (λ vs. AnyOn (Inside vs) (segment p.now q.now)) (sums_seen sums.now) }
{
    let reach = whole_box(p, q);
    for i in 0..sums.len() {
        if meets(&sums[i], boxes[i], reach, p, q) {
            return true;
        }
    }
    false
}

/// Whether some one sum has both ends of the segment from `p` to `q`. A sum whose box has not both is passed over.
pub fn one_holds(sums: &[Convex], boxes: &[Frame], p: &Point, q: &Point) -> bool
    requires { AreBoxes sums.now boxes.now }
    ensures { IsTrue result ↔ Any (HoldsBoth p.now q.now) (sums_seen sums.now) }
{
    let reach = whole_box(p, q);
    for i in 0..sums.len() {
        if holds_both(&sums[i], boxes[i], reach, p, q) {
            return true;
        }
    }
    false
}

// Whether the sum with this box has a point of the segment from `p` to `q` with that box.
fn meets(sum: &Convex, bounds: Frame, reach: Frame, p: &Point, q: &Point) -> bool
    requires bounds { All (Encloses bounds) sum.now }
    requires reach { IsWholeBox p.now q.now reach }
    ensures { IsTrue result ↔ AnyOn (Inside (spots_seen sum.now)) (segment p.now q.now) }
{
    prove!(sum.spots().len() >= 3);
    prove!(p.w() > 0);
    prove!(q.w() > 0);
    if are_apart(reach, bounds) {
        return false;
    }
    sum.meets(p, q)
}

// Whether the sum with this box has both ends of the segment from `p` to `q` with that box.
fn holds_both(sum: &Convex, bounds: Frame, reach: Frame, p: &Point, q: &Point) -> bool
    requires bounds { All (Encloses bounds) sum.now }
    requires reach { IsWholeBox p.now q.now reach }
    ensures { IsTrue result ↔ HoldsBoth p.now q.now (spots_seen sum.now) }
{
    prove!(sum.spots().len() >= 3);
    prove!(p.w() > 0);
    prove!(q.w() > 0);
    if !has_box(bounds, reach) {
        return false;
    }
    if !sum.holds(p) {
        return false;
    }
    sum.holds(q)
}

// Whether the one box has all of the other.
fn has_box(f: Frame, g: Frame) -> bool
    ensures { IsTrue result ↔ HoldsBox f g }
{
    is_lower_left(f.low, g.low) && is_lower_left(g.high, f.high)
}

// Whether `p` is not right of `q`, and not above it.
fn is_lower_left(p: Spot, q: Spot) -> bool
    ensures { IsTrue result ↔ IsLowerLeft p q }
{
    p.x <= q.x && p.y <= q.y
}

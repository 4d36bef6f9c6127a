ghost use Rattle.std.specs.Prelude.{◌<◌, ◌↔◌, length, IsTrue};
ghost use Rattle.plan_convex.specs.Boxes.{AreApart, Encloses, IsBox, IsLeftOrBelow};

use plan_grid::{Frame, Spot};

/// The bounding box of the spots, of which there is one at least.
pub fn bounds(spots: &[Spot]) -> Frame
    requires { 0 < length spots.now }
    ensures { IsBox spots.now result }
{
    let mut low = spots[0];
    let mut high = spots[0];
    for spot in spots {
        low = low.least(*spot);
        high = high.greatest(*spot);
    }
    Frame { low, high }
}

/// The bounding box of the segment from `a` to `b`.
pub fn edge_bounds(a: Spot, b: Spot) -> Frame
    ensures first { Encloses result a }
    ensures second { Encloses result b }
{
    Frame {
        low: a.least(b),
        high: a.greatest(b),
    }
}

/// Whether one of the boxes is strictly beyond a side of the other.
pub fn are_apart(f: Frame, g: Frame) -> bool
    ensures { IsTrue result ↔ AreApart f g }
{
    is_left_or_below(f.high, g.low) | is_left_or_below(g.high, f.low)
}

// Whether `p` is strictly left of `q`, or strictly below it.
fn is_left_or_below(p: Spot, q: Spot) -> bool
    ensures { IsTrue result ↔ IsLeftOrBelow p q }
{
    (p.x < q.x) | (p.y < q.y)
}

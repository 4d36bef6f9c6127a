ghost use Rattle.std.specs.Prelude.{◌≡◌, ◌↔◌, IsTrue};
ghost use Rattle.plan_spec.specs.Vector.{Before};
ghost use Rattle.plan_spec.specs.Polygon.{IsFromLeast};
ghost use Rattle.plan_grid.specs.Spot.{spot_seen, spots_seen};
ghost use Rattle.plan_grid.specs.Triangle.{IsTriangle, IsCounterclockwise, IsRotation, counterclockwise_triangle};

use crate::sides::orientation;
use crate::spot::Spot;

/// The corners of a triangle counterclockwise, from the first one on. It must not be flat, with coordinates of at most
/// 1023 in absolute value.
pub fn counterclockwise(corners: [Spot; 3]) -> [Spot; 3]
    requires { IsTriangle corners }
    ensures value { spots_seen result ≡ counterclockwise_triangle (spots_seen corners) }
    ensures counterclockwise { IsCounterclockwise result }
{
    let [a, b, c] = corners;
    if orientation(a, b, c).is_lt() {
        [a, c, b]
    } else {
        [a, b, c]
    }
}

/// The corners of a triangle in their order, from the least one on, by x, then by y. It must not be flat, with
/// coordinates of at most 1023 in absolute value.
pub fn from_least(corners: [Spot; 3]) -> [Spot; 3]
    requires { IsTriangle corners }
    ensures rotation { IsRotation corners result }
    ensures least { IsFromLeast (spots_seen result) }
{
    let [a, b, c] = corners;
    if is_first(a, b, c) {
        [a, b, c]
    } else if b.is_before(c) {
        [b, c, a]
    } else {
        [c, a, b]
    }
}

// Whether `p` comes before both `q` and `r`.
fn is_first(p: Spot, q: Spot, r: Spot) -> bool
    ensures { IsTrue result
        ↔ (Before (spot_seen p) (spot_seen q) × Before (spot_seen p) (spot_seen r)) }
{
    p.is_before(q) && p.is_before(r)
}

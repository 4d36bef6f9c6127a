ghost use Rattle.std.specs.Prelude.{◌≡◌, pos, ◌<◌, length, IfSome, option_map, int_le};
ghost use Rattle.plan_spec.specs.Vector.{turn};
ghost use Rattle.plan_spec.specs.Triangulation.{part_at_best, in_triangle, farther};
ghost use Rattle.plan_grid.specs.Spot.{spot_seen, spots_seen};
ghost use Rattle.plan_poly.specs.Part.{part_at};
ghost use Rattle.plan_tri.specs.Farthest.{farther_number};

use plan_grid::{Spot, orientation, side};

/// The number of the spot in the closed triangle of `v`, `w` and `u`, which turns left, that is farthest from the line
/// through `w` and `u`; the first of them where several are farthest, and none where no spot is in the triangle.
pub fn farthest(v: Spot, w: Spot, u: Spot, spots: &[Spot]) -> Option<usize>
    ensures within { IfSome result (λ k. k < length spots.now) }
    ensures best { part_at_best (in_triangle (spot_seen v) (spot_seen w) (spot_seen u)) (farther (spot_seen w) (spot_seen u))
        (spots_seen spots.now)
        ≡ option_map (part_at (spots_seen spots.now)) result }
{
    let mut found = None;
    for i in (0..spots.len()).rev() {
        if is_in_triangle(v, w, u, spots[i]) {
            found = Some(farther_one(w, u, spots, i, found));
        }
    }
    found
}

// The number of the farther of the two spots from the line through `w` and `u`: `i` where they are equally far, or where
// there is no other.
fn farther_one(w: Spot, u: Spot, spots: &[Spot], i: usize, other: Option<usize>) -> usize
    requires within { i < length spots.now }
    requires other_within { IfSome other (λ k. k < length spots.now) }
    ensures { result ≡ farther_number (spot_seen w) (spot_seen u) spots.now i other }
{
    match other {
        Some(k) if is_farther(w, u, spots[k], spots[i]) => k,
        _ => i,
    }
}

// Whether `z` is in the closed triangle of `v`, `w` and `u`, which turns left.
fn is_in_triangle(v: Spot, w: Spot, u: Spot, z: Spot) -> bool
    ensures { result ≡ in_triangle (spot_seen v) (spot_seen w) (spot_seen u) (spot_seen z) }
{
    is_on_or_left(v, w, z) && is_on_or_left(w, u, z) && is_on_or_left(u, v, z)
}

// Whether `z` is on the line from `a` to `b` or left of it.
fn is_on_or_left(a: Spot, b: Spot, z: Spot) -> bool
    ensures { result ≡ int_le (pos 0) (turn (spot_seen a) (spot_seen b) (spot_seen z)) }
{
    orientation(a, b, z).is_ge()
}

// Whether `y` is farther than `x` from the line through `w` and `u`, on its left.
fn is_farther(w: Spot, u: Spot, y: Spot, x: Spot) -> bool
    ensures { result ≡ farther (spot_seen w) (spot_seen u) (spot_seen y) (spot_seen x) }
{
    side(w, u, x) < side(w, u, y)
}

ghost use Rattle.std.specs.Prelude.{◌≡◌, ◌⊎◌, ℕ, length, All, IfOk, MatchOption, Decides};
ghost use Rattle.plan_grid.specs.Spot.{spot_seen, spots_seen, IsWithin};
ghost use Rattle.plan_convex.specs.Boxes.{Encloses};
ghost use Rattle.plan_convex.specs.Piece.{sums_seen};
ghost use Rattle.plan_convex.specs.Span.{IsOutside};
ghost use Rattle.plan_bound.specs.Cover.{AreBoxes, IsCoverOf};
ghost use Rattle.plan_bound.specs.Edge.{AreCovered, Covered};

use plan_convex::{Convex, Part, are_apart, edge_bounds};
use plan_grid::{Frame, MOST_COORDINATE, Spot};
use std::alloc::{AllocError, Global};

/// What sums cover of an edge: open parts, one for each sum that covers a part of it, and whether they cover its ends.
#[derive(Drop)]
pub struct Cover {
    pub parts: Vec<Part>,
    pub first: bool,
    pub last: bool,
}

/// What the sums, whose boxes are given, cover of the edge from `a` to `b`.
pub fn cover_of(
    alloc: Global,
    sums: &[Convex],
    boxes: &[Frame],
    a: Spot,
    b: Spot,
) -> Result<Cover, AllocError>
    requires a_bounded { IsWithin MOST_COORDINATE a }
    requires b_bounded { IsWithin MOST_COORDINATE b }
    requires boxes { AreBoxes sums.now boxes.now }
    ensures parts { IfOk result (λ c. AreCovered (sums_seen sums.now) (spot_seen a) (spot_seen b) c.parts.items) }
    ensures first { IfOk result (λ c. Decides c.first (Covered (sums_seen sums.now) (spot_seen a))) }
    ensures last { IfOk result (λ c. Decides c.last (Covered (sums_seen sums.now) (spot_seen b))) }
{
    let edge_box = edge_bounds(a, b);
    let mut parts = Vec::new(alloc);
    let mut first = false;
    let mut last = false;
    for i in 0..sums.len() {
        if let Some(part) = covered(&sums[i], boxes[i], edge_box, a, b) {
            parts.push(part)?;
            first = first | sums[i].covers(a);
            last = last | sums[i].covers(b);
        }
    }
    Ok(Cover { parts, first, last })
}

// What one sum covers of the edge. A sum whose box and that of the edge are apart covers nothing of it.
fn covered(sum: &Convex, bounds: Frame, edge_box: Frame, a: Spot, b: Spot) -> Option<Part>
    requires a_bounded { IsWithin MOST_COORDINATE a }
    requires b_bounded { IsWithin MOST_COORDINATE b }
    requires bounds { All (Encloses bounds) sum.now }
    requires first { Encloses edge_box a }
    requires last { Encloses edge_box b }
    ensures { MatchOption result
        (IsOutside (spot_seen a) (spot_seen b) (spots_seen sum.now))
        (IsCoverOf (spot_seen a) (spot_seen b) (spots_seen sum.now)) }
{
    prove!(sum.spots().len() >= 3);
    if are_apart(edge_box, bounds) {
        return None;
    }
    let span = sum.clip(a, b)?;
    Some(span.part())
}

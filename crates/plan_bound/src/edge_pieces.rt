ghost use Rattle.std.specs.Prelude.{◌≡◌, ◌⊎◌, ◌↔◌, ◌<◌, ◌<ℤ◌, length, All, IfOk, IsTrue};
ghost use Rattle.std.specs.List.{filter, AllZip};
ghost use Rattle.plan_spec.specs.Vector.{Before, Same};
ghost use Rattle.plan_spec.specs.Boundary.{boundary};
ghost use Rattle.plan_grid.specs.Frame.{frame_seen};
ghost use Rattle.plan_grid.specs.Spot.{spot_seen, IsWithin};
ghost use Rattle.plan_convex.specs.Parameter.{AtMost};
ghost use Rattle.plan_convex.specs.Piece.{sums_seen};
ghost use Rattle.plan_bound.specs.Cover.{AreBoxes};
ghost use Rattle.plan_bound.specs.Edge.{stays};
ghost use Rattle.plan_bound.specs.Pieces.{IsPieceOf, ArePiecesOf, IsProperRoom};

use crate::cover::cover_of;
use crate::gaps::gaps;
use crate::in_room::part_in_room;
use crate::sorted::sort_by_start;
use plan_convex::{Convex, Parameter, Part, Piece, edge_of};
use plan_grid::{Frame, MOST_COORDINATE, Spot};
use std::alloc::{AllocError, Global};

/// The pieces of the edge of that number, in their order along it.
pub fn pieces_of(
    alloc: Global,
    sums: &[Convex],
    boxes: &[Frame],
    room: Frame,
    edge: u32,
) -> Result<Vec<Piece>, AllocError>
    requires edge { edge < length (boundary (sums_seen sums.now) (frame_seen room)) }
    requires low { IsWithin MOST_COORDINATE room.low }
    requires high { IsWithin MOST_COORDINATE room.high }
    requires boxes { AreBoxes sums.now boxes.now }
    ensures { IfOk result (λ v. ArePiecesOf (sums_seen sums.now) (frame_seen room) edge v.items) }
{
    if !is_proper(room) {
        return Ok(Vec::new(alloc));
    }
    let (p, q) = edge_of(sums, room, edge);
    let (a, b) = ordered(p, q);
    let within = part_in_room(room, a, b);
    let mut cover = cover_of(alloc, sums, boxes, a, b)?;
    sort_by_start(&mut cover.parts);
    let left = gaps(alloc, within, &cover.parts)?;
    kept(alloc, edge, a, b, &left, cover.first, cover.last)
}

// Whether the room has width and height.
fn is_proper(room: Frame) -> bool
    ensures { IsTrue result ↔ IsProperRoom room }
{
    room.low.x < room.high.x && room.low.y < room.high.y
}

// The two, the lesser one first.
fn ordered(p: Spot, q: Spot) -> (Spot, Spot)
    requires { ¬ (Same (spot_seen p) (spot_seen q)) }
    ensures onward { Before (spot_seen result.0) (spot_seen result.1) }
    ensures same { ((result.0 ≡ p) × (result.1 ≡ q)) ⊎ ((result.0 ≡ q) × (result.1 ≡ p)) }
{
    if q.is_before(p) { (q, p) } else { (p, q) }
}

// The gaps as pieces, but for one that is a covered end of the edge.
fn kept(
    alloc: Global,
    edge: u32,
    a: Spot,
    b: Spot,
    gaps: &[Part],
    first: bool,
    last: bool,
) -> Result<Vec<Piece>, AllocError>
    requires a_bounded { IsWithin MOST_COORDINATE a }
    requires b_bounded { IsWithin MOST_COORDINATE b }
    requires onward { Before (spot_seen a) (spot_seen b) }
    requires rising { All (λ g. AtMost g.from g.to) gaps.now }
    ensures { IfOk result
        (λ v. AllZip (IsPieceOf edge (spot_seen a) (spot_seen b)) (filter (stays first last) gaps.now) v.items) }
{
    let mut found = Vec::new(alloc);
    for gap in gaps {
        if stays(*gap, first, last) {
            found.push(piece(edge, a, b, *gap))?;
        }
    }
    Ok(found)
}

// Whether the gap is not a covered end of the edge.
fn stays(gap: Part, first: bool, last: bool) -> bool
    ensures { result ≡ stays first last gap }
{
    !(first && gap.to.is_at_most(Parameter::zero()))
        && !(last && Parameter::one().is_at_most(gap.from))
}

// The gap as a piece.
fn piece(edge: u32, a: Spot, b: Spot, gap: Part) -> Piece
    requires a_bounded { IsWithin MOST_COORDINATE a }
    requires b_bounded { IsWithin MOST_COORDINATE b }
    requires onward { Before (spot_seen a) (spot_seen b) }
    requires rising { AtMost gap.from gap.to }
    ensures { IsPieceOf edge (spot_seen a) (spot_seen b) gap result }
{
    Piece {
        edge,
        a: gap.from.along(a, b),
        b: gap.to.along(a, b),
    }
}

ghost use Rattle.std.specs.Prelude.{◌≡◌, ◌*ℤ◌, int_le, ◌<◌, ◌^◌, ◌↔◌, All, IfOk, IsTrue, length};
ghost use Rattle.plan_spec.specs.Boundary.{boundary};
ghost use Rattle.plan_spec.specs.Segment.{HasPoints};
ghost use Rattle.plan_spec.specs.Vector.{LeX, SameX};
ghost use Rattle.plan_grid.specs.Frame.{frame_seen};
ghost use Rattle.plan_grid.specs.Order.{IsOrder};
ghost use Rattle.plan_grid.specs.Spot.{IsWithin};
ghost use Rattle.plan_convex.specs.Piece.{sums_seen};
ghost use Rattle.plan_slab.specs.Bars.{AreBars, IsOnEdge, lasts};
ghost use Rattle.plan_slab.specs.Seen.{line_seen};

use crate::numbers::{den, num, point_x, weight};
use crate::strand::{Strand, rightward};
use plan_convex::{Convex, Piece, edge_of};
use plan_grid::{Frame, MOST_COORDINATE, Point, Ratio};
use std::alloc::{AllocError, Global};

/// A piece with its number, and its edge from left to right.
#[derive(Clone, Copy, Debug)]
pub struct Bar {
    pub number: u32,
    pub piece: Piece,
    pub strand: Strand,
}

/// Whether the piece begins on the line or on its left.
pub fn begins_by(piece: &Piece, line: Ratio) -> bool
    ensures { IsTrue result ↔ LeX piece.now.part.a (line_seen line) }
{
    is_by(piece.a, line)
}

/// Whether the piece ends on the line or on its right.
pub fn lasts_to(piece: &Piece, line: Ratio) -> bool
    ensures { result ≡ lasts line piece.now }
{
    is_from(piece.b, line)
}

/// Whether the ends of the piece have one x.
pub fn is_upright(piece: &Piece) -> bool
    ensures { IsTrue result ↔ SameX piece.now.part.a piece.now.part.b }
{
    are_level(piece.a, piece.b)
}

// Whether the point is on the line or on its left.
fn is_by(p: Point, line: Ratio) -> bool
    ensures { IsTrue result ↔ LeX p (line_seen line) }
{
    point_x(p)
        .times(den(line))
        .is_at_most(num(line).times(weight(p)))
}

// Whether the point is on the line or on its right.
fn is_from(p: Point, line: Ratio) -> bool
    ensures { result ≡ int_le (line.num *ℤ p.w) (p.x *ℤ line.den) }
{
    num(line)
        .times(weight(p))
        .is_at_most(point_x(p).times(den(line)))
}

// Whether the points have one x.
fn are_level(p: Point, q: Point) -> bool
    ensures { IsTrue result ↔ SameX p q }
{
    let difference = point_x(p)
        .times(weight(q))
        .minus(point_x(q).times(weight(p)));
    difference.is_zero()
}

/// All pieces with their edges, by where they begin.
pub fn bars_of(
    alloc: Global,
    pieces: &[Piece],
    sums: &[Convex],
    room: Frame,
) -> Result<Vec<Bar>, AllocError>
    requires count { length pieces.now < 2 ^ 32 }
    requires points { All (λ p. HasPoints p.part) pieces.now }
    requires edges { All (λ p. p.edge < length (boundary (sums_seen sums.now) (frame_seen room))) pieces.now }
    requires low { IsWithin MOST_COORDINATE room.low }
    requires high { IsWithin MOST_COORDINATE room.high }
    ensures { IfOk result (λ v. AreBars (sums_seen sums.now) (frame_seen room) pieces.now v.items) }
{
    let mut bars = Vec::new(alloc);
    for i in 0..pieces.len() {
        bars.push(bar_of(i as u32, &pieces[i], sums, room))?;
    }
    bars.sort_unstable_by_key(|bar: &Bar| bar.piece.a);
    Ok(bars)
}

// The piece with this number, on its edge.
fn bar_of(number: u32, piece: &Piece, sums: &[Convex], room: Frame) -> Bar
    requires edge { piece.now.edge < length (boundary (sums_seen sums.now) (frame_seen room)) }
    requires low { IsWithin MOST_COORDINATE room.low }
    requires high { IsWithin MOST_COORDINATE room.high }
    ensures number { result.number ≡ number }
    ensures piece { result.piece ≡ piece.now }
    ensures edge { IsOnEdge (sums_seen sums.now) (frame_seen room) piece.now result.strand }
{
    let (p, q) = edge_of(sums, room, piece.edge);
    Bar {
        number,
        piece: *piece,
        strand: rightward(p, q),
    }
}

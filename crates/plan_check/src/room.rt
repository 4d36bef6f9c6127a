ghost use Rattle.std.specs.Prelude.{◌≤ℤ◌, ◌⊎◌, ◌↔◌, IsTrue};
ghost use Rattle.plan_spec.specs.Segment.{segment};
ghost use Rattle.plan_spec.specs.Frame.{OnOrBeyond};
ghost use Rattle.plan_spec.specs.Reply.{AreBeyondOneSide};
ghost use Rattle.plan_grid.specs.Frame.{frame_seen};
ghost use Rattle.plan_check.specs.Boxes.{IsBeside, IsAboveOrBelow};

use crate::whole_box::whole_box;
use plan_grid::{Frame, Point, Spot};

/// Whether the ends of the segment from `p` to `q` are both on or beyond one and the same side of the room.
pub fn are_beyond_one_side(room: Frame, p: &Point, q: &Point) -> bool
    ensures { IsTrue result ↔ AreBeyondOneSide (frame_seen room) (segment p.now q.now) }
{
    let reach = whole_box(p, q);
    if is_beside(room, reach) {
        return true;
    }
    is_above_or_below(room, reach)
}

// Whether the box is on or beyond the left or the right side of the room.
fn is_beside(room: Frame, reach: Frame) -> bool
    ensures { IsTrue result ↔ IsBeside room reach }
{
    is_left(reach.high, room.low) || is_left(room.high, reach.low)
}

// Whether the box is on or beyond the bottom or the top of the room.
fn is_above_or_below(room: Frame, reach: Frame) -> bool
    ensures { IsTrue result ↔ IsAboveOrBelow room reach }
{
    is_below(reach.high, room.low) || is_below(room.high, reach.low)
}

// Whether `p` is left of `q`, or level with it.
fn is_left(p: Spot, q: Spot) -> bool
    ensures { IsTrue result ↔ (p.x ≤ℤ q.x) }
{
    p.x <= q.x
}

// Whether `p` is below `q`, or level with it.
fn is_below(p: Spot, q: Spot) -> bool
    ensures { IsTrue result ↔ (p.y ≤ℤ q.y) }
{
    p.y <= q.y
}

/// Whether an end of the segment from `p` to `q` is on a side of the room or beyond it.
pub fn has_end_beyond(room: Frame, p: &Point, q: &Point) -> bool
    ensures { IsTrue result ↔ (OnOrBeyond (frame_seen room) p.now ⊎ OnOrBeyond (frame_seen room) q.now) }
{
    room.is_on_or_beyond_at(p) || room.is_on_or_beyond_at(q)
}

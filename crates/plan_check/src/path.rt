ghost use Rattle.std.specs.Prelude.{◌<◌, ◌^◌, ◌↔◌, length, All, MatchOption, IsTrue};
ghost use Rattle.plan_spec.specs.Vector.{Same};
ghost use Rattle.plan_spec.specs.Segment.{HasPoints, segment};
ghost use Rattle.plan_spec.specs.Placement.{Scene};
ghost use Rattle.plan_spec.specs.Route.{legs};
ghost use Rattle.plan_spec.specs.Reply.{IsFirst};
ghost use Rattle.plan_grid.specs.Frame.{frame_seen};
ghost use Rattle.plan_grid.specs.Spot.{spot_seen, IsWithin};
ghost use Rattle.plan_convex.specs.Piece.{sums_seen};
ghost use Rattle.plan_check.specs.Boxes.{AreBoxes};
ghost use Rattle.plan_check.specs.Touching.{IsToldBy, LegTouches, LegRunsClear};
ghost use Rattle.plan_check.specs.Verdict.{IsPathVerdict};

use crate::fault::CheckFault;
use crate::room::has_end_beyond;
use crate::sums::some_meets;
use crate::verdict::Verdict;
use plan_convex::Convex;
use plan_cross::{Polyline, Query};
use plan_grid::{Frame, MOST_COORDINATE, Point, Spot};

/// Whether the path is a clear polyline from start to goal, among the sums and in the room that tell what touches; else
/// its first fault. Start and goal have coordinates of at most 2046, and the path has fewer than 2^32 points.
pub fn check_path(
    sums: &[Convex],
    boxes: &[Frame],
    room: Frame,
    query: Query,
    path: &Polyline,
) -> Verdict
    requires boxes { AreBoxes sums.now boxes.now }
    requires start { IsWithin MOST_COORDINATE query.start }
    requires goal { IsWithin MOST_COORDINATE query.goal }
    requires few { length path.now < 2 ^ 32 }
    ensures { (scene : Scene) → IsToldBy scene (sums_seen sums.now) (frame_seen room)
        → IsPathVerdict scene (spot_seen query.start) (spot_seen query.goal) path.now result }
{
    let points = path.points.as_slice();
    if points.is_empty() {
        return Verdict::Invalid(CheckFault::EmptyPath);
    }
    if !is_at(&points[0], query.start) {
        return Verdict::Invalid(CheckFault::WrongStart);
    }
    if !is_at(&points[points.len() - 1], query.goal) {
        return Verdict::Invalid(CheckFault::WrongGoal);
    }
    match first_touching(sums, boxes, room, points) {
        None => Verdict::Valid,
        Some(k) => Verdict::Invalid(CheckFault::Touches(k)),
    }
}

// Whether the point is at the spot.
fn is_at(p: &Point, s: Spot) -> bool
    requires { IsWithin MOST_COORDINATE s }
    ensures { IsTrue result ↔ Same p.now (spot_seen s) }
{
    prove!(p.w() > 0);
    *p == Point::of(s)
}

// The number of the first segment of the path that touches.
fn first_touching(sums: &[Convex], boxes: &[Frame], room: Frame, path: &[Point]) -> Option<u32>
    requires boxes { AreBoxes sums.now boxes.now }
    requires some { 0 < length path.now }
    requires few { length path.now < 2 ^ 32 }
    ensures { MatchOption result
        (All (LegRunsClear (sums_seen sums.now) (frame_seen room)) (legs path.now))
        (IsFirst (LegTouches (sums_seen sums.now) (frame_seen room))
        (LegRunsClear (sums_seen sums.now) (frame_seen room)) (legs path.now)) }
{
    let last = path.len() - 1;
    for k in 0..last.max(1) {
        if touches(sums, boxes, room, &path[k], &path[last.min(k + 1)]) {
            return Some(k as u32);
        }
    }
    None
}

// Whether the segment from `p` to `q` touches.
fn touches(sums: &[Convex], boxes: &[Frame], room: Frame, p: &Point, q: &Point) -> bool
    requires boxes { AreBoxes sums.now boxes.now }
    ensures touches { IsTrue result ↔ LegTouches (sums_seen sums.now) (frame_seen room) (segment p.now q.now) }
    ensures points { HasPoints (segment p.now q.now) }
{
    prove!(p.w() > 0);
    prove!(q.w() > 0);
    if has_end_beyond(room, p, q) {
        return true;
    }
    some_meets(sums, boxes, p, q)
}

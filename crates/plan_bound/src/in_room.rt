ghost use Rattle.std.specs.Prelude.{◌≡◌, ◌-ℤ◌, ◌<ℤ◌, ◌≤◌, ◌^◌, unsigned_abs};
ghost use Rattle.plan_grid.specs.Frame.{frame_seen};
ghost use Rattle.plan_grid.specs.Spot.{spot_seen, IsWithin};
ghost use Rattle.plan_bound.specs.Edge.{IsInRoom};

use plan_convex::Part;
use plan_exact::Whole;
use plan_grid::{Frame, MOST_COORDINATE, Spot};

/// The part of the edge from `a` to `b` in the closed room, which has width and height.
pub fn part_in_room(room: Frame, a: Spot, b: Spot) -> Part
    requires wide { room.low.x <ℤ room.high.x }
    requires tall { room.low.y <ℤ room.high.y }
    requires a_bounded { IsWithin MOST_COORDINATE a }
    requires b_bounded { IsWithin MOST_COORDINATE b }
    ensures { IsInRoom (frame_seen room) (spot_seen a) (spot_seen b) result }
{
    let right_of_left = Part::whole().where_not_negative(
        way(room.low.x, a.x),
        way(room.low.x, b.x),
    );
    let left_of_right = right_of_left.where_not_negative(
        way(a.x, room.high.x),
        way(b.x, room.high.x),
    );
    let above_bottom = left_of_right.where_not_negative(way(room.low.y, a.y), way(room.low.y, b.y));
    above_bottom.where_not_negative(way(a.y, room.high.y), way(b.y, room.high.y))
}

// From `p` to `q`.
fn way(p: i32, q: i32) -> Whole
    ensures { result ≡ q -ℤ p }
{
    Whole::from(q).minus(Whole::from(p))
}

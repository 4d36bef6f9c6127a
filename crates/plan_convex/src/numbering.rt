ghost use Rattle.std.specs.Prelude.{◌≡◌, ◌<◌, ◌≤◌, ◌<ℤ◌, ℕ, length, slice_index_or};
ghost use Rattle.plan_spec.specs.Boundary.{boundary, sides};
ghost use Rattle.plan_spec.specs.Frame as spec;
ghost use Rattle.plan_spec.specs.Vector.{Same};
ghost use Rattle.plan_grid.specs.Frame.{frame_seen};
ghost use Rattle.plan_grid.specs.Spot.{spot_seen, edge_seen, IsWithin};
ghost use Rattle.plan_convex.specs.Piece.{sums_seen};

use crate::convex::Convex;
use plan_grid::{Frame, MOST_COORDINATE, Spot};

/// How many edges the sums have, and the room's four sides with them; at most 512 sums.
pub fn edge_count(sums: &[Convex]) -> u32
    requires { length sums.now ≤ 512 }
    ensures value { (room : spec.Frame) → result ≡ length (boundary (sums_seen sums.now) room) }
    ensures bounded { result ≤ 3076 }
{
    let mut count = 4;
    for sum in sums {
        count += sum.spots().len() as u32;
    }
    count
}

/// The edge of that number: first each sum's, from its first vertex on, each from a vertex to the next one round; then
/// the room's bottom, right, top and left side, each from its lesser end.
pub fn edge_of(sums: &[Convex], room: Frame, edge: u32) -> (Spot, Spot)
    requires { edge < length (boundary (sums_seen sums.now) (frame_seen room)) }
    ensures edge { slice_index_or (boundary (sums_seen sums.now) (frame_seen room)) edge (edge_seen result.0 result.1)
        ≡ edge_seen result.0 result.1 }
    ensures bounded { IsWithin MOST_COORDINATE room.low → IsWithin MOST_COORDINATE room.high
        → IsWithin MOST_COORDINATE result.0 × IsWithin MOST_COORDINATE result.1 }
    ensures distinct { (room.low.x <ℤ room.high.x) → (room.low.y <ℤ room.high.y)
        → ¬ (Same (spot_seen result.0) (spot_seen result.1)) }
{
    let mut left = edge as usize;
    for sum in sums {
        let spots = sum.spots();
        if left < spots.len() {
            return (spots[left], spots[(left + 1) % spots.len()]);
        }
        left -= spots.len();
    }
    side_of_room(room, left)
}

// The bottom, right, top and left side by number, each from its lesser end.
fn side_of_room(room: Frame, side: usize) -> (Spot, Spot)
    requires { side < 4 }
    ensures edge { slice_index_or (sides (frame_seen room)) side (edge_seen result.0 result.1) ≡ edge_seen result.0 result.1 }
    ensures bounded { IsWithin MOST_COORDINATE room.low → IsWithin MOST_COORDINATE room.high
        → IsWithin MOST_COORDINATE result.0 × IsWithin MOST_COORDINATE result.1 }
    ensures distinct { (room.low.x <ℤ room.high.x) → (room.low.y <ℤ room.high.y)
        → ¬ (Same (spot_seen result.0) (spot_seen result.1)) }
{
    let lower_right = Spot {
        x: room.high.x,
        y: room.low.y,
    };
    let upper_left = Spot {
        x: room.low.x,
        y: room.high.y,
    };
    match side {
        0 => (room.low, lower_right),
        1 => (lower_right, room.high),
        2 => (upper_left, room.high),
        _ => (room.low, upper_left),
    }
}

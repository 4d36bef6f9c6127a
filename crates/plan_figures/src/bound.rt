ghost use Rattle.std.specs.Prelude.{◌≡◌, ◌≤◌, length};
ghost use Rattle.plan_grid.specs.Spot.{IsWithin};

use crate::given::{near, numbers};
use plan_bound::{NoMemory, uncovered};
use plan_convex::{Convex, Piece, sum};
use plan_grid::{Frame, MOST_COORDINATE, Point, Spot};
use plan_watch::OpenGate;
use std::alloc::Global;
use std::process::Abort;
use std::thread::Threads;

const ROBOT: [Spot; 3] = [
    Spot { x: 0, y: 0 },
    Spot { x: 1, y: 0 },
    Spot { x: 0, y: 1 },
];

// The polygon with the corners (8,-5), (9,-6), (11,-6), (11,-5), (9,10) and (8,10).
fn hexagon() -> Convex {
    sum([near(9, -5), near(11, -5), near(9, 10)], ROBOT)
}

// The polygon with the corners (8,10), (10,-5), (11,-6) and (11,10).
fn quadrangle() -> Convex {
    sum([near(9, 10), near(11, -5), near(11, 10)], ROBOT)
}

// The polygon with the corners (4,5), (5,4), (9,4), (9,5), (5,9) and (4,9).
fn left() -> Convex {
    sum([near(5, 5), near(9, 5), near(5, 9)], ROBOT)
}

// The same, three to the right.
fn right() -> Convex {
    sum([near(8, 5), near(12, 5), near(8, 9)], ROBOT)
}

fn room() -> Frame
    ensures low { IsWithin MOST_COORDINATE result.low }
    ensures high { IsWithin MOST_COORDINATE result.high }
{
    Frame {
        low: near(0, 0),
        high: near(19, 19),
    }
}

// Whether the point is kept as (`x`, `y`).
fn is_at(point: Point, x: i64, y: i64) -> bool {
    point.x() == x && point.y() == y && point.w() == 1
}

// Whether the piece is that of a row.
fn is_piece(piece: Piece, row: [i64; 5]) -> bool {
    let [edge, ax, ay, bx, by] = row;
    i64::from(piece.edge) == edge && is_at(piece.a, ax, ay) && is_at(piece.b, bx, by)
}

// The pieces must be these, one in a row.
fn must_be(rt: &impl Abort, pieces: &[Piece], want: &str) {
    let mut count = 0;
    for row in want.lines() {
        assert!(rt; count < pieces.len(), "{row}");
        assert!(rt; is_piece(pieces[count], numbers::<5>(rt, row)), "{row}");
        count += 1;
    }
    assert!(rt; count == pieces.len());
}

// What sums leave in the room must be these pieces.
fn leaves(
    rt: &(impl Threads + Sync + Abort),
    alloc: Global,
    sums: &[Convex],
    workers: u8,
    want: &str,
) -> Result<(), NoMemory>
    requires sums { length sums.now ≤ 512 }
    requires at_least_one { 1 ≤ workers }
    requires at_most_16 { workers ≤ 16 }
{
    let pieces = uncovered(rt, alloc, sums, room(), workers, &OpenGate)?;
    must_be(rt, &pieces.list, want);
    Ok(())
}

const ROUND_A_BAR: &str = "3 9 10 9 10
4 8 10 9 10
5 8 0 8 10
6 8 10 8 10
8 11 0 11 10
9 8 10 11 10
10 0 0 8 0
10 11 0 19 0
11 19 0 19 19
12 0 19 19 19
13 0 0 0 19";

#[test]
fn finds_the_pieces_round_a_bar(rt: HostRuntime) -> Result<(), NoMemory> {
    let sums = [hexagon(), quadrangle()];
    for workers in [1, 2, 16] {
        leaves(&rt, rt.alloc(), &sums, workers, ROUND_A_BAR)?;
    }
    Ok(())
}

const SIDES: &str = "0 0 0 19 0
1 19 0 19 19
2 0 19 19 19
3 0 0 0 19";

#[test]
fn gives_the_sides_of_a_room_without_sums(rt: HostRuntime) -> Result<(), NoMemory> {
    leaves(&rt, rt.alloc(), &[], 1, SIDES)
}

const SIDES_AFTER_ONE: &str = "6 0 0 19 0
7 19 0 19 19
8 0 19 19 19
9 0 0 0 19";

#[test]
fn gives_the_sides_of_a_room_without_sums_in_it(rt: HostRuntime) -> Result<(), NoMemory> {
    let outside = [sum([near(30, 30), near(33, 30), near(30, 33)], ROBOT)];
    leaves(&rt, rt.alloc(), &outside, 1, SIDES_AFTER_ONE)
}

#[test]
fn gives_none_in_a_room_without_width_or_height(rt: HostRuntime) -> Result<(), NoMemory> {
    let narrow = Frame {
        low: near(9, 0),
        high: near(9, 19),
    };
    let flat = Frame {
        low: near(0, 9),
        high: near(19, 9),
    };
    for room in [narrow, flat] {
        let pieces = uncovered(&rt, rt.alloc(), &[hexagon()], room, 2, &OpenGate)?;
        assert!(rt; pieces.list.is_empty());
    }
    Ok(())
}

#[test]
fn ends_where_an_edge_meets_a_side(rt: HostRuntime) -> Result<(), NoMemory> {
    let pieces = uncovered(&rt, rt.alloc(), &[hexagon()], room(), 1, &OpenGate)?;
    let third = Point::new(31, 0, 3).expect(&rt, "(31/3, 0)");
    assert_eq!(rt; pieces.list.len(), 8);
    let edge = pieces.list[0];
    assert!(rt; edge.edge == 3 && is_at(edge.a, 9, 10) && edge.b == third);
    let side = pieces.list[4];
    assert!(rt; side.edge == 6 && side.a == third && is_at(side.b, 19, 0));
    Ok(())
}

const OF_EQUAL_SUMS: &str = "0 4 5 5 4
1 5 4 9 4
2 9 4 9 5
3 5 9 9 5
4 4 9 5 9
5 4 5 4 9
6 4 5 5 4
7 5 4 9 4
8 9 4 9 5
9 5 9 9 5
10 4 9 5 9
11 4 5 4 9
12 0 0 19 0
13 19 0 19 19
14 0 19 19 19
15 0 0 0 19";

#[test]
fn leaves_the_edges_of_equal_sums(rt: HostRuntime) -> Result<(), NoMemory> {
    leaves(&rt, rt.alloc(), &[left(), left()], 2, OF_EQUAL_SUMS)
}

const ON_ONE_LINE: &str = "0 4 5 5 4
1 5 4 9 4
2 9 4 9 4
3 5 9 7 7
4 4 9 5 9
5 4 5 4 9
6 8 4 8 4
7 8 4 12 4
8 12 4 12 5
9 8 9 12 5
10 7 9 8 9
11 7 7 7 9
12 0 0 19 0
13 19 0 19 19
14 0 19 19 19
15 0 0 0 19";

#[test]
fn leaves_what_edges_on_one_line_have_in_common(rt: HostRuntime) -> Result<(), NoMemory> {
    leaves(&rt, rt.alloc(), &[left(), right()], 2, ON_ONE_LINE)
}

const OF_TWO_BARS: &str = "1 0 10 9 10
2 9 10 9 11
3 9 11 9 11
7 9 10 9 10
8 9 10 9 13
9 0 13 9 13
10 9 8 10 7
11 10 7 19 7
13 10 10 10 10
14 9 10 10 10
15 9 8 9 10
16 9 10 9 10
19 9 10 19 10
20 0 0 19 0
21 19 0 19 7
21 19 10 19 19
22 0 19 19 19
23 0 0 0 10
23 0 13 0 19";

// The bars above and below meet in (9,10) alone.
#[test]
fn leaves_the_point_in_which_two_bars_meet(rt: HostRuntime) -> Result<(), NoMemory> {
    let sums = [
        sum([near(-5, 11), near(9, 11), near(-5, 13)], ROBOT),
        sum([near(-5, 13), near(9, 11), near(9, 13)], ROBOT),
        sum([near(10, 8), near(25, 8), near(10, 10)], ROBOT),
        sum([near(10, 10), near(25, 8), near(25, 10)], ROBOT),
    ];
    leaves(&rt, rt.alloc(), &sums, 2, OF_TWO_BARS)
}

const BETWEEN_TWO_PARTS: &str = "2 8 0 8 4
3 7 4 8 4
4 5 0 7 4
8 9 4 11 0
9 8 4 9 4
10 8 0 8 4
11 0 0 5 0
11 8 0 8 0
11 11 0 19 0
12 19 0 19 19
13 0 19 19 19
14 0 0 0 19";

// The parts of the bottom that the two cover meet in (8,0).
#[test]
fn leaves_a_point_between_two_covered_parts(rt: HostRuntime) -> Result<(), NoMemory> {
    let sums = [
        sum([near(4, -4), near(8, -4), near(8, 4)], ROBOT),
        sum([near(9, -4), near(13, -4), near(9, 4)], ROBOT),
    ];
    leaves(&rt, rt.alloc(), &sums, 1, BETWEEN_TWO_PARTS)
}

const COVERED_BY_A_THIRD: &str = "2 8 3 8 4
3 7 4 8 4
4 5 0 7 4
8 9 4 11 0
9 8 4 9 4
10 8 3 8 4
15 8 3 8 3
16 8 3 8 3
17 0 0 5 0
17 11 0 19 0
18 19 0 19 19
19 0 19 19 19
20 0 0 0 19";

// A third sum covers (8,0).
#[test]
fn leaves_no_point_that_a_third_sum_covers(rt: HostRuntime) -> Result<(), NoMemory> {
    let sums = [
        sum([near(4, -4), near(8, -4), near(8, 4)], ROBOT),
        sum([near(9, -4), near(13, -4), near(9, 4)], ROBOT),
        sum([near(6, -3), near(11, -3), near(9, 3)], ROBOT),
    ];
    leaves(&rt, rt.alloc(), &sums, 1, COVERED_BY_A_THIRD)
}

const WHERE_THE_ROOM_ENDS: &str = "2 8 0 8 0
3 7 4 7 4
4 5 0 7 4
5 8 0 8 0
6 8 0 14 0
7 14 0 14 1
8 8 9 14 1
9 7 9 8 9
10 7 4 7 9
11 0 0 5 0
11 8 0 19 0
12 19 0 19 19
13 0 19 19 19
14 0 0 0 19";

// Of the right edge of the first sum (8,0) alone is left, where it comes into the room.
#[test]
fn leaves_a_point_where_the_part_in_the_room_ends(rt: HostRuntime) -> Result<(), NoMemory> {
    let sums = [
        sum([near(4, -4), near(8, -4), near(8, 4)], ROBOT),
        sum([near(8, 1), near(14, 1), near(8, 9)], ROBOT),
    ];
    leaves(&rt, rt.alloc(), &sums, 1, WHERE_THE_ROOM_ENDS)
}

const IN_A_CORNER: &str = "0 19 19 19 19
1 19 19 19 19
6 0 0 19 0
7 19 0 19 19
8 0 19 19 19
9 0 0 0 19";

// A sum outside the room has a vertex in its corner.
#[test]
fn leaves_the_corner_of_the_room_that_a_sum_touches(rt: HostRuntime) -> Result<(), NoMemory> {
    let sums = [sum([near(19, 20), near(22, 20), near(19, 23)], ROBOT)];
    leaves(&rt, rt.alloc(), &sums, 1, IN_A_CORNER)
}

const FARTHEST: &str = "0 -2045 0 0 -2045
1 0 -2045 2046 -2045
2 2046 -2045 2046 2046
3 1 2046 2046 2046
4 -2045 0 1 2046
5 -2046 -2046 2046 -2046
6 2046 -2046 2046 2046
7 -2046 2046 2046 2046
8 -2046 -2046 -2046 2046";

#[test]
fn takes_the_greatest_coordinates(rt: HostRuntime) -> Result<(), NoMemory> {
    let room = Frame {
        low: Spot { x: -2046, y: -2046 },
        high: Spot { x: 2046, y: 2046 },
    };
    let obstacle = [
        Spot { x: -1023, y: -1023 },
        Spot { x: 1023, y: -1023 },
        Spot { x: 1023, y: 1023 },
    ];
    let robot = [
        Spot { x: -1023, y: -1023 },
        Spot { x: 1022, y: -1023 },
        Spot { x: -1023, y: 1022 },
    ];
    let pieces = uncovered(&rt, rt.alloc(), &[sum(obstacle, robot)], room, 2, &OpenGate)?;
    must_be(&rt, &pieces.list, FARTHEST);
    Ok(())
}

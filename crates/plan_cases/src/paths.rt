use crate::calls::{column, is_told};
use crate::documents::{CORNER, SPIKE, certificate_of, document};
use crate::scenes::BAR;
use std::alloc::Global;
use std::process::Abort;
use std::sync::Wait;
use std::thread::Threads;

/// Rows of a query, a path, and what `check` tells of them with this robot and these obstacles.
pub fn answers<R: Threads + Wait + Sync + Abort>(
    rt: &R,
    alloc: Global,
    robot: &str,
    obstacles: &str,
    table: &str,
) {
    for row in table.lines() {
        is_answered(rt, alloc, robot, obstacles, "path", row);
    }
}

/// Compares what `check` tells of a row of a query and a path or a chain.
pub fn is_answered<R: Threads + Wait + Sync + Abort>(
    rt: &R,
    alloc: Global,
    robot: &str,
    obstacles: &str,
    kind: &str,
    row: &str,
) {
    let (query, rest) = column(rt, row);
    let (points, expected) = column(rt, rest);
    let certificate = certificate_of(rt, alloc, kind, points);
    let text = document(rt, alloc, robot, obstacles, query, certificate.as_str());
    is_told(rt, alloc, "check", text.as_bytes(), expected, row);
}

/// The corner robot and the spike: round it, through it, grazing its corner; each fault of a path, and which comes
/// first; the way back; one point; equal points; along a side of the sum, beside it, on the side's line beyond its
/// end, up to its corner.
const BY_THE_SPIKE: &str = r#"[2,2,15,2] [[2,2,1],[2,15,1],[15,15,1],[15,2,1]] 0 "valid\n"
[2,2,15,2] [[2,2,1],[15,2,1]] 6 "invalid: touches 0\n"
[2,2,15,2] [[2,2,1],[6,8,1],[10,12,1],[15,15,1],[15,2,1]] 6 "invalid: touches 1\n"
[2,2,15,2] [] 6 "invalid: empty path\n"
[2,2,15,2] [[2,3,1],[15,2,1]] 6 "invalid: wrong start\n"
[2,2,15,2] [[2,2,1],[15,3,1]] 6 "invalid: wrong goal\n"
[2,2,15,2] [[3,2,1],[15,3,1]] 6 "invalid: wrong start\n"
[2,2,15,2] [[2,2,1]] 6 "invalid: wrong goal\n"
[15,2,2,2] [[15,2,1],[15,15,1],[2,15,1],[2,2,1]] 0 "valid\n"
[2,2,2,2] [[2,2,1]] 0 "valid\n"
[8,10,8,10] [[8,10,1]] 6 "invalid: touches 0\n"
[9,3,9,3] [[9,3,1]] 6 "invalid: touches 0\n"
[7,10,7,10] [[7,10,1]] 0 "valid\n"
[2,2,2,15] [[2,2,1],[2,2,1],[2,15,1]] 0 "valid\n"
[8,10,8,10] [[8,10,1],[8,10,1]] 6 "invalid: touches 0\n"
[8,2,8,9] [[8,2,1],[8,9,1]] 6 "invalid: touches 0\n"
[7,2,7,9] [[7,2,1],[7,9,1]] 0 "valid\n"
[8,11,8,15] [[8,11,1],[8,15,1]] 0 "valid\n"
[2,10,8,10] [[2,10,1],[8,10,1]] 6 "invalid: touches 0\n"
[2,10,7,10] [[2,10,1],[7,10,1]] 0 "valid\n""#;

/// The corner robot and the frame, which counts as touched.
const IN_THE_FRAME: &str = r#"[0,2,2,2] [[0,2,1],[2,2,1]] 6 "invalid: touches 0\n"
[1,2,2,2] [[1,2,1],[2,2,1]] 0 "valid\n"
[2,2,18,2] [[2,2,1],[18,2,1]] 0 "valid\n"
[2,2,19,2] [[2,2,1],[19,2,1]] 6 "invalid: touches 0\n"
[2,2,2,18] [[2,2,1],[2,18,1]] 0 "valid\n"
[2,2,2,19] [[2,2,1],[2,19,1]] 6 "invalid: touches 0\n"
[2,1,2,1] [[2,1,1]] 0 "valid\n"
[2,0,2,0] [[2,0,1]] 6 "invalid: touches 0\n"
[30,30,30,30] [[30,30,1]] 6 "invalid: touches 0\n"
[2,2,2,2] [[2,2,1],[2,18,1],[30,18,1],[2,2,1]] 6 "invalid: touches 1\n""#;

#[test]
fn a_path_is_checked_against_an_obstacle_and_the_frame(rt: HostRuntime) {
    let alloc = rt.alloc();
    answers(&rt, alloc, CORNER, SPIKE, BY_THE_SPIKE);
    answers(&rt, alloc, CORNER, "[]", IN_THE_FRAME);
}

/// The corner robot and the spike, each in the other direction of turning, which changes nothing.
const TURNED_CORNER: &str = "[[0,1],[1,0],[0,0]]";

const TURNED_SPIKE: &str = r#"[{"id":1,"shape":[[9,10],[11,-5],[9,-5]]}]"#;

#[test]
fn the_direction_in_which_corners_come_changes_nothing(rt: HostRuntime) {
    let alloc = rt.alloc();
    answers(&rt, alloc, CORNER, TURNED_SPIKE, BY_THE_SPIKE);
    answers(&rt, alloc, TURNED_CORNER, SPIKE, BY_THE_SPIKE);
    answers(&rt, alloc, TURNED_CORNER, TURNED_SPIKE, BY_THE_SPIKE);
}

/// A robot that reaches 4 to the right, and a wall from (9, 5) and (11, 5) up to (9, 15): right of the wall the robot
/// is clear, left of it by less than 4 it is not.
const LONG: &str = "[[0,0],[4,0],[0,1]]";

const WALL: &str = r#"[{"id":7,"shape":[[9,5],[11,5],[9,15]]}]"#;

const BY_THE_WALL: &str =
    r#"[12,2,6,2] [[12,2,1],[12,17,1],[6,17,1],[6,2,1]] 6 "invalid: touches 2\n"
[12,2,12,17] [[12,2,1],[12,17,1]] 0 "valid\n"
[6,2,6,17] [[6,2,1],[6,17,1]] 6 "invalid: touches 0\n"
[4,2,4,17] [[4,2,1],[4,17,1]] 0 "valid\n""#;

/// A robot that reaches 3 to the left, and nothing but the frame.
const LEFT: &str = "[[-3,0],[0,0],[0,2]]";

const LEFT_IN_THE_FRAME: &str = r#"[4,5,19,5] [[4,5,1],[19,5,1]] 0 "valid\n"
[3,5,19,5] [[3,5,1],[19,5,1]] 6 "invalid: touches 0\n"
[4,5,20,5] [[4,5,1],[20,5,1]] 6 "invalid: touches 0\n""#;

/// A robot that is far from its placement, and the spike.
const FAR: &str = "[[5,5],[6,5],[5,6]]";

const FAR_BY_THE_SPIKE: &str =
    r#"[-4,-4,10,-4] [[-4,-4,1],[-4,10,1],[10,10,1],[10,-4,1]] 0 "valid\n"
[-4,-4,10,-4] [[-4,-4,1],[10,-4,1]] 6 "invalid: touches 0\n""#;

#[test]
fn a_robot_touches_with_the_side_that_reaches_out(rt: HostRuntime) {
    let alloc = rt.alloc();
    answers(&rt, alloc, LONG, WALL, BY_THE_WALL);
    answers(&rt, alloc, LEFT, "[]", LEFT_IN_THE_FRAME);
    answers(&rt, alloc, FAR, SPIKE, FAR_BY_THE_SPIKE);
}

/// A small triangle, which the corner robot touches from (9, 8) and (11, 8) up to (9, 11) and (10, 11): through the sum
/// with both ends outside, cutting its corner, past the corner, on its lower side and beside it.
const ROCK: &str = r#"[{"id":65535,"shape":[[9,9],[11,9],[10,11]]}]"#;

const BY_THE_ROCK: &str = r#"[2,10,17,10] [[2,10,1],[17,10,1]] 6 "invalid: touches 0\n"
[7,9,10,12] [[7,9,1],[10,12,1]] 6 "invalid: touches 0\n"
[7,10,9,12] [[7,10,1],[9,12,1]] 0 "valid\n"
[7,8,13,8] [[7,8,1],[13,8,1]] 6 "invalid: touches 0\n"
[7,7,13,7] [[7,7,1],[13,7,1]] 0 "valid\n""#;

/// Two shelves across the room, the upper one second, which is the first that is met.
const SHELVES: &str =
    r#"[{"id":2,"shape":[[3,6],[18,6],[10,7]]},{"id":1,"shape":[[3,12],[18,12],[10,13]]}]"#;

const BY_THE_SHELVES: &str =
    r#"[1,2,10,2] [[1,2,1],[1,9,1],[10,9,1],[10,18,1],[10,2,1]] 6 "invalid: touches 2\n"
[1,2,1,18] [[1,2,1],[1,18,1]] 0 "valid\n""#;

#[test]
fn the_first_segment_that_touches_any_obstacle_is_told(rt: HostRuntime) {
    let alloc = rt.alloc();
    answers(&rt, alloc, CORNER, ROCK, BY_THE_ROCK);
    answers(&rt, alloc, CORNER, SHELVES, BY_THE_SHELVES);
}

/// The corner robot and the spike, with points in lowest terms and not: through the sum at (17/2, 19/2), past it; a start
/// in other terms, and one that is elsewhere; the last point in other terms.
const RATIONAL: &str = r#"[2,2,15,2] [[4,4,2],[17,19,2],[15,2,1]] 6 "invalid: touches 0\n"
[2,2,15,2] [[4,4,2],[2,15,1],[31,31,2],[15,2,1]] 0 "valid\n"
[2,2,2,2] [[2,2,2]] 6 "invalid: wrong start\n"
[2,2,15,2] [[2,2,1],[2,15,1],[31,31,2],[45,6,3]] 0 "valid\n"
[2,2,15,2] [[2,2,1],[2,15,1],[31,31,2],[15,2,2]] 6 "invalid: wrong goal\n"
[2,2,2,2] [[2,2,1],[15,20,2],[2,2,1]] 0 "valid\n"
[2,2,2,2] [[2,2,1],[4611686018427387904,4611686018427387904,2305843009213693952]] 2 "refused: range $.certificate.path[1]\n"
[2,2,2,2] [[2,2,1],[4503599627370496,4503599627370496,2251799813685248]] 0 "valid\n""#;

/// Round the bar, whose corner is cut; through it.
const BY_THE_BAR: &str =
    r#"[2,2,15,2] [[2,2,1],[8,19,2],[16,29,2],[17,29,2],[18,29,2],[20,29,2],[22,29,2],[30,19,2],[15,2,1]] 0 "valid\n"
[2,2,15,2] [[2,2,1],[8,19,2],[16,20,2],[22,29,2],[30,19,2],[15,2,1]] 6 "invalid: touches 1\n"
[2,2,15,2] [[2,2,1],[15,2,1]] 6 "invalid: touches 0\n""#;

#[test]
fn points_of_a_path_are_rational(rt: HostRuntime) {
    let alloc = rt.alloc();
    answers(&rt, alloc, CORNER, SPIKE, RATIONAL);
    answers(&rt, alloc, CORNER, BAR, BY_THE_BAR);
}

ghost use Rattle.std.specs.Prelude.{◌<◌, ◌^◌, length};
ghost use Rattle.plan_grid.specs.Spot.{IsWithin};
ghost use Rattle.plan_check.specs.Verdict.{IsShort};

use crate::given::{near, numbers, point};
use crate::scene::{add, start};
use plan_check::{CheckFault, NoMemory, Verdict, check};
use plan_cross::{Certificate, Chain, Polyline, Query, Segment};
use plan_grid::{MOST_COORDINATE, Point, Spot};
use plan_scene::Scene;
use std::alloc::{AllocError, Global};
use std::process::Abort;

// A robot of width and height 1. The room of its placements is from (0, 0) to (19, 19).
const ROBOT: [Spot; 3] = [
    Spot { x: 0, y: 0 },
    Spot { x: 1, y: 0 },
    Spot { x: 0, y: 1 },
];

// A bar from beyond the bottom of the room to beyond its top.
const TALL_BAR: [Spot; 4] = [
    Spot { x: 9, y: -5 },
    Spot { x: 11, y: -5 },
    Spot { x: 11, y: 25 },
    Spot { x: 9, y: 25 },
];

// A spike up to (9, 10).
const SPIKE: [Spot; 3] = [
    Spot { x: 9, y: -5 },
    Spot { x: 11, y: -5 },
    Spot { x: 9, y: 10 },
];

// Two obstacles whose sums meet in a point.
const LEFT: [Spot; 3] = [
    Spot { x: 4, y: 4 },
    Spot { x: 8, y: 4 },
    Spot { x: 4, y: 8 },
];

const RIGHT: [Spot; 3] = [
    Spot { x: 9, y: 4 },
    Spot { x: 12, y: 4 },
    Spot { x: 9, y: 8 },
];

// The floor with one obstacle.
fn floor(rt: &impl Abort, alloc: Global, shape: &[Spot]) -> Scene {
    let empty = start(rt, alloc, &ROBOT);
    add(rt, alloc, &empty, 1, shape)
        .ok()
        .expect(rt, "an obstacle")
}

// The floor with the bar.
fn barred(rt: &impl Abort, alloc: Global) -> Scene {
    floor(rt, alloc, &TALL_BAR)
}

// The floor with the two obstacles.
fn with_two(rt: &impl Abort, alloc: Global) -> Scene {
    let one = floor(rt, alloc, &LEFT);
    add(rt, alloc, &one, 2, &RIGHT)
        .ok()
        .expect(rt, "an obstacle")
}

// The way from (2, 2) to (15, 2).
fn query() -> Query
    ensures start { IsWithin MOST_COORDINATE result.start }
    ensures goal { IsWithin MOST_COORDINATE result.goal }
{
    Query {
        start: near(2, 2),
        goal: near(15, 2),
    }
}

// The segment in a row: x, y and weight of both ends.
fn segment(rt: &impl Abort, row: &str) -> Segment {
    let [ax, ay, aw, bx, by, bw] = numbers::<6>(rt, row);
    Segment {
        a: point(rt, ax, ay, aw),
        b: point(rt, bx, by, bw),
    }
}

// The segments in rows.
fn segments_of(rt: &impl Abort, alloc: Global, rows: &str) -> Result<Vec<Segment>, AllocError> {
    let mut segments = Vec::new(alloc);
    for row in rows.lines() {
        segments.push(segment(rt, row))?;
    }
    Ok(segments)
}

// The points in rows: x, y and weight of each.
fn points_of(rt: &impl Abort, alloc: Global, rows: &str) -> Result<Vec<Point>, AllocError> {
    let mut points = Vec::new(alloc);
    for row in rows.lines() {
        let [x, y, w] = numbers::<3>(rt, row);
        points.push(point(rt, x, y, w))?;
    }
    Ok(points)
}

// The certificate of the segments in rows.
fn chain_of(rt: &impl Abort, alloc: Global, rows: &str) -> Certificate
    ensures { IsShort result }
{
    let segments = segments_of(rt, alloc, rows).ok().expect(rt, "memory");
    assert!(rt; segments.len() < 100);
    Certificate::Blocked(Chain { segments })
}

// The certificate of the path through the points in rows.
fn path_of(rt: &impl Abort, alloc: Global, rows: &str) -> Certificate
    ensures { IsShort result }
{
    let points = points_of(rt, alloc, rows).ok().expect(rt, "memory");
    assert!(rt; points.len() < 100);
    Certificate::Path(Polyline { points })
}

// The chain in rows must have this verdict on this floor.
fn chain_judged(
    rt: &impl Abort,
    alloc: Global,
    floor: &Scene,
    rows: &str,
    want: Verdict,
) -> Result<(), NoMemory> {
    let verdict = check(alloc, floor, query(), &chain_of(rt, alloc, rows))?;
    assert!(rt; verdict == want, "{rows}");
    Ok(())
}

// The path in rows must have this verdict on this floor.
fn path_judged(
    rt: &impl Abort,
    alloc: Global,
    floor: &Scene,
    rows: &str,
    want: Verdict,
) -> Result<(), NoMemory> {
    let verdict = check(alloc, floor, query(), &path_of(rt, alloc, rows))?;
    assert!(rt; verdict == want, "{rows}");
    Ok(())
}

// The left part of the room, up to the bar, in two orders.
const LEFT_PART: &str = "0 0 1 8 0 1
8 0 1 8 19 1
0 19 1 8 19 1
0 0 1 0 19 1";

const LEFT_PART_FROM_LEFT: &str = "0 0 1 0 19 1
0 0 1 8 0 1
0 19 1 8 19 1
8 0 1 8 19 1";

#[test]
fn accepts_the_part_of_the_start(rt: HostRuntime) -> Result<(), NoMemory> {
    let alloc = rt.alloc();
    let bar = barred(&rt, alloc);
    chain_judged(&rt, alloc, &bar, LEFT_PART, Verdict::Valid)?;
    chain_judged(&rt, alloc, &bar, LEFT_PART_FROM_LEFT, Verdict::Valid)
}

// An end of the right side is (24/3, 57/3).
const BY_THIRDS: &str = "0 0 1 8 0 1
8 0 1 24 57 3
0 19 1 8 19 1
0 0 1 0 19 1";

// An end of the right side is (25/3, 57/3).
const A_THIRD_OFF: &str = "0 0 1 8 0 1
8 0 1 25 57 3
0 19 1 8 19 1
0 0 1 0 19 1";

#[test]
fn counts_ends_by_position(rt: HostRuntime) -> Result<(), NoMemory> {
    let alloc = rt.alloc();
    let bar = barred(&rt, alloc);
    chain_judged(&rt, alloc, &bar, BY_THIRDS, Verdict::Valid)?;
    let unclosed = Verdict::Invalid(CheckFault::Unclosed(1));
    chain_judged(&rt, alloc, &bar, A_THIRD_OFF, unclosed)
}

// The chain in rows beside the bar must have this fault.
fn chain_refused(
    rt: &impl Abort,
    alloc: Global,
    rows: &str,
    want: CheckFault,
) -> Result<(), NoMemory> {
    chain_judged(rt, alloc, &barred(rt, alloc), rows, Verdict::Invalid(want))
}

// The left side twice, one point, and a segment from the left side of the room to the bar.
const FLAT_BEFORE_LOOSE: &str = "0 0 1 0 19 1
0 0 1 0 19 1
3 3 1 3 3 1
0 3 1 8 3 1";

const LOOSE_BEFORE_FLAT: &str = "0 0 1 0 19 1
0 0 1 0 19 1
0 3 1 8 3 1
3 3 1 3 3 1";

const LOOSE_AND_UNCLOSED: &str = "0 0 1 8 0 1
8 0 1 8 19 1
0 3 1 8 3 1";

#[test]
fn tells_the_first_segment_with_a_fault(rt: HostRuntime) -> Result<(), NoMemory> {
    let alloc = rt.alloc();
    chain_refused(&rt, alloc, FLAT_BEFORE_LOOSE, CheckFault::Flat(2))?;
    chain_refused(&rt, alloc, LOOSE_BEFORE_FLAT, CheckFault::Loose(2))?;
    chain_refused(&rt, alloc, LOOSE_AND_UNCLOSED, CheckFault::Loose(2))
}

const TWO_UNCLOSED: &str = "0 0 1 0 19 1
0 0 1 0 19 1
8 0 1 8 19 1
19 0 1 19 19 1";

#[test]
fn tells_the_first_unclosed_segment(rt: HostRuntime) -> Result<(), NoMemory> {
    let alloc = rt.alloc();
    chain_refused(&rt, alloc, TWO_UNCLOSED, CheckFault::Unclosed(2))?;
    chain_refused(&rt, alloc, "0 0 1 8 0 1", CheckFault::Unclosed(0))
}

// A loop twice goes round nothing.
const TWICE: &str = "0 0 1 8 0 1
8 0 1 8 19 1
0 19 1 8 19 1
0 0 1 0 19 1
0 0 1 0 19 1
0 19 1 8 19 1
8 0 1 8 19 1
0 0 1 8 0 1";

// The sides of the room.
const ROUND_BOTH: &str = "0 0 1 19 0 1
19 0 1 19 19 1
0 19 1 19 19 1
0 0 1 0 19 1";

#[test]
fn takes_no_chain_round_none_or_both(rt: HostRuntime) -> Result<(), NoMemory> {
    let alloc = rt.alloc();
    chain_refused(&rt, alloc, "", CheckFault::StartEven)?;
    chain_refused(&rt, alloc, TWICE, CheckFault::StartEven)?;
    chain_refused(&rt, alloc, ROUND_BOTH, CheckFault::GoalOdd)
}

// The one segment beside two sums must have this fault.
fn one_refused(
    rt: &impl Abort,
    alloc: Global,
    row: &str,
    want: CheckFault,
) -> Result<(), NoMemory> {
    chain_judged(rt, alloc, &with_two(rt, alloc), row, Verdict::Invalid(want))
}

// No one sum has both ends.
#[test]
fn takes_no_segment_across_two_sums(rt: HostRuntime) -> Result<(), NoMemory> {
    let alloc = rt.alloc();
    one_refused(&rt, alloc, "4 4 1 10 4 1", CheckFault::Loose(0))?;
    one_refused(&rt, alloc, "4 4 1 8 4 1", CheckFault::Unclosed(0))?;
    one_refused(&rt, alloc, "8 4 1 10 4 1", CheckFault::Unclosed(0))
}

// No one side of the room's is beyond both ends.
#[test]
fn takes_no_segment_across_two_sides(rt: HostRuntime) -> Result<(), NoMemory> {
    let alloc = rt.alloc();
    one_refused(&rt, alloc, "0 2 1 2 0 1", CheckFault::Loose(0))?;
    one_refused(&rt, alloc, "0 2 1 0 0 1", CheckFault::Unclosed(0))?;
    one_refused(&rt, alloc, "-3 2 1 0 3 1", CheckFault::Unclosed(0))?;
    one_refused(&rt, alloc, "-3 2 1 1 2 1", CheckFault::Loose(0))
}

// The path in rows beside the bar must have this fault.
fn path_refused(
    rt: &impl Abort,
    alloc: Global,
    rows: &str,
    want: CheckFault,
) -> Result<(), NoMemory> {
    path_judged(rt, alloc, &barred(rt, alloc), rows, Verdict::Invalid(want))
}

const FROM_ELSEWHERE: &str = "2 3 1
2 3 1
15 2 1";

const TO_ELSEWHERE: &str = "2 2 1
2 3 1
15 3 1";

#[test]
fn tells_that_a_path_has_other_ends(rt: HostRuntime) -> Result<(), NoMemory> {
    let alloc = rt.alloc();
    path_refused(&rt, alloc, "", CheckFault::EmptyPath)?;
    path_refused(&rt, alloc, FROM_ELSEWHERE, CheckFault::WrongStart)?;
    path_refused(&rt, alloc, TO_ELSEWHERE, CheckFault::WrongGoal)
}

const THROUGH_THE_BAR: &str = "2 2 1
2 15 1
15 2 1";

const BY_THE_LEFT_SIDE: &str = "2 2 1
0 2 1
15 2 1";

const BY_THE_BAR: &str = "2 2 1
8 2 1
15 2 1";

#[test]
fn tells_the_first_segment_that_touches(rt: HostRuntime) -> Result<(), NoMemory> {
    let alloc = rt.alloc();
    path_refused(&rt, alloc, THROUGH_THE_BAR, CheckFault::Touches(1))?;
    path_refused(&rt, alloc, BY_THE_LEFT_SIDE, CheckFault::Touches(0))?;
    path_refused(&rt, alloc, BY_THE_BAR, CheckFault::Touches(0))
}

const CLEAR: &str = "2 2 1
2 15 1
31 31 2
15 2 1";

// It grazes the corner (8, 10) of the sum.
const GRAZING: &str = "2 2 1
6 8 1
10 12 1
15 2 1";

#[test]
fn accepts_a_path_that_runs_clear(rt: HostRuntime) -> Result<(), NoMemory> {
    let alloc = rt.alloc();
    let low = floor(&rt, alloc, &SPIKE);
    path_judged(&rt, alloc, &low, CLEAR, Verdict::Valid)?;
    let grazes = Verdict::Invalid(CheckFault::Touches(1));
    path_judged(&rt, alloc, &low, GRAZING, grazes)
}

// The fault must be written so.
fn written(rt: &impl Abort, alloc: Global, fault: CheckFault, want: &str) -> Result<(), NoMemory> {
    let text = format!(in alloc; "{fault}")?;
    assert!(rt; text.as_str() == want);
    Ok(())
}

#[test]
fn writes_each_fault_of_a_path(rt: HostRuntime) -> Result<(), NoMemory> {
    let alloc = rt.alloc();
    written(&rt, alloc, CheckFault::EmptyPath, "empty path")?;
    written(&rt, alloc, CheckFault::WrongStart, "wrong start")?;
    written(&rt, alloc, CheckFault::WrongGoal, "wrong goal")?;
    written(&rt, alloc, CheckFault::Touches(7), "touches 7")
}

#[test]
fn writes_each_fault_of_a_chain(rt: HostRuntime) -> Result<(), NoMemory> {
    let alloc = rt.alloc();
    written(&rt, alloc, CheckFault::Flat(0), "flat 0")?;
    written(&rt, alloc, CheckFault::Loose(10), "loose 10")?;
    written(&rt, alloc, CheckFault::Unclosed(3), "unclosed 3")?;
    written(&rt, alloc, CheckFault::StartEven, "start even")?;
    written(&rt, alloc, CheckFault::GoalOdd, "goal odd")
}

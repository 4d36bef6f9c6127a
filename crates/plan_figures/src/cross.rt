ghost use Rattle.plan_grid.specs.Spot.{IsWithin};

use crate::given::near;
use plan_cross::{Chain, Segment, closed, first_unclosed, over, parity};
use plan_grid::{MOST_COORDINATE, Point, Spot};
use std::alloc::{AllocError, Global};
use std::process::Abort;

fn segment(ax: i8, ay: i8, bx: i8, by: i8) -> Segment {
    Segment {
        a: Point::of(near(ax, ay)),
        b: Point::of(near(bx, by)),
    }
}

// The segments between these ends, four coordinates each.
fn segments(alloc: Global, ends: &[i8]) -> Result<Vec<Segment>, AllocError> {
    let mut segments = Vec::new(alloc);
    for k in 0..ends.len() / 4 {
        let (ax, ay) = (ends[4 * k], ends[4 * k + 1]);
        segments.push(segment(ax, ay, ends[4 * k + 2], ends[4 * k + 3]))?;
    }
    Ok(segments)
}

// The sides of a box, each from its lesser end: the bottom, the right, the top and the left.
fn sides(alloc: Global, low: i8, right: i8, top: i8) -> Result<Vec<Segment>, AllocError> {
    let mut sides = segments(alloc, &[low, low, right, low, right, low, right, top])?;
    sides.push(segment(low, top, right, top))?;
    sides.push(segment(low, low, low, top))?;
    Ok(sides)
}

// The segment must stand over each of these points, or over none.
fn stands(rt: &impl Abort, segment: &Segment, points: &[i8], want: bool) {
    for k in 0..points.len() / 2 {
        let z = near(points[2 * k], points[2 * k + 1]);
        assert!(rt; over(segment, z) == want, "point {k}");
    }
}

// The segments over each of these points must be odd in number, or over none.
fn odd(rt: &impl Abort, segments: &[Segment], points: &[i8], want: bool) {
    for k in 0..points.len() / 2 {
        let z = near(points[2 * k], points[2 * k + 1]);
        assert!(rt; parity(segments, z) == want, "point {k}");
    }
}

// The chain of the segments must be closed, or not.
fn closes(rt: &impl Abort, alloc: Global, segments: Vec<Segment>, want: bool) {
    let found = closed(alloc, &Chain { segments }).expect(rt, "memory");
    assert!(rt; found == want);
}

// The sides of a box of which the right one ends at one point, and the top one at another.
fn sides_to(alloc: Global, right: Point, top: Point) -> Result<Vec<Segment>, AllocError> {
    let mut sides = segments(alloc, &[0, 0, 8, 0, 0, 0, 0, 19])?;
    sides.push(Segment {
        a: Point::of(near(8, 0)),
        b: right,
    })?;
    sides.push(Segment {
        a: Point::of(near(0, 19)),
        b: top,
    })?;
    Ok(sides)
}

// Those of the list with these numbers, in this order.
fn chosen(
    rt: &impl Abort,
    alloc: Global,
    list: &[Segment],
    numbers: &[usize],
) -> Result<Vec<Segment>, AllocError> {
    let mut segments = Vec::new(alloc);
    for n in numbers {
        assert!(rt; *n < list.len());
        segments.push(list[*n])?;
    }
    Ok(segments)
}

// Of those that are chosen this must be the first with an odd end.
fn first_odd(
    rt: &impl Abort,
    alloc: Global,
    list: &[Segment],
    numbers: &[usize],
    want: Option<u32>,
) {
    let segments = chosen(rt, alloc, list, numbers).expect(rt, "memory");
    assert!(rt; segments.len() < 100);
    let found = first_unclosed(alloc, &Chain { segments }).expect(rt, "memory");
    assert_eq!(rt; found, want);
}

#[test]
fn stands_over_from_its_left_end_to_before_its_right_end(rt: HostRuntime) {
    let under = [0, 1, 3, -9];
    let beside = [4, 1, 2, 2, 2, 3, -1, 1];
    let flat = segment(0, 2, 4, 2);
    stands(&rt, &flat, &under, true);
    stands(&rt, &flat, &beside, false);
    let turned = segment(4, 2, 0, 2);
    stands(&rt, &turned, &under, true);
    stands(&rt, &turned, &beside, false);
    stands(&rt, &segment(2, 0, 2, 9), &[2, -1], false);
}

#[test]
fn is_odd_inside_a_loop(rt: HostRuntime) -> Result<(), AllocError> {
    let outer = sides(rt.alloc(), 0, 8, 19)?;
    odd(&rt, &outer, &[2, 2, 0, 1], true);
    odd(&rt, &outer, &[15, 2, 2, 19, 8, 1], false);
    odd(&rt, &[], &[2, 2], false);
    Ok(())
}

#[test]
fn is_even_inside_two_loops(rt: HostRuntime) -> Result<(), AllocError> {
    let alloc = rt.alloc();
    let mut both = sides(alloc, 0, 8, 19)?;
    let inner = sides(alloc, 2, 6, 9)?;
    both.extend_from_slice(&inner)?;
    odd(&rt, &both, &[4, 4], false);
    odd(&rt, &both, &[1, 4], true);
    closes(&rt, alloc, both, true);
    Ok(())
}

#[test]
fn is_closed_where_each_end_stands_twice(rt: HostRuntime) -> Result<(), AllocError> {
    let alloc = rt.alloc();
    closes(&rt, alloc, sides(alloc, 0, 8, 19)?, true);
    closes(&rt, alloc, segments(alloc, &[0, 0, 8, 0])?, false);
    closes(&rt, alloc, Vec::new(alloc), true);
    Ok(())
}

// The sides of the box must be closed, or not, where the right one ends at one point, and the top one at another.
fn closes_at(rt: &impl Abort, alloc: Global, right: Point, top: Point, want: bool) {
    let sides = sides_to(alloc, right, top).expect(rt, "memory");
    closes(rt, alloc, sides, want);
}

#[test]
fn counts_ends_by_position(rt: HostRuntime) {
    let alloc = rt.alloc();
    let corner = Point::of(near(8, 19));
    let whole = Point::new(24, 57, 3).expect(&rt, "(8, 19)");
    let half = Point::new(17, 1, 2).expect(&rt, "(17/2, 1/2)");
    closes_at(&rt, alloc, whole, corner, true);
    closes_at(&rt, alloc, half, corner, false);
    closes_at(&rt, alloc, half, half, true);
}

#[test]
fn names_the_first_segment_with_an_odd_end(rt: HostRuntime) -> Result<(), AllocError> {
    let alloc = rt.alloc();
    let list = sides(alloc, 0, 8, 19)?;
    first_odd(&rt, alloc, &list, &[0, 1, 2, 3], None);
    first_odd(&rt, alloc, &list, &[], None);
    first_odd(&rt, alloc, &list, &[0], Some(0));
    // without the top the corners (8, 19) and (0, 19) are odd, and the second segment has the first of them
    first_odd(&rt, alloc, &list, &[0, 1, 3], Some(1));
    Ok(())
}

#[test]
fn names_the_first_that_stands_an_odd_number_of_times(rt: HostRuntime) -> Result<(), AllocError> {
    let alloc = rt.alloc();
    let loop_and_one = [
        0, 0, 8, 0, 8, 0, 8, 19, 0, 19, 8, 19, 0, 0, 0, 19, 20, 0, 21, 0,
    ];
    let list = segments(alloc, &loop_and_one)?;
    first_odd(&rt, alloc, &list, &[3, 2, 1, 0, 4], Some(4));
    first_odd(&rt, alloc, &list, &[0, 0], None);
    first_odd(&rt, alloc, &list, &[0, 0, 0], Some(0));
    Ok(())
}

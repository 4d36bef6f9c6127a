ghost use Rattle.std.specs.Prelude.{◌≡◌, ◌<◌, ◌^◌, unsigned_abs};
ghost use Rattle.plan_grid.specs.Spot.{IsWithin};

use crate::given::{near, numbers, point};
use plan_grid::{
    Frame, MOST_COORDINATE, Point, Ratio, Spot, compare, counterclockwise, from_least, height,
    mediant, middle, on_segment, orientation, orientation_at, side, side_of,
};
use std::cmp::Ordering;
use std::process::Abort;

fn spot(x: i32, y: i32) -> Spot
    ensures x { result.x ≡ x }
    ensures y { result.y ≡ y }
{
    Spot { x, y }
}

// The fraction `num / den`, which is in range.
fn ratio(rt: &impl Abort, num: i64, den: i64) -> Ratio {
    assert!(rt; 1 <= den && den <= 1 << 52);
    assert!(rt; i128::from(num).unsigned_abs() <= 2046 * i128::from(den).unsigned_abs());
    Ratio::new(i128::from(num), i128::from(den))
}

// Whether the fraction is kept as `num / den`.
fn is_kept_as(a: Ratio, num: i64, den: i64) -> bool {
    a.num() == i128::from(num) && a.den() == i128::from(den)
}

// Whether the point is kept as (`x / w`, `y / w`).
fn is_kept_at(p: &Point, x: i64, y: i64, w: i64) -> bool {
    p.x() == x && p.y() == y && p.w() == w
}

// A spot with coordinates of at most 2046 in absolute value.
fn within(rt: &impl Abort, x: i64, y: i64) -> Spot
    ensures { IsWithin MOST_COORDINATE result }
{
    assert!(rt; -2046 <= x && x <= 2046);
    assert!(rt; -2046 <= y && y <= 2046);
    spot(x as i32, y as i32)
}

// Stops the program where the denominator is not below 2^25.
fn check_small(rt: &impl Abort, a: Ratio)
    ensures { unsigned_abs a.den < 2 ^ 25 }
{
    assert!(rt; a.den() < 1 << 25);
}

// The middle of two, whose denominators are small.
fn half(a: Ratio, b: Ratio) -> Ratio
    requires a_small { unsigned_abs a.den < 2 ^ 25 }
    requires b_small { unsigned_abs b.den < 2 ^ 25 }
{
    let _ = (a.den(), b.den());
    middle(a, b)
}

// The point with two coordinates, whose denominators are small.
fn point_from(a: Ratio, b: Ratio) -> Point
    requires a_small { unsigned_abs a.den < 2 ^ 25 }
    requires b_small { unsigned_abs b.den < 2 ^ 25 }
{
    let _ = (a.den(), b.den());
    Point::at(a, b)
}

// The height of a segment at an x, where it reaches it.
fn height_between(a: Spot, b: Spot, x: Ratio) -> Option<Ratio>
    requires a_bounded { IsWithin MOST_COORDINATE a }
    requires b_bounded { IsWithin MOST_COORDINATE b }
{
    if a.x >= b.x {
        return None;
    }
    let den = x.den();
    if den >= 1 << 26 {
        return None;
    }
    let num = x.num();
    let left = i128::from(a.x) * den;
    let right = i128::from(b.x) * den;
    if left > num {
        return None;
    }
    if num > right {
        return None;
    }
    Some(height(a, b, x))
}

// A point, and how it is kept.
const KEPT: &str = "2 4 6 1 2 3
-6 0 4 -3 0 2
0 0 7 0 0 1
1 1 2251799813685248 1 1 2251799813685248
2046 -2046 1 2046 -2046 1
4607182418800017408 -4607182418800017408 2251799813685248 2046 -2046 1";

#[test]
fn points_are_kept_in_lowest_terms(rt: HostRuntime) {
    for row in KEPT.lines() {
        let [x, y, w, kept_x, kept_y, kept_w] = numbers::<6>(&rt, row);
        assert!(rt;
            is_kept_at(&point(&rt, x, y, w), kept_x, kept_y, kept_w),
            "{row}"
        );
    }
    assert!(rt; is_kept_at(&Point::of(spot(-7, 2046)), -7, 2046, 1));
}

// Points with a weight or a coordinate out of range.
const OUT_OF_RANGE: &str = "1 1 0
1 1 -1
1 1 2251799813685249
2047 0 1
0 -2047 1
4607182418800017409 0 2251799813685248
0 -4607182418800017409 2251799813685248
-9223372036854775808 0 1
0 -9223372036854775808 2251799813685248
0 0 -9223372036854775808";

#[test]
fn points_out_of_range_are_none(rt: HostRuntime) {
    for row in OUT_OF_RANGE.lines() {
        let [x, y, w] = numbers::<3>(&rt, row);
        assert!(rt; Point::new(x, y, w).is_none(), "{row}");
    }
}

// Two points, and how the first stands to the second.
const ORDERED: &str = "1 2 3 1 0 2 -1
1 2 3 2 4 6 0
1 2 3 1 1 3 1
-1 5 2 -1 5 3 -1
4607182418800017407 0 2251799813685248 2046 0 1 -1
-2046 -1 1 -2046 -2251799813685247 2251799813685248 -1";

// Whether all that compares two points tells the same.
fn are_ordered(p: &Point, q: &Point, want: Ordering) -> bool {
    compare(p, q) == want
        && compare(q, p) == want.reverse()
        && p.cmp(q) == want
        && (p == q) == (want == Ordering::Equal)
}

#[test]
fn points_are_ordered_by_x_then_by_y(rt: HostRuntime) {
    for row in ORDERED.lines() {
        let [px, py, pw, qx, qy, qw, want] = numbers::<7>(&rt, row);
        let (p, q) = (point(&rt, px, py, pw), point(&rt, qx, qy, qw));
        assert!(rt; are_ordered(&p, &q, want.cmp(&0)), "{row}");
    }
}

// Two points, a spot, and on which side of the way from the first point to the second it is: 1 is the left.
const SIDES: &str = "0 0 1 1 0 2 0 1 1
0 0 1 1 0 2 5 0 0
0 0 1 1 0 2 0 -1 -1
1 0 2 0 0 1 0 1 -1
1 1 3 1 1 2 7 7 0
1 1 3 1 2 2 7 7 -1
4607182418800017407 -4607182418800017407 2251799813685248 -4607182418800017407 4607182418800017407 2251799813685248 -2046 -2046 1
4607182418800017407 -4607182418800017407 2251799813685248 -4607182418800017407 4607182418800017407 2251799813685248 2046 -2046 0
4607182418800017407 4607182418800017407 2251799813685248 -4607182418800017407 -4607182418800017407 2251799813685248 -2046 2046 -1";

#[test]
fn spots_lie_left_or_right_of_a_line(rt: HostRuntime) {
    for row in SIDES.lines() {
        let [px, py, pw, qx, qy, qw, x, y, want] = numbers::<9>(&rt, row);
        let (p, q) = (point(&rt, px, py, pw), point(&rt, qx, qy, qw));
        let side = side_of(&p, &q, within(&rt, x, y));
        assert!(rt; side == want.cmp(&0), "{row}");
    }
}

// A spot, and twice the signed area of the triangle that it makes with (0, 0) and (4, 2).
const AREAS: &str = "1 1 2
6 3 0
1 0 -2";

// Whether the spot has the signed area, and it and a point at its place have the orientation.
fn has_area(c: Spot, z: &Point, area: i64) -> bool {
    let (a, b) = (spot(0, 0), spot(4, 2));
    let want = area.cmp(&0);
    side(a, b, c) == i128::from(area)
        && orientation(a, b, c) == want
        && orientation_at(a, b, z) == want
}

#[test]
fn three_spots_have_a_side_and_an_orientation(rt: HostRuntime) {
    for row in AREAS.lines() {
        let [x, y, area] = numbers::<3>(&rt, row);
        let c = within(&rt, x, y);
        assert!(rt; has_area(c, &Point::of(c), area), "{row}");
    }
}

#[test]
fn a_point_has_an_orientation_and_far_spots_have_a_side(rt: HostRuntime) {
    let z = point(&rt, 1, 1, 2);
    assert!(rt; orientation_at(spot(0, 0), spot(4, 2), &z).is_gt());
    let far = side(spot(i32::MIN, 0), spot(i32::MAX, 0), spot(0, i32::MAX));
    assert!(rt; far == 9223372030412324865);
}

#[test]
fn spots_are_added_by_coordinates(rt: HostRuntime) {
    let (a, b) = (near(1, -2), near(-3, 5));
    assert!(rt; a.plus(b) == spot(-2, 3));
    assert!(rt; a.minus(b) == spot(4, -7));
    assert!(rt; a.to(b) == spot(-4, 7));
    assert!(rt; a.opposite() == spot(-1, 2));
}

#[test]
fn spots_are_compared_by_coordinates(rt: HostRuntime) {
    let (a, b) = (near(1, -2), near(-3, 5));
    assert!(rt; a.least(b) == spot(-3, -2));
    assert!(rt; a.greatest(b) == spot(1, 5));
    assert!(rt; b.is_before(a) && !a.is_before(b) && !a.is_before(a));
    assert!(rt; spot(1, -3).is_before(a));
}

// From (-1, -2) to (3, 4).
fn frame() -> Frame {
    Frame {
        low: spot(-1, -2),
        high: spot(3, 4),
    }
}

// A spot, and 1 where it is not strictly inside.
const AROUND: &str = "0 0 0
-1 0 1
3 0 1
0 -2 1
0 4 1
9 9 1
2 3 0";

#[test]
fn frames_hold_what_is_strictly_between_their_sides(rt: HostRuntime) {
    for row in AROUND.lines() {
        let [x, y, touched] = numbers::<3>(&rt, row);
        let p = within(&rt, x, y);
        assert!(rt; frame().is_on_or_beyond(p) == (touched == 1), "{row}");
    }
}

// A point; 1 where it is no longer strictly inside, and 1 where it is strictly beyond.
const AROUND_AT: &str = "1 1 2 0 0
-1 0 1 1 0
-5 0 4 1 1
-3 0 4 0 0
5 -4 2 1 0
5 -5 2 1 1
9 5 3 1 0
10 5 3 1 1
1 13 3 1 1
1 12 3 1 0
8 11 3 0 0";

#[test]
fn frames_tell_where_rational_points_are(rt: HostRuntime) {
    for row in AROUND_AT.lines() {
        let [x, y, w, touched, past] = numbers::<5>(&rt, row);
        let z = point(&rt, x, y, w);
        assert!(rt; frame().is_on_or_beyond_at(&z) == (touched == 1), "{row}");
        assert!(rt; frame().is_past(&z) == (past == 1), "{row}");
    }
}

#[test]
fn triangles_are_turned_counterclockwise(rt: HostRuntime) {
    let (a, b, c) = (spot(0, 0), spot(4, 0), spot(0, 3));
    assert!(rt; counterclockwise([a, b, c]) == [a, b, c]);
    assert!(rt; counterclockwise([a, c, b]) == [a, b, c]);
    assert!(rt; counterclockwise([c, b, a]) == [c, a, b]);
}

#[test]
fn triangles_begin_at_their_least_corner(rt: HostRuntime) {
    let (a, b, c) = (spot(0, 0), spot(4, 0), spot(0, 3));
    assert!(rt; from_least([a, b, c]) == [a, b, c]);
    assert!(rt; from_least([b, c, a]) == [a, b, c]);
    assert!(rt; from_least([c, a, b]) == [a, b, c]);
    assert!(rt; from_least([b, a, c]) == [a, c, b]);
}

// A point, and 1 where the segment from (4, 2) to (0, 0) has it.
const ON: &str = "2 1 1 1
0 0 1 1
4 2 1 1
3 3 4 0
6 3 4 1
6 3 1 0
-2 -1 1 0";

#[test]
fn segments_hold_their_points(rt: HostRuntime) {
    for row in ON.lines() {
        let [x, y, w, on] = numbers::<4>(&rt, row);
        let z = point(&rt, x, y, w);
        assert!(rt;
            on_segment(spot(4, 2), spot(0, 0), &z) == (on == 1),
            "{row}"
        );
    }
}

#[test]
fn a_segment_without_length_holds_its_point(rt: HostRuntime) {
    let a = spot(4, 2);
    assert!(rt; on_segment(a, a, &point(&rt, 8, 4, 2)));
    assert!(rt; !on_segment(a, a, &point(&rt, 2, 1, 1)));
}

// A fraction, and how it is kept.
const RATIOS: &str = "6 4 3 2
-6 4 -3 2
0 7 0 1
1 4503599627370496 1 4503599627370496
9214364837600034816 4503599627370496 2046 1
-9214364837600034816 4503599627370496 -2046 1
-9214364837600034815 4503599627370496 -9214364837600034815 4503599627370496";

#[test]
fn ratios_are_kept_in_lowest_terms(rt: HostRuntime) {
    for row in RATIOS.lines() {
        let [num, den, kept_num, kept_den] = numbers::<4>(&rt, row);
        assert!(rt;
            is_kept_as(ratio(&rt, num, den), kept_num, kept_den),
            "{row}"
        );
    }
}

// Two fractions, and how the first stands to the second.
const RATIO_ORDERS: &str = "1 3 1 2 -1
2 4 1 2 0
-1 2 1 3 -1
-1 3 -1 2 1
1 4503599627370496 1 4503599627370495 -1
9214364837600034815 4503599627370496 2046 1 -1";

#[test]
fn ratios_are_ordered_by_value(rt: HostRuntime) {
    for row in RATIO_ORDERS.lines() {
        let [a_num, a_den, b_num, b_den, want] = numbers::<5>(&rt, row);
        let (a, b) = (ratio(&rt, a_num, a_den), ratio(&rt, b_num, b_den));
        assert!(rt; a.cmp(&b) == want.cmp(&0), "{row}");
        assert!(rt; (a == b) == (want == 0) && (a < b) == (want < 0), "{row}");
    }
}

// Two fractions and their mediant.
const MEDIANTS: &str = "1 2 2 3 3 5
1 2 1 3 2 5
1 2 3 2 1 1
-1 4 1 6 0 1
0 1 -5 1 -5 2
7 12 5 18 2 5
-2046 1 2046 1 0 1";

#[test]
fn ratios_have_a_mediant(rt: HostRuntime) {
    for row in MEDIANTS.lines() {
        let [a_num, a_den, b_num, b_den, num, den] = numbers::<6>(&rt, row);
        let (a, b) = (ratio(&rt, a_num, a_den), ratio(&rt, b_num, b_den));
        check_small(&rt, a);
        check_small(&rt, b);
        assert!(rt; is_kept_as(mediant(a, b), num, den), "{row}");
    }
}

// Two fractions and their middle.
const MIDDLES: &str = "1 2 2 3 7 12
1 2 1 3 5 12
1 2 3 2 1 1
-1 4 1 6 -1 24
0 1 -5 1 -5 2
7 12 5 18 31 72
-2046 1 2046 1 0 1";

#[test]
fn ratios_have_a_middle(rt: HostRuntime) {
    for row in MIDDLES.lines() {
        let [a_num, a_den, b_num, b_den, num, den] = numbers::<6>(&rt, row);
        let (a, b) = (ratio(&rt, a_num, a_den), ratio(&rt, b_num, b_den));
        check_small(&rt, a);
        check_small(&rt, b);
        assert!(rt; is_kept_as(half(a, b), num, den), "{row}");
    }
}

// Two fractions, and the point that has them as coordinates.
const COORDINATES: &str = "1 2 2 3 3 4 6
1 2 1 3 3 2 6
1 2 3 2 1 3 2
-1 4 1 6 -3 2 12
0 1 -5 1 0 -5 1
7 12 5 18 21 10 36
-2046 1 2046 1 -2046 2046 1";

#[test]
fn ratios_are_coordinates_of_a_point(rt: HostRuntime) {
    for row in COORDINATES.lines() {
        let [x_num, x_den, y_num, y_den, x, y, w] = numbers::<7>(&rt, row);
        let (a, b) = (ratio(&rt, x_num, x_den), ratio(&rt, y_num, y_den));
        check_small(&rt, a);
        check_small(&rt, b);
        assert!(rt; is_kept_at(&point_from(a, b), x, y, w), "{row}");
    }
}

// The ends of a segment, an x between them, and the height there.
const HEIGHTS: &str = "0 0 4 2 3 2 3 4
0 0 3 1 1 1 1 3
-1 5 1 -5 1 2 -5 2
0 7 5 9 0 1 7 1
0 7 5 9 5 1 9 1
-128 3 127 3 1 3 3 1
-127 -127 127 126 0 1 -1 2";

#[test]
fn segments_have_a_height_at_each_x_between_their_ends(rt: HostRuntime) {
    for row in HEIGHTS.lines() {
        let [ax, ay, bx, by, x_num, x_den, num, den] = numbers::<8>(&rt, row);
        let (a, b) = (within(&rt, ax, ay), within(&rt, bx, by));
        let height = height_between(a, b, ratio(&rt, x_num, x_den)).expect(&rt, row);
        assert!(rt; is_kept_as(height, num, den), "{row}");
    }
}

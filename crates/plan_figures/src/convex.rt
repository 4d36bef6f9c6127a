use crate::given::point;
use plan_convex::{Convex, sum};
use plan_grid::{Point, Spot};
use std::process::Abort;

#[test]
fn merges_six_edges(rt: HostRuntime) {
    let obstacle = [
        Spot { x: 9, y: -5 },
        Spot { x: 11, y: -5 },
        Spot { x: 9, y: 10 },
    ];
    let robot = [
        Spot { x: 0, y: 0 },
        Spot { x: 1, y: 0 },
        Spot { x: 0, y: 1 },
    ];
    let want = [
        Spot { x: 8, y: -5 },
        Spot { x: 9, y: -6 },
        Spot { x: 11, y: -6 },
        Spot { x: 11, y: -5 },
        Spot { x: 9, y: 10 },
        Spot { x: 8, y: 10 },
    ];
    let polygon = sum(obstacle, robot);
    assert!(rt; polygon.spots() == want.as_slice());
    assert!(rt; polygon.holds(&Point::of(Spot { x: 8, y: 10 })));
    assert!(rt; !polygon.holds(&Point::of(Spot { x: 11, y: 10 })));
}

#[test]
fn joins_edges_of_one_direction(rt: HostRuntime) {
    let obstacle = [
        Spot { x: 9, y: 10 },
        Spot { x: 11, y: -5 },
        Spot { x: 11, y: 10 },
    ];
    let robot = [
        Spot { x: 0, y: 0 },
        Spot { x: 1, y: 0 },
        Spot { x: 0, y: 1 },
    ];
    let want = [
        Spot { x: 8, y: 10 },
        Spot { x: 10, y: -5 },
        Spot { x: 11, y: -6 },
        Spot { x: 11, y: 10 },
    ];
    assert!(rt; sum(obstacle, robot).spots() == want.as_slice());
}

#[test]
fn reflects_the_robot(rt: HostRuntime) {
    let obstacle = [
        Spot { x: 0, y: 0 },
        Spot { x: 10, y: 0 },
        Spot { x: 0, y: 10 },
    ];
    let robot = [
        Spot { x: 0, y: 0 },
        Spot { x: 3, y: 0 },
        Spot { x: 0, y: 1 },
    ];
    let want = [
        Spot { x: -3, y: 0 },
        Spot { x: 0, y: -1 },
        Spot { x: 10, y: -1 },
        Spot { x: 10, y: 0 },
        Spot { x: 0, y: 10 },
        Spot { x: -3, y: 10 },
    ];
    assert!(rt; sum(obstacle, robot).spots() == want.as_slice());
}

// The polygon with the corners (8,-5), (9,-6), (11,-6), (11,-5), (9,10) and (8,10).
fn hexagon() -> Convex {
    let obstacle = [
        Spot { x: 9, y: -5 },
        Spot { x: 11, y: -5 },
        Spot { x: 9, y: 10 },
    ];
    let robot = [
        Spot { x: 0, y: 0 },
        Spot { x: 1, y: 0 },
        Spot { x: 0, y: 1 },
    ];
    sum(obstacle, robot)
}

// Whether the hexagon meets the segment between two spots.
fn meets(rt: &impl Abort, a: (i64, i64), b: (i64, i64)) -> bool {
    hexagon().meets(&point(rt, a.0, a.1, 1), &point(rt, b.0, b.1, 1))
}

#[test]
fn is_met_inside_a_segment(rt: HostRuntime) {
    assert!(rt; meets(&rt, (2, 2), (15, 2)));
    assert!(rt; meets(&rt, (10, 20), (10, -20)));
    assert!(rt; !meets(&rt, (2, 2), (7, 2)));
    assert!(rt; !meets(&rt, (12, 2), (15, 2)));
}

#[test]
fn is_met_along_an_edge(rt: HostRuntime) {
    assert!(rt; meets(&rt, (8, 2), (8, 5)));
    assert!(rt; meets(&rt, (8, 10), (8, 15)));
    assert!(rt; !meets(&rt, (8, 11), (8, 15)));
}

#[test]
fn is_met_at_a_corner(rt: HostRuntime) {
    assert!(rt; meets(&rt, (5, 15), (8, 10)));
    assert!(rt; meets(&rt, (6, 8), (10, 12)));
    assert!(rt; !meets(&rt, (6, 9), (10, 13)));
    assert!(rt; !meets(&rt, (5, 15), (7, 11)));
}

#[test]
fn is_met_by_one_point(rt: HostRuntime) {
    assert!(rt; meets(&rt, (9, 0), (9, 0)));
    assert!(rt; meets(&rt, (9, 10), (9, 10)));
    assert!(rt; !meets(&rt, (11, 10), (11, 10)));
}

#[test]
fn is_met_by_rational_points(rt: HostRuntime) {
    let inside = point(&rt, 17, 19, 2);
    let left = point(&rt, 15, 19, 2);
    let farther = point(&rt, 13, 19, 2);
    assert!(rt; hexagon().meets(&inside, &left));
    assert!(rt; hexagon().meets(&left, &inside));
    assert!(rt; !hexagon().meets(&left, &farther));
}

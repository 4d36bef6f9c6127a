ghost use Rattle.std.specs.Prelude.{◌≡◌};

use plan_convex::{Convex, sum};
use plan_grid::Spot;

fn spot(x: i32, y: i32) -> Spot
    ensures { result ≡ record { x = x; y = y } }
{
    Spot { x, y }
}

const ROBOT: [Spot; 3] = [
    Spot { x: 0, y: 0 },
    Spot { x: 1, y: 0 },
    Spot { x: 0, y: 1 },
];

// The polygon with the corners (8,-5), (9,-6), (11,-6), (11,-5), (9,10) and (8,10).
fn hexagon() -> Convex {
    sum([spot(9, -5), spot(11, -5), spot(9, 10)], ROBOT)
}

// The polygon with the corners (8,10), (10,-5), (11,-6) and (11,10).
fn quadrangle() -> Convex {
    sum([spot(9, 10), spot(11, -5), spot(11, 10)], ROBOT)
}

#[test]
fn clips_in_lowest_terms(rt: HostRuntime) {
    let span = hexagon()
        .clip(spot(6, 5), spot(14, 5))
        .expect(&rt, "a span");
    assert_eq!(rt; (span.n0, span.d0, span.n1, span.d1), (1, 4, 11, 24));
}

#[test]
fn clips_the_other_way_round(rt: HostRuntime) {
    let span = hexagon()
        .clip(spot(14, 5), spot(6, 5))
        .expect(&rt, "a span");
    assert_eq!(rt; (span.n0, span.d0, span.n1, span.d1), (13, 24, 3, 4));
}

#[test]
fn clips_nothing_along_an_edge(rt: HostRuntime) {
    assert!(rt; quadrangle().clip(spot(8, 10), spot(11, 10)).is_none());
    assert!(rt; hexagon().clip(spot(8, 10), spot(11, 10)).is_none());
    assert!(rt; hexagon().clip(spot(8, -9), spot(8, 12)).is_none());
}

#[test]
fn clips_nothing_at_a_corner(rt: HostRuntime) {
    assert!(rt; hexagon().clip(spot(6, 8), spot(10, 12)).is_none());
    assert!(rt; hexagon().clip(spot(12, 0), spot(15, 7)).is_none());
}

#[test]
fn clips_the_whole_edge_but_its_ends(rt: HostRuntime) {
    let span = hexagon().clip(spot(9, 0), spot(9, 3)).expect(&rt, "a span");
    assert_eq!(rt; (span.n0, span.d0, span.n1, span.d1), (0, 1, 1, 1));
}

#[test]
fn clips_at_the_greatest_coordinates(rt: HostRuntime) {
    let polygon = sum(
        [spot(1021, 1022), spot(-1021, 1023), spot(-1023, -1021)],
        [spot(-1023, 1023), spot(1022, -1023), spot(1023, -1022)],
    );
    let span = polygon
        .clip(spot(2046, 2045), spot(-2045, -2046))
        .expect(&rt, "a span");
    assert_eq!(rt; (span.n0, span.d0), (4_188_162, 16_736_281));
    assert_eq!(rt; (span.n1, span.d1), (12_550_164, 16_736_281));
}

#[test]
fn covers_no_boundary(rt: HostRuntime) {
    assert!(rt; hexagon().covers(spot(9, 5)));
    assert!(rt; !hexagon().covers(spot(8, 5)));
    assert!(rt; !hexagon().covers(spot(9, 10)));
    assert!(rt; !hexagon().covers(spot(12, 5)));
}

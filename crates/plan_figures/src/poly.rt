use crate::given::spots;
use plan_grid::{Point, Spot};
use plan_poly::{PolyFault, Polygon};
use std::alloc::{AllocError, Global};
use std::process::Abort;

// Reads a list that has few spots.
fn read(rt: &impl Abort, list: Vec<Spot>) -> Result<Polygon, PolyFault> {
    assert!(rt; list.len() < 100);
    Polygon::read(list)
}

// The list must be refused with this fault.
fn refused(
    rt: &impl Abort,
    alloc: Global,
    coordinates: &[i32],
    want: PolyFault,
) -> Result<(), AllocError> {
    let found = read(rt, spots(alloc, coordinates)?).err();
    assert_eq!(rt; found, Some(want));
    Ok(())
}

// The list must be a polygon that is kept in this way.
fn kept(rt: &impl Abort, list: Vec<Spot>, want: &[Spot]) {
    let polygon = read(rt, list).ok().expect(rt, "simple");
    assert!(rt; polygon.spots() == want);
}

// The polygon must be kept in the same way where its list begins at another vertex, and where it runs the other way.
fn kept_from(
    rt: &impl Abort,
    alloc: Global,
    polygon: &[Spot],
    first: usize,
) -> Result<(), AllocError> {
    let mut list = Vec::from_slice(alloc, polygon)?;
    assert!(rt; first < list.len());
    list.rotate_left(first);
    let mut back = Vec::from_slice(alloc, &list)?;
    back.reverse();
    kept(rt, list, polygon);
    kept(rt, back, polygon);
    Ok(())
}

// Each point, by its x, y and weight in turn, must be held, or none of them.
fn held(rt: &impl Abort, polygon: &Polygon, points: &[i64], want: bool) {
    for k in 0..points.len() / 3 {
        let z = Point::new(points[3 * k], points[3 * k + 1], points[3 * k + 2]).expect(
            rt, "in range",
        );
        assert!(rt; polygon.holds(&z) == want, "point {k}");
    }
}

#[test]
fn refuses_too_few_and_too_many(rt: HostRuntime) -> Result<(), AllocError> {
    let alloc = rt.alloc();
    refused(&rt, alloc, &[], PolyFault::Few(0))?;
    refused(&rt, alloc, &[0, 0, 1, 0], PolyFault::Few(2))?;
    refused(&rt, alloc, &[0; 66], PolyFault::Many(33))
}

#[test]
fn refuses_too_far(rt: HostRuntime) -> Result<(), AllocError> {
    let alloc = rt.alloc();
    refused(&rt, alloc, &[0, 0, 1024, 0, 0, 2000], PolyFault::Range(1))?;
    refused(&rt, alloc, &[0, 0, 1023, 0, 0, -1024], PolyFault::Range(2))?;
    let farthest = spots(alloc, &[0, 0, 1023, 0, 0, -1023])?;
    assert!(rt; read(&rt, farthest).is_ok());
    Ok(())
}

#[test]
fn names_the_first_two_edges_that_meet_wrongly(rt: HostRuntime) -> Result<(), AllocError> {
    let alloc = rt.alloc();
    let crossing = [0, 0, 2, 2, 2, 0, 0, 2];
    refused(&rt, alloc, &crossing, PolyFault::NotSimple(0, 2))?;
    let touching = [0, 0, 6, 0, 6, 6, 3, 0, 0, 6];
    refused(&rt, alloc, &touching, PolyFault::NotSimple(0, 2))?;
    let vertex_twice = [0, 0, 4, 0, 2, 2, 4, 4, 0, 4, 2, 2];
    refused(&rt, alloc, &vertex_twice, PolyFault::NotSimple(1, 4))?;
    let late = [0, 0, 9, 0, 9, 9, 6, 9, 6, 3, 3, 3, 3, 6, 8, 6, 8, 8, 0, 8];
    refused(&rt, alloc, &late, PolyFault::NotSimple(3, 6))
}

#[test]
fn names_the_first_two_edges_that_overlap(rt: HostRuntime) -> Result<(), AllocError> {
    let alloc = rt.alloc();
    let flat = [0, 0, 1, 0, 2, 0];
    refused(&rt, alloc, &flat, PolyFault::NotSimple(0, 2))?;
    let overlapping = [0, 0, 6, 0, 6, 4, 4, 0, 2, 0, 0, 4];
    refused(&rt, alloc, &overlapping, PolyFault::NotSimple(0, 2))?;
    let spike = [0, 4, 0, 0, 4, 0, 8, 0, 4, 0, 4, 4];
    refused(&rt, alloc, &spike, PolyFault::NotSimple(1, 3))?;
    let three_equal = [1; 6];
    refused(&rt, alloc, &three_equal, PolyFault::NotSimple(0, 1))?;
    let two_equal = [0, 0, 4, 0, 4, 0, 0, 4];
    refused(&rt, alloc, &two_equal, PolyFault::NotSimple(0, 2))
}

#[test]
fn keeps_one_list_of_a_polygon(rt: HostRuntime) -> Result<(), AllocError> {
    let alloc = rt.alloc();
    let ell = spots(alloc, &[0, 0, 4, 0, 4, 2, 2, 2, 2, 4, 0, 4])?;
    for first in 0..6 {
        kept_from(&rt, alloc, &ell, first)?;
    }
    Ok(())
}

#[test]
fn accepts_vertices_at_a_straight_angle(rt: HostRuntime) -> Result<(), AllocError> {
    let list = spots(rt.alloc(), &[8, 8, 8, 0, 4, 0, 0, 0, 0, 8])?;
    let want = spots(rt.alloc(), &[0, 0, 4, 0, 8, 0, 8, 8, 0, 8])?;
    kept(&rt, list, &want);
    Ok(())
}

#[test]
fn holds_its_inside_and_its_boundary(rt: HostRuntime) -> Result<(), AllocError> {
    let dart = spots(rt.alloc(), &[0, 0, 6, 1, 2, 2, 1, 6])?;
    let polygon = read(&rt, dart).ok().expect(&rt, "simple");
    held(&rt, &polygon, &[0, 0, 1, 6, 1, 1, 2, 2, 1, 1, 6, 1], true);
    held(&rt, &polygon, &[4, 3, 2, 6, 1, 2, 3, 8, 2, 1, 1, 1], true);
    held(&rt, &polygon, &[3, 2, 1, 2, 4, 1, 2, 3, 1, 2, 0, 1], false);
    held(
        &rt,
        &polygon,
        &[1, 7, 1, 1, -1, 1, -1, 0, 1, 7, 1, 1],
        false,
    );
    Ok(())
}

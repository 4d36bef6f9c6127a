use crate::given::spots;
use plan_grid::Spot;
use plan_poly::Polygon;
use plan_tri::{NoMemory, Triangle, Triangles, triangulate};
use std::alloc::{AllocError, Global};
use std::process::Abort;

// The triangles whose corners have these coordinates.
fn triangles(alloc: Global, coordinates: &[i32]) -> Result<Vec<Triangle>, AllocError> {
    let corners = spots(alloc, coordinates)?;
    let mut triangles = Vec::new(alloc);
    for k in 0..corners.len() / 3 {
        triangles.push(Triangle {
            a: corners[3 * k],
            b: corners[3 * k + 1],
            c: corners[3 * k + 2],
        })?;
    }
    Ok(triangles)
}

// The triangles of the simple polygon whose vertices have these coordinates.
fn cut(rt: &impl Abort, alloc: Global, coordinates: &[i32]) -> Result<Triangles, NoMemory> {
    let list = spots(alloc, coordinates)?;
    assert!(rt; list.len() < 100);
    let polygon = Polygon::read(list).ok().expect(rt, "simple");
    triangulate(alloc, &polygon)
}

// The polygon must have these triangles.
fn cuts(rt: &impl Abort, alloc: Global, polygon: &[i32], want: &[i32]) -> Result<(), NoMemory> {
    let found = cut(rt, alloc, polygon)?;
    let want = triangles(alloc, want)?;
    assert!(rt; found.list.as_slice() == want.as_slice());
    Ok(())
}

// A polygon of 32 vertices must have 30 triangles.
fn cuts_into_30(rt: &impl Abort, alloc: Global, polygon: &[i32; 64]) -> Result<(), NoMemory> {
    let found = cut(rt, alloc, polygon)?;
    assert_eq!(rt; found.list.len(), 30);
    Ok(())
}

#[test]
fn cuts_ears_and_diagonals(rt: HostRuntime) -> Result<(), NoMemory> {
    let alloc = rt.alloc();
    let ell = [0, 0, 4, 0, 4, 2, 2, 2, 2, 4, 0, 4];
    let want = [
        0, 0, 4, 0, 2, 2, 2, 2, 4, 0, 4, 2, 0, 0, 2, 2, 0, 4, 0, 4, 2, 2, 2, 4,
    ];
    cuts(&rt, alloc, &ell, &want)?;
    let dart = [1, 6, 2, 2, 6, 1, 0, 0];
    let want = [0, 0, 6, 1, 2, 2, 0, 0, 2, 2, 1, 6];
    cuts(&rt, alloc, &dart, &want)?;
    let three = [3, 3, 0, 5, 1, 0];
    let want = [0, 5, 1, 0, 3, 3];
    cuts(&rt, alloc, &three, &want)
}

// Of two vertices in the ear the later one is farther from the line through the neighbours.
#[test]
fn cuts_to_the_farthest_vertex(rt: HostRuntime) -> Result<(), NoMemory> {
    let list = [0, 0, 12, 0, 6, 4, 9, 9, 2, 3, 3, 9, 0, 12];
    let want = [
        0, 0, 12, 0, 2, 3, 2, 3, 12, 0, 6, 4, 2, 3, 6, 4, 9, 9, 0, 0, 2, 3, 0, 12, 0, 12, 2, 3, 3,
        9,
    ];
    cuts(&rt, rt.alloc(), &list, &want)
}

// (3, 1) and (1, 3) are equally far.
#[test]
fn cuts_to_the_first_of_equals(rt: HostRuntime) -> Result<(), NoMemory> {
    let list = [0, 0, 12, 0, 3, 1, 8, 8, 1, 3, 0, 12];
    let want = [
        0, 0, 12, 0, 3, 1, 0, 0, 3, 1, 1, 3, 1, 3, 3, 1, 8, 8, 0, 0, 1, 3, 0, 12,
    ];
    cuts(&rt, rt.alloc(), &list, &want)
}

// (4, 4) is on the line from (8, 0) to (0, 8), and so in the closed ear.
#[test]
fn cuts_to_a_vertex_on_the_side_of_the_ear(rt: HostRuntime) -> Result<(), NoMemory> {
    let list = [0, 0, 8, 0, 4, 4, 8, 8, 0, 8];
    let want = [0, 0, 8, 0, 4, 4, 0, 0, 4, 4, 0, 8, 0, 8, 4, 4, 8, 8];
    cuts(&rt, rt.alloc(), &list, &want)
}

#[test]
fn cuts_at_straight_angles(rt: HostRuntime) -> Result<(), NoMemory> {
    let list = [0, 0, 4, 0, 8, 0, 8, 8, 4, 4, 0, 8];
    let want = [
        0, 0, 4, 0, 0, 8, 0, 8, 4, 0, 4, 4, 4, 0, 8, 0, 4, 4, 4, 4, 8, 0, 8, 8,
    ];
    cuts(&rt, rt.alloc(), &list, &want)
}

#[test]
fn cuts_a_comb_of_32_vertices(rt: HostRuntime) -> Result<(), NoMemory> {
    let comb = [
        0, 0, 30, 0, 30, 10, 29, 5, 28, 10, 27, 5, 26, 10, 25, 5, 24, 10, 23, 5, 22, 10, 21, 5, 20,
        10, 19, 5, 18, 10, 17, 5, 16, 10, 15, 5, 14, 10, 13, 5, 12, 10, 11, 5, 10, 10, 9, 5, 8, 10,
        7, 5, 6, 10, 5, 5, 4, 10, 3, 5, 2, 10, 1, 5,
    ];
    cuts_into_30(&rt, rt.alloc(), &comb)
}

#[test]
fn cuts_a_star_of_32_vertices(rt: HostRuntime) -> Result<(), NoMemory> {
    let star = [
        1000, 0, 392, 78, 924, 383, 333, 222, 707, 707, 222, 333, 383, 924, 78, 392, 0, 1000, -78,
        392, -383, 924, -222, 333, -707, 707, -333, 222, -924, 383, -392, 78, -1000, 0, -392, -78,
        -924, -383, -333, -222, -707, -707, -222, -333, -383, -924, -78, -392, 0, -1000, 78, -392,
        383, -924, 222, -333, 707, -707, 333, -222, 924, -383, 392, -78,
    ];
    cuts_into_30(&rt, rt.alloc(), &star)
}

#[test]
fn cuts_a_spiral_of_32_vertices(rt: HostRuntime) -> Result<(), NoMemory> {
    let spiral = [
        0, 0, 60, 0, 60, 60, 4, 60, 4, 8, 52, 8, 52, 52, 12, 52, 12, 16, 44, 16, 44, 44, 20, 44,
        20, 24, 36, 24, 36, 36, 28, 36, 28, 32, 32, 32, 32, 28, 24, 28, 24, 40, 40, 40, 40, 20, 16,
        20, 16, 48, 48, 48, 48, 12, 8, 12, 8, 56, 56, 56, 56, 4, 0, 4,
    ];
    cuts_into_30(&rt, rt.alloc(), &spiral)
}

ghost use Rattle.std.specs.Prelude.{◌≡◌, ℕ, ◌+◌, ◌≤◌, ◌↔◌, ◌++◌, length, All, IfOk};
ghost use Rattle.plan_spec.specs.Vector.{Vector, IsPoint};
ghost use Rattle.plan_spec.specs.SimplePolygon.{InPolygon};
ghost use Rattle.plan_spec.specs.Triangulation.{triangles, triangles_within};
ghost use Rattle.plan_grid.specs.Spot.{spots_seen};
ghost use Rattle.plan_tri.specs.Triangle.{triangles_seen, InSome, IsProper};

use crate::no_memory::NoMemory;
use crate::step::{Step, first_step};
use crate::triangle::{Triangle, Triangles};
use plan_grid::Spot;
use plan_poly::Polygon;
use std::alloc::{AllocError, Global};

/// The triangles of the polygon: at the least vertex an ear is cut off, or the polygon is cut to the vertex in the ear
/// that is farthest from the line through the two neighbours (de Berg et al., Computational Geometry, 3.1). Takes up to
/// n² tests of a point in a triangle for n vertices, and memory for the lists of vertices of the parts.
pub fn triangulate(alloc: Global, polygon: &Polygon) -> Result<Triangles, NoMemory>
    ensures value { IfOk result (λ t. triangles_seen t ≡ triangles (spots_seen polygon.now)) }
    ensures region { IfOk result (λ t. (z : Vector) → IsPoint z
        → InSome (triangles_seen t) z ↔ InPolygon (spots_seen polygon.now) z) }
    ensures count { IfOk result (λ t. length t + 2 ≡ length polygon.now) }
    ensures proper { IfOk result (All IsProper) }
{
    let spots = polygon.spots();
    let mut list = Vec::with_capacity(alloc, spots.len())?;
    cut(alloc, Vec::from_slice(alloc, spots)?, &mut list)?;
    Ok(Triangles { list })
}

// Puts the triangles of the polygon behind those of the list.
fn cut(alloc: Global, spots: Vec<Spot>, list: &mut Vec<Triangle>) -> Result<(), AllocError>
    ensures { IfOk result (λ _. (k : ℕ) → length spots.items ≤ k
        → triangles_seen list.new.items ≡ triangles_seen list.old.items ++ triangles_within k (spots_seen spots.items)) }
{
    if spots.len() < 3 {
        return Ok(());
    }
    match first_step(alloc, spots)? {
        Step::Ear(ear, rest) => {
            list.push(ear)?;
            cut(alloc, rest, list)
        }
        Step::Parts(first, second) => {
            cut(alloc, first, list)?;
            cut(alloc, second, list)
        }
    }
}

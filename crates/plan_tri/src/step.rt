ghost use Rattle.std.specs.Prelude.{◌≡◌, ◌<◌, ◌≤◌, List, length, IfOk};
ghost use Rattle.plan_spec.specs.Vector.{Vector};
ghost use Rattle.plan_spec.specs.Triangulation as spec;
ghost use Rattle.plan_spec.specs.Triangulation.{from_corner, from_least};
ghost use Rattle.plan_grid.specs.Spot.{spots_seen};
ghost use Rattle.plan_tri.specs.Step.{after, IsSmaller};

use crate::search::farthest;
use crate::triangle::Triangle;
use plan_grid::Spot;
use plan_poly::turn_to_least;
use std::alloc::{AllocError, Global};

/// What is left of a polygon after its first cut.
#[derive(Drop)]
pub enum Step {
    /// The ear that is cut off, and the vertices of what it leaves.
    Ear(Triangle, Vec<Spot>),
    /// The vertices of the two parts.
    Parts(Vec<Spot>, Vec<Spot>),
}

/// Cuts a polygon of at least three vertices at its least one: an ear, or to the vertex in the ear that is farthest from
/// the line through the two neighbours.
pub fn first_step(alloc: Global, spots: Vec<Spot>) -> Result<Step, AllocError>
    requires { 3 ≤ length spots.items }
    ensures value { IfOk result (λ s. (rest : List Vector → List spec.Triangle)
        → from_corner rest (from_least (spots_seen spots.items)) ≡ after rest s) }
    ensures smaller { IfOk result (IsSmaller (length spots.items)) }
{
    let mut spots = begun_at_least(spots);
    let last = spots.len() - 1;
    let (v, w, u) = (spots[0], spots[1], spots[last]);
    match farthest(v, w, u, &spots[2..last]) {
        None => {
            spots.remove(0);
            Ok(Step::Ear(Triangle { a: v, b: w, c: u }, spots))
        }
        Some(k) => {
            let first = Vec::from_slice(alloc, &spots[..k + 3])?;
            let mut second = Vec::from_slice(alloc, &spots[k + 2..])?;
            second.push(v)?;
            Ok(Step::Parts(first, second))
        }
    }
}

// The vertices from the least one on.
fn begun_at_least(mut spots: Vec<Spot>) -> Vec<Spot>
    ensures value { spots_seen result.items ≡ from_least (spots_seen spots.items) }
    ensures count { length result.items ≡ length spots.items }
{
    turn_to_least(&mut spots);
    spots
}

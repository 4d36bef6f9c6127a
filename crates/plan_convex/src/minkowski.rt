ghost use Rattle.std.specs.Prelude.{◌≡◌, ◌↔◌, map};
ghost use Rattle.plan_spec.specs.Vector.{Vector, IsPoint, minus};
ghost use Rattle.plan_spec.specs.Polygon.{Inside};
ghost use Rattle.plan_grid.specs.Spot.{spots_seen, opposite};
ghost use Rattle.plan_grid.specs.Triangle.{IsCounterclockwise};
ghost use Rattle.plan_convex.specs.Walk.{corners, InSum, IsStart};

use crate::convex::Convex;
use crate::vertices::Vertices;
use crate::walk::{Walk, step};
use plan_grid::Spot;

/// The Minkowski sum of the obstacle and the reflected robot: the placements at which the robot has a point in common
/// with the obstacle. Both are triangles, counterclockwise and not flat, with coordinates of at most 1023.
///
/// The edges of both triangles, merged by direction, are the edges of the sum (de Berg et al., Computational Geometry,
/// 3rd ed., section 13.3).
pub fn sum(obstacle: [Spot; 3], robot: [Spot; 3]) -> Convex
    requires obstacle { IsCounterclockwise obstacle }
    requires robot { IsCounterclockwise robot }
    ensures meaning { (p : Vector) → IsPoint p → (Inside (spots_seen result) p
        ↔ ((z : Vector) × IsPoint z × Inside (spots_seen obstacle) z
        × Inside (spots_seen robot) (minus z p))) }
{
    merged(
        Walk::from_least(obstacle),
        Walk::from_least(reflected(robot)),
    )
}

// The triangle on the other side of the origin.
fn reflected(triangle: [Spot; 3]) -> [Spot; 3]
    requires { IsCounterclockwise triangle }
    ensures { result ≡ map opposite triangle }
{
    [
        triangle[0].opposite(),
        triangle[1].opposite(),
        triangle[2].opposite(),
    ]
}

// The sum of two triangles, round which `a` and `b` walk from the least corner on.
fn merged(mut a: Walk, mut b: Walk) -> Convex
    requires a { IsStart a }
    requires b { IsStart b }
    ensures { (p : Vector) → IsPoint p → (Inside (spots_seen result) p
        ↔ InSum (spots_seen (corners a)) (spots_seen (corners b)) p) }
{
    let mut vertices = Vertices::new();
    while a.edges_left + b.edges_left > 0 {
        vertices.push(a.at.plus(b.at));
        let (next_a, next_b) = step(a, b);
        a = next_a;
        b = next_b;
    }
    Convex::of(vertices)
}

ghost use Rattle.std.specs.Prelude.{◌≡◌, pos, ◌<◌, ◌≤ℤ◌};
ghost use Rattle.plan_grid.specs.Order.{IsSign};
ghost use Rattle.plan_grid.specs.Spot.{IsWithin, cross};
ghost use Rattle.plan_grid.specs.Triangle.{IsCounterclockwise, IsRotation};
ghost use Rattle.plan_convex.specs.Walk.{corners, edge, IsStart, IsOnward, IsStep};

use plan_grid::{MOST_CORNER, Spot, from_least, orientation};
use std::cmp::Ordering;

const ORIGIN: Spot = Spot { x: 0, y: 0 };

/// A walk round a triangle, counterclockwise: the corner where it stands, the next one and the previous one, and how
/// many edges are still ahead.
#[derive(Clone, Copy, Debug)]
pub struct Walk {
    pub at: Spot,
    pub next: Spot,
    pub previous: Spot,
    pub edges_left: usize,
}

impl Walk {
    /// From the least corner of a counterclockwise triangle on.
    pub fn from_least(triangle: [Spot; 3]) -> Walk
        requires { IsCounterclockwise triangle }
        ensures start { IsStart result }
        ensures rotation { IsRotation triangle (corners result) }
    {
        let [at, next, previous] = from_least(triangle);
        Walk {
            at,
            next,
            previous,
            edges_left: 3,
        }
    }

    /// On to the next corner.
    pub fn onward(self) -> Walk
        requires { 0 < self.edges_left }
        ensures { IsOnward self result }
    {
        Walk {
            at: self.next,
            next: self.previous,
            previous: self.at,
            edges_left: self.edges_left - 1,
        }
    }

    /// The direction of the edge ahead.
    pub fn edge(self) -> Spot
        requires at_bounded { IsWithin MOST_CORNER self.at }
        requires next_bounded { IsWithin MOST_CORNER self.next }
        ensures { result ≡ edge self }
    {
        self.at.to(self.next)
    }
}

// How the edge of `b` lies to the edge of `a`: greater where it points to the left of it.
fn bend(a: Walk, b: Walk) -> Ordering
    requires a_at { IsWithin MOST_CORNER a.at }
    requires a_next { IsWithin MOST_CORNER a.next }
    requires b_at { IsWithin MOST_CORNER b.at }
    requires b_next { IsWithin MOST_CORNER b.next }
    ensures { IsSign result (cross (edge a) (edge b)) }
{
    orientation(ORIGIN, a.edge(), b.edge())
}

/// On along the edge that turns less to the left, or along both where they have one direction.
pub fn step(a: Walk, b: Walk) -> (Walk, Walk)
    requires a_at { IsWithin MOST_CORNER a.at }
    requires a_next { IsWithin MOST_CORNER a.next }
    requires b_at { IsWithin MOST_CORNER b.at }
    requires b_next { IsWithin MOST_CORNER b.next }
    requires a_left { pos 0 ≤ℤ cross (edge a) (edge b) → 0 < a.edges_left }
    requires b_left { cross (edge a) (edge b) ≤ℤ pos 0 → 0 < b.edges_left }
    ensures { IsStep a b result.0 result.1 }
{
    match bend(a, b) {
        Ordering::Greater => (a.onward(), b),
        Ordering::Less => (a, b.onward()),
        Ordering::Equal => (a.onward(), b.onward()),
    }
}

ghost use Rattle.std.specs.Prelude.{◌≡◌, ◌↔◌, ℕ, ◌<◌, [], ◌∷◌, map, length, All, IsTrue, IfOk, OnOk, MatchOption};
ghost use Rattle.std.specs.List.{AllZip};
ghost use Rattle.plan_spec.specs.Polygon.{Inside};
ghost use Rattle.plan_spec.specs.Sums.{Part, IsMeeting, part, parts_of};
ghost use Rattle.plan_spec.specs.Triangulation as spec;
ghost use Rattle.plan_grid.specs.Spot.{spots_seen};
ghost use Rattle.plan_convex.specs.Boxes.{IsBox};
ghost use Rattle.plan_tri.specs.Triangle.{triangle_seen, triangles_seen, IsProper};
ghost use Rattle.plan_scene.specs.Built.{AreSumsOf, Adds, parts_by, IsFirstOwner, HoldsNone};

use crate::obstacle::Obstacle;
use plan_convex::{Convex, bounds, sum};
use plan_grid::{Frame, Point};
use plan_tri::Triangle;
use std::alloc::{AllocError, Global};

/// The sums of a scene, in their order, each with its bounding box and the id of its obstacle.
#[derive(Drop)]
pub struct Sums {
    pub list: Vec<Convex>,
    pub bounds: Vec<Frame>,
    pub owners: Vec<u32>,
}

impl Sums {
    /// The sums of the obstacles with a robot of these triangles: by the obstacles, then by the obstacle's triangles,
    /// then by the robot's.
    pub fn of(alloc: Global, robot: &[Triangle], obstacles: &[Obstacle]) -> Result<Sums, AllocError>
        requires { All IsProper robot.now }
        ensures { IfOk result (AreSumsOf (parts_by (triangles_seen robot.now) obstacles.now)) }
    {
        let mut sums = Sums {
            list: Vec::new(alloc),
            bounds: Vec::new(alloc),
            owners: Vec::new(alloc),
        };
        for obstacle in obstacles {
            sums = sums.with_obstacle(obstacle.id(), obstacle.shape().triangles(), robot)?;
        }
        Ok(sums)
    }

    // With those of an obstacle of these triangles.
    fn with_obstacle(
        self,
        id: u32,
        pieces: &[Triangle],
        robot: &[Triangle],
    ) -> Result<Sums, AllocError>
        requires pieces { All IsProper pieces.now }
        requires robot { All IsProper robot.now }
        ensures { IfOk result (Adds (parts_of (triangles_seen robot.now) id (triangles_seen pieces.now)) self) }
    {
        let mut sums = self;
        for piece in pieces {
            sums = sums.with_triangle(id, *piece, robot)?;
        }
        Ok(sums)
    }

    // With those of one triangle of an obstacle.
    fn with_triangle(self, id: u32, piece: Triangle, robot: &[Triangle]) -> Result<Sums, AllocError>
        requires piece { IsProper piece }
        requires robot { All IsProper robot.now }
        ensures { IfOk result (Adds (map (part id (triangle_seen piece)) (triangles_seen robot.now)) self) }
    {
        let mut sums = self;
        for part in robot {
            let next = sum([piece.a, piece.b, piece.c], [part.a, part.b, part.c]);
            sums = sums.with(id, next)?;
        }
        Ok(sums)
    }

    // With one more sum.
    fn with(self, id: u32, next: Convex) -> Result<Sums, AllocError>
        ensures { IfOk result (λ t. (p : Part) → p.owner ≡ id → IsMeeting p (spots_seen next) → Adds (p ∷ []) self t) }
    {
        let mut sums = self;
        sums.bounds.push(bounds(next.spots()))?;
        sums.owners.push(id)?;
        sums.list.push(next)?;
        Ok(sums)
    }

    /// The owner of the first sum that holds the point.
    pub fn first_owner(&self, z: &Point) -> Option<u32>
        requires boxes { AllZip IsBox self.now.list.items self.now.bounds.items }
        requires owners { length self.now.owners.items ≡ length self.now.list.items }
        ensures { MatchOption result (HoldsNone self.now z.now) (IsFirstOwner self.now z.now) }
    {
        for i in 0..self.list.len() {
            if holds(&self.list[i], self.bounds[i], z) {
                return Some(self.owners[i]);
            }
        }
        None
    }
}

// Whether the sum holds the point, which most often its box tells.
fn holds(sum: &Convex, bounds: Frame, z: &Point) -> bool
    requires { IsBox sum.now bounds }
    ensures { IsTrue result ↔ Inside (spots_seen sum.now) z.now }
{
    prove!(sum.spots().len() >= 3);
    !bounds.is_past(z) && sum.holds(z)
}

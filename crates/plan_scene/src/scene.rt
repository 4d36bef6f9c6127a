ghost use Rattle.std.specs.Prelude.{◌≡◌, ◌↔◌, ℕ, ◌<◌, ◌≤◌, [], length, get_or, All, IsTrue, IfOk, MatchOption, MatchResult, slice_index};
ghost use Rattle.plan_spec.specs.Placement.{IsClear, IsTouched};
ghost use Rattle.plan_spec.specs.Room.{IsRoom};
ghost use Rattle.plan_spec.specs.Sums.{Part, AreSums, parts};
ghost use Rattle.plan_grid.specs.Frame.{frame_seen};
ghost use Rattle.plan_grid.specs.Spot.{spots_seen, IsWithin};
ghost use Rattle.plan_convex.specs.Piece.{sums_seen};
ghost use Rattle.std.specs.Arc.{arc_value};
ghost use Rattle.plan_scene.specs.Scene as spec;
ghost use Rattle.plan_scene.specs.Scene.{scene_seen, obstacle, with_obstacle, IsFrame, IsScene, sum_count};
ghost use Rattle.plan_scene.specs.Edits.{IsId, IsShape, IsEdit, IsEdited, IsAdded, IsNotAdded, IsRemoved, IsNotRemoved, IsRefused, IsRefusedRobot, IsNotSimple, HasId, sums_with};
ghost use Rattle.plan_poly.specs.Polygon.{IsPolygon, IsRead};

use crate::edit::Edit;
use crate::fault::{EditFault, SceneFault};
use crate::obstacle::{Obstacle, with_added, without_id};
use crate::shape::Shape;
use crate::sums::Sums;
use plan_convex::{Convex, bounds};
use plan_grid::{Frame, MOST_COORDINATE, MOST_CORNER, Point, Spot};
use plan_poly::{PolyFault, Polygon};
use plan_tri::NoMemory;
use std::alloc::{AllocError, Global};
use std::marker::Model;
use std::sync::Arc;

/// A robot among obstacles in a frame: simple polygons, the obstacles by rising id. It keeps its room, strictly inside
/// which the robot is strictly inside the frame, and for each pair of a triangle of an obstacle and a triangle of the
/// robot their sum, which holds the placements at which the two have a common point (de Berg et al., Computational
/// Geometry, 3rd ed., 13.1 and 13.3).
#[derive(Drop)]
pub struct Scene {
    robot: Arc<Shape>,
    frame: Frame,
    obstacles: Vec<Obstacle>,
    room: Frame,
    sums: Sums,
}

impl Model for Scene {
    ghost use Rattle.std.specs.Arc.{arc_value};
    ghost use Rattle.plan_scene.specs.Scene as spec;
    ghost use Rattle.plan_scene.specs.Scene.{scene};
    ghost use Rattle.plan_scene.specs.Built.{IsKept};

    ghost Value = { spec.Scene };

    ghost view = { λ s. scene (arc_value s.robot) s.frame s.obstacles.items };

    ghost invariant = { λ s. IsKept (scene (arc_value s.robot) s.frame s.obstacles.items) s.room s.sums };
}

impl Scene {
    /// The scene without obstacles. The frame's low corner must be left of and below its high one, with coordinates of at
    /// most 1023 in absolute value.
    pub fn new(alloc: Global, robot: Polygon, frame: Frame) -> Result<Scene, SceneFault>
        requires { IsFrame frame }
        ensures { MatchResult result
            (λ s. (length robot ≤ 16) × (s ≡ spec.scene robot frame []))
            (IsRefusedRobot robot) }
    {
        let count = robot.spots().len();
        if 16 < count {
            return Err(SceneFault::RobotMany(count as u32));
        }
        let shape = Shape::of(alloc, robot).map_err(|_| SceneFault::NoMemory)?;
        let robot = Arc::new(alloc, shape).map_err(|_| SceneFault::NoMemory)?;
        match Scene::of(alloc, robot, frame, Vec::new(alloc)) {
            Ok(scene) => Ok(scene),
            Err(_) => Err(SceneFault::NoMemory),
        }
    }

    /// The scene that the edit makes of this one, which stays as it is; or the first refusal.
    pub fn apply(&self, alloc: Global, edit: &Edit) -> Result<Scene, EditFault>
        requires { IsEdit edit.now }
        ensures { MatchResult result (IsEdited self.now edit.now) (IsRefused self.now edit.now) }
    {
        match edit {
            Edit::Add { id, spots } => self.with(alloc, *id, spots),
            Edit::Remove { id } => self.without(alloc, *id),
        }
    }

    /// The sums: by rising id of the obstacle, then by the obstacle's triangles, then by the robot's. Each is the
    /// obstacle's triangle and the reflected triangle of the robot. At most 512.
    pub fn sums(&self) -> &[Convex]
        ensures sums { AreSums (scene_seen self.now) (sums_seen result.now) }
        ensures count { length result.now ≡ sum_count self.now.robot self.now.obstacles }
        ensures few { length result.now ≤ 512 }
    {
        &self.sums.list
    }

    /// The id of the obstacle to which the sum of this number belongs.
    pub fn owner(&self, sum: u32) -> u32
        requires { sum < sum_count self.now.robot self.now.obstacles }
        ensures { (d : Part) → result ≡ (get_or (parts (scene_seen self.now)) sum d).owner }
    {
        self.sums.owners[sum as usize]
    }

    /// The room: the frame, moved by the robot's bounding box.
    pub fn room(&self) -> Frame
        ensures room { IsRoom (spots_seen self.now.robot) (frame_seen self.now.frame) (frame_seen result) }
        ensures low { IsWithin MOST_COORDINATE result.low }
        ensures high { IsWithin MOST_COORDINATE result.high }
    {
        self.room
    }

    /// How many obstacles there are: at most 64.
    pub fn count(&self) -> u32
        ensures value { result ≡ length self.now.obstacles }
        ensures scene { IsScene self.now }
    {
        self.obstacles.len() as u32
    }

    /// The number of what the robot touches at the placement `z`: 0 for the frame, else the least id of an obstacle that
    /// it meets; none exactly where it touches nothing. Touching is collision.
    pub fn touches(&self, z: &Point) -> Option<u32>
        ensures { MatchOption result
            (IsClear (scene_seen self.now) z.now)
            (IsTouched (scene_seen self.now) z.now) }
    {
        prove!(z.w() > 0);
        if self.room.is_on_or_beyond_at(z) {
            return Some(0);
        }
        self.sums.first_owner(z)
    }

    // With an obstacle of this id and these spots, or the first refusal.
    fn with(&self, alloc: Global, id: u32, spots: &[Spot]) -> Result<Scene, EditFault>
        requires id { IsId id }
        requires shape { IsShape spots.now }
        ensures { MatchResult result (IsAdded self.now id spots.now) (IsNotAdded self.now id spots.now) }
    {
        if self.has(id) {
            return Err(EditFault::Duplicate(id));
        }
        let Ok(list) = Vec::from_slice(alloc, spots) else {
            return Err(EditFault::NoMemory);
        };
        let polygon = simple(list)?;
        if self.obstacles.len() == 64 {
            return Err(EditFault::TooManyObstacles);
        }
        let count = self.count_with(spots);
        if 512 < count {
            return Err(EditFault::TooManySums(count));
        }
        match self.with_polygon(alloc, id, polygon) {
            Ok(scene) => Ok(scene),
            Err(_) => Err(EditFault::NoMemory),
        }
    }

    // With an obstacle of this id and this polygon.
    fn with_polygon(&self, alloc: Global, id: u32, polygon: Polygon) -> Result<Scene, NoMemory>
        requires id { IsId id }
        requires polygon { IsPolygon polygon }
        requires few { length self.now.obstacles < 64 }
        requires few_sums { sums_with self.now polygon ≤ 512 }
        ensures { IfOk result (λ t. t ≡ spec.with_obstacles self.now (with_obstacle (obstacle id polygon) self.now.obstacles)) }
    {
        let shape = Shape::of(alloc, polygon)?;
        let added = Obstacle::of(alloc, id, shape)?;
        let obstacles = with_added(alloc, &self.obstacles, added)?;
        Ok(self.with_obstacles(alloc, obstacles)?)
    }

    // Without the obstacle of this id, or the refusal.
    fn without(&self, alloc: Global, id: u32) -> Result<Scene, EditFault>
        ensures { MatchResult result (IsRemoved self.now id) (IsNotRemoved self.now id) }
    {
        if !self.has(id) {
            return Err(EditFault::Unknown(id));
        }
        match self.without_obstacle(alloc, id) {
            Ok(scene) => Ok(scene),
            Err(_) => Err(EditFault::NoMemory),
        }
    }

    // Without the obstacles of this id.
    fn without_obstacle(&self, alloc: Global, id: u32) -> Result<Scene, AllocError>
        ensures { IfOk result (λ t. t ≡ spec.with_obstacles self.now (spec.without id self.now.obstacles)) }
    {
        let obstacles = without_id(alloc, &self.obstacles, id)?;
        self.with_obstacles(alloc, obstacles)
    }

    // Whether an obstacle of this id is there.
    fn has(&self, id: u32) -> bool
        ensures { IsTrue result ↔ HasId self.now id }
    {
        for obstacle in &self.obstacles {
            if obstacle.id() == id {
                return true;
            }
        }
        false
    }

    // How many sums there are with an obstacle of these spots.
    fn count_with(&self, spots: &[Spot]) -> u32
        requires { IsShape spots.now }
        ensures { result ≡ sums_with self.now spots.now }
    {
        let pairs = (spots.len() - 2) * (self.robot.spots().len() - 2);
        (self.sums().len() + pairs) as u32
    }

    // The scene with other obstacles.
    fn with_obstacles(&self, alloc: Global, obstacles: Vec<Obstacle>) -> Result<Scene, AllocError>
        requires { IsScene (spec.with_obstacles self.now obstacles.items) }
        ensures { IfOk result (λ t. t ≡ spec.with_obstacles self.now obstacles.items) }
    {
        let robot = Arc::try_clone(&self.robot)?;
        Scene::of(alloc, robot, self.frame, obstacles)
    }

    // The scene of a robot among obstacles in a frame.
    fn of(
        alloc: Global,
        robot: Arc<Shape>,
        frame: Frame,
        obstacles: Vec<Obstacle>,
    ) -> Result<Scene, AllocError>
        requires { IsScene (spec.scene (arc_value robot) frame obstacles.items) }
        ensures { IfOk result (λ s. s ≡ spec.scene (arc_value robot) frame obstacles.items) }
    {
        let sums = Sums::of(alloc, robot.triangles(), &obstacles)?;
        let room = room(frame, robot.spots());
        Ok(Scene {
            robot,
            frame,
            obstacles,
            room,
            sums,
        })
    }
}

// The simple polygon of a shape.
fn simple(spots: Vec<Spot>) -> Result<Polygon, EditFault>
    requires { IsShape spots.items }
    ensures { MatchResult result (IsRead spots.items) (IsNotSimple spots.items) }
{
    match Polygon::read(spots) {
        Ok(polygon) => Ok(polygon),
        Err(PolyFault::NotSimple(i, j)) => Err(EditFault::NotSimple(i, j)),
        Err(PolyFault::Few(_)) => unreachable!(),
        Err(PolyFault::Many(_)) => unreachable!(),
        Err(PolyFault::Range(_)) => unreachable!(),
    }
}

// The frame, moved by the robot's bounding box.
fn room(frame: Frame, robot: &[Spot]) -> Frame
    requires frame { IsFrame frame }
    requires robot { 0 < length robot.now }
    requires bounded { All (IsWithin MOST_CORNER) robot.now }
    ensures { IsRoom (spots_seen robot.now) (frame_seen frame) (frame_seen result) }
{
    let bounds = bounds(robot);
    Frame {
        low: frame.low.minus(bounds.low),
        high: frame.high.minus(bounds.high),
    }
}

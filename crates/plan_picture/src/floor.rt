ghost use Rattle.std.specs.Prelude.{◌≡◌, ◌≤◌, map, All, IfOk, MatchResult};
ghost use Rattle.plan_scene.specs.Scene.{scene_seen};
ghost use Rattle.plan_wire.specs.Bounds.{AtMost, FrameFits, ShapeFits, SpotsFit};
ghost use Rattle.plan_wire.specs.Documents.{most_bytes};
ghost use Rattle.plan_top.specs.First.{given_of, obstacle_of, IsRefusedBy};
ghost use Rattle.plan_picture.specs.Seen.{IsFloorOf};

use crate::names::name_places;
use plan_grid::{Frame, Spot};
use plan_reply::Stand;
use plan_svg::Place;
use plan_top::{Refusal, first_stand};
use plan_watch::OpenGate;
use plan_wire::{NoMemory, Shape as Obstacle};
use std::alloc::Global;
use std::thread::Threads;

/// A floor as its document gives it, the places of its obstacles' ids, and the stand of its first scene.
#[derive(Drop)]
pub struct Floor {
    pub frame: Frame,
    pub robot: Vec<Spot>,
    pub obstacles: Vec<Obstacle>,
    pub names: Vec<Place>,
    pub stand: Stand,
}

/// The floor of a document, or the refusal of its first scene.
pub fn floor_of(
    rt: &(impl Threads + Sync),
    alloc: Global,
    frame: Frame,
    robot: Vec<Spot>,
    obstacles: Vec<Obstacle>,
) -> Result<Result<Floor, Refusal>, NoMemory>
    requires frame { FrameFits frame }
    requires robot { SpotsFit 16 robot.items }
    requires obstacles { AtMost most_bytes ShapeFits obstacles.items }
    ensures { IfOk result (λ floor. MatchResult floor
        (IsFloorOf (given_of frame robot.items obstacles.items))
        (IsRefusedBy (given_of frame robot.items obstacles.items))) }
{
    let own_robot = Vec::from_slice(alloc, robot.as_slice())?;
    let own_obstacles = copies(alloc, obstacles.as_slice())?;
    let stand = match first_stand(rt, alloc, frame, own_robot, own_obstacles, 1, &OpenGate) {
        Ok(Ok(stand)) => stand,
        Ok(Err(refusal)) => return Ok(Err(refusal)),
        Err(_) => return Err(NoMemory),
    };
    let names = name_places(alloc, obstacles.as_slice())?;
    Ok(Ok(Floor {
        frame,
        robot,
        obstacles,
        names,
        stand,
    }))
}

fn copies(alloc: Global, obstacles: &[Obstacle]) -> Result<Vec<Obstacle>, NoMemory>
    ensures { IfOk result (λ copies. map obstacle_of copies.items ≡ map obstacle_of obstacles.now) }
{
    let mut copies = Vec::with_capacity(alloc, obstacles.len())?;
    for obstacle in obstacles {
        let copy = Obstacle {
            id: obstacle.id,
            spots: Vec::from_slice(alloc, obstacle.spots.as_slice())?,
        };
        copies.push(copy).map_err(|_| NoMemory)?;
    }
    Ok(copies)
}

//! The first scene of a robot in a frame among obstacles.

ghost use Rattle.std.specs.Prelude.{◌<◌, ◌^◌, All, MatchResult, length};
ghost use Rattle.plan_scene.specs.Scene.{IsFrame};
ghost use Rattle.plan_scene.specs.Edits.{IsEdit, IsEdited, IsRefused};
ghost use Rattle.plan_reply.specs.First.{IsAdd, IsRobot, IsWhole, IsRefusedFirst, IsMade, IsNotMade, given_of};
ghost use Rattle.plan_reply.specs.Step.{IsCause};

use crate::fault::FirstFault;
use plan_grid::{Frame, Spot};
use plan_poly::{PolyFault, Polygon};
use plan_scene::{Edit, EditFault, Scene, SceneFault};
use std::alloc::Global;

/// The robot in the frame, and the obstacles put in one by one, in the order of the list; or the first refusal.
pub fn first_scene(
    alloc: Global,
    frame: Frame,
    robot: Vec<Spot>,
    adds: &[Edit],
) -> Result<Scene, FirstFault>
    requires frame { IsFrame frame }
    requires robot { IsRobot robot.items }
    requires adds { All IsAdd adds.now }
    requires few { length adds.now < 2 ^ 32 }
    ensures { MatchResult result (IsWhole (given_of frame robot.items adds.now)) (IsRefusedFirst (given_of frame robot.items adds.now)) }
{
    let robot = match Polygon::read(robot) {
        Ok(robot) => robot,
        Err(PolyFault::NotSimple(i, j)) => return Err(FirstFault::RobotNotSimple(i, j)),
        Err(_) => unreachable!(),
    };
    let alone = match Scene::new(alloc, robot, frame) {
        Ok(alone) => alone,
        Err(SceneFault::NoMemory) => return Err(FirstFault::NoMemory),
        Err(SceneFault::RobotMany(_)) => unreachable!(),
    };
    with_obstacles(alloc, alone, adds)
}

// The scene with the obstacles, put in one by one, or the first refusal.
fn with_obstacles(alloc: Global, alone: Scene, adds: &[Edit]) -> Result<Scene, FirstFault>
    requires adds { All IsAdd adds.now }
    requires few { length adds.now < 2 ^ 32 }
    ensures { MatchResult result (IsMade adds.now alone) (IsNotMade adds.now alone) }
{
    let mut scene = alone;
    for at in 0..adds.len() {
        match scene.apply(alloc, &adds[at]) {
            Ok(next) => scene = next,
            Err(EditFault::NoMemory) => return Err(FirstFault::NoMemory),
            Err(fault) => {
                return Err(FirstFault::Obstacle {
                    at: at as u32,
                    fault,
                });
            }
        }
    }
    Ok(scene)
}

ghost use Rattle.std.specs.Prelude.{◌≡◌, ◌≤◌, map, All, IfOk, MatchResult};
ghost use Rattle.plan_wire.specs.Bounds.{FrameFits, ShapeFits, SpotsFit, AtMost};
ghost use Rattle.plan_wire.specs.Documents.{most_bytes};
ghost use Rattle.plan_reply.specs.First as reply;
ghost use Rattle.plan_reply.specs.First.{IsAdd, IsFirst};
ghost use Rattle.plan_top.specs.First.{obstacle_of, given_of, IsRefusedBy};

use crate::no_memory::NoMemory;
use crate::status::Refusal;
use plan_grid::{Frame, Spot};
use plan_reply::{FirstFault, Stand};
use plan_scene::Edit;
use plan_watch::Gate;
use plan_wire::Shape;
use std::alloc::Global;
use std::thread::Threads;

/// The stand of the first scene: the robot in the frame, and the obstacles put in one by one, in the order of the list;
/// or the first refusal. 1 to 16 workers.
pub fn first_stand<G: Gate>(
    rt: &(impl Threads + Sync),
    alloc: Global,
    frame: Frame,
    robot: Vec<Spot>,
    obstacles: Vec<Shape>,
    workers: u8,
    gate: &G,
) -> Result<Result<Stand, Refusal>, NoMemory>
    requires frame { FrameFits frame }
    requires robot { SpotsFit 16 robot.items }
    requires obstacles { AtMost most_bytes ShapeFits obstacles.items }
    requires least { 1 ≤ workers }
    requires most { workers ≤ 16 }
    ensures { IfOk result (λ first. MatchResult first
        (IsFirst (given_of frame robot.items obstacles.items))
        (IsRefusedBy (given_of frame robot.items obstacles.items))) }
{
    let adds = adds_of(alloc, obstacles)?;
    match Stand::first(rt, alloc, frame, robot, &adds, workers, gate) {
        Ok(stand) => Ok(Ok(stand)),
        Err(FirstFault::RobotNotSimple(i, j)) => Ok(Err(Refusal::RobotNotSimple(i, j))),
        Err(FirstFault::Obstacle { at, fault }) => Ok(Err(Refusal::Obstacle { at, fault })),
        Err(FirstFault::TooManyRegions) => Ok(Err(Refusal::TooManyRegions)),
        Err(FirstFault::NoMemory) => Err(NoMemory),
    }
}

// The edits that add the obstacles, one by one.
fn adds_of(alloc: Global, obstacles: Vec<Shape>) -> Result<Vec<Edit>, NoMemory>
    requires { All ShapeFits obstacles.items }
    ensures adds { IfOk result (λ v. All IsAdd v.items) }
    ensures given { IfOk result (λ v. map (λ e. reply.obstacle_of e) v.items ≡ map obstacle_of obstacles.items) }
{
    let mut adds = Vec::with_capacity(alloc, obstacles.len())?;
    for Shape { id, spots } in obstacles {
        adds.push(Edit::Add { id, spots }).map_err(|_| NoMemory)?;
    }
    Ok(adds)
}

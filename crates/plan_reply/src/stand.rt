ghost use Rattle.std.specs.Prelude.{◌≡◌, ◌<◌, ◌≤◌, ◌^◌, All, IfOk, IfErr, MatchResult, length};
ghost use Rattle.plan_spec.specs.Maps.{IsMapOf, IsMapped, IsTooLarge};
ghost use Rattle.plan_spec.specs.Slabs.{size};
ghost use Rattle.plan_scene.specs.Scene.{scene_seen, IsFrame};
ghost use Rattle.plan_scene.specs.Edits.{IsEdit, IsEdited};
ghost use Rattle.plan_slab.specs.Subdivision.{slabs_of, regions_of};
ghost use Rattle.plan_reply.specs.First.{IsAdd, IsRobot, IsFirst, IsRefusedFirst, given_of};
ghost use Rattle.plan_reply.specs.Step.{IsStep, IsRefusedStep};
ghost use Rattle.plan_reply.specs.declared.fault.StandFault.TheVariants.{TooManyRegions};

use crate::fault::{FirstFault, StandFault, StepFault};
use crate::first::first_scene;
use plan_bound::uncovered;
use plan_grid::{Frame, Spot};
use plan_map::Map;
use plan_scene::{Edit, EditFault, Scene};
use plan_slab::{SlabFault, Slabs};
use plan_watch::Gate;
use std::alloc::Global;
use std::marker::Model;
use std::thread::Threads;

/// A scene with its map, which answers queries. Contracts see it as its scene: the map is that of the scene.
#[derive(Drop)]
pub struct Stand {
    pub(crate) scene: Scene,
    pub(crate) map: Map,
    pub(crate) labels: Vec<u32>,
}

impl Model for Stand {
    ghost use Rattle.plan_scene.specs.Scene as spec;
    ghost use Rattle.plan_reply.specs.Stand.{IsStand};

    ghost Value = { spec.Scene };

    ghost view = { λ s. s.scene };

    ghost invariant = { λ s. IsStand s.scene s.map s.labels.items };
}

impl Stand {
    /// The stand of a scene, made by 1 to 16 workers.
    pub fn build<G: Gate>(
        rt: &(impl Threads + Sync),
        alloc: Global,
        scene: Scene,
        workers: u8,
        gate: &G,
    ) -> Result<Stand, StandFault>
        requires least { 1 ≤ workers }
        requires most { workers ≤ 16 }
        ensures built { IfOk result (λ s. (s ≡ scene) × IsMapped (scene_seen scene)) }
        ensures many { IfErr result (λ e. e ≡ TooManyRegions → IsTooLarge (scene_seen scene)) }
    {
        let map = map_of(rt, alloc, &scene, workers, gate)?;
        match map.labels(alloc) {
            Ok(labels) => Ok(Stand { scene, map, labels }),
            Err(_) => Err(StandFault::NoMemory),
        }
    }

    /// The stand of the edited scene, made by 1 to 16 workers; this one stays as it is.
    pub fn step<G: Gate>(
        &self,
        rt: &(impl Threads + Sync),
        alloc: Global,
        edit: &Edit,
        workers: u8,
        gate: &G,
    ) -> Result<Stand, StepFault>
        requires edit { IsEdit edit.now }
        requires least { 1 ≤ workers }
        requires most { workers ≤ 16 }
        ensures { MatchResult result (IsStep self.now edit.now) (IsRefusedStep self.now edit.now) }
    {
        let scene = edited(alloc, &self.scene, edit)?;
        match Stand::build(rt, alloc, scene, workers, gate) {
            Ok(stand) => Ok(stand),
            Err(StandFault::TooManyRegions) => Err(StepFault::TooManyRegions),
            Err(StandFault::NoMemory) => Err(StepFault::NoMemory),
        }
    }

    /// The stand of a robot of 3 to 16 spots in a frame among obstacles, which are put in one by one, in the order of the
    /// list. Coordinates are at most 1023 in absolute value; 1 to 16 workers.
    pub fn first<G: Gate>(
        rt: &(impl Threads + Sync),
        alloc: Global,
        frame: Frame,
        robot: Vec<Spot>,
        adds: &[Edit],
        workers: u8,
        gate: &G,
    ) -> Result<Stand, FirstFault>
        requires frame { IsFrame frame }
        requires robot { IsRobot robot.items }
        requires adds { All IsAdd adds.now }
        requires few { length adds.now < 2 ^ 32 }
        requires least { 1 ≤ workers }
        requires most { workers ≤ 16 }
        ensures { MatchResult result (IsFirst (given_of frame robot.items adds.now)) (IsRefusedFirst (given_of frame robot.items adds.now)) }
    {
        let scene = first_scene(alloc, frame, robot, adds)?;
        match Stand::build(rt, alloc, scene, workers, gate) {
            Ok(stand) => Ok(stand),
            Err(StandFault::TooManyRegions) => Err(FirstFault::TooManyRegions),
            Err(StandFault::NoMemory) => Err(FirstFault::NoMemory),
        }
    }

    /// The scene.
    pub fn scene(&self) -> &Scene
        ensures { result.now ≡ self.now }
    {
        &self.scene
    }
}

// The map of a scene.
fn map_of<G: Gate>(
    rt: &(impl Threads + Sync),
    alloc: Global,
    scene: &Scene,
    workers: u8,
    gate: &G,
) -> Result<Map, StandFault>
    requires least { 1 ≤ workers }
    requires most { workers ≤ 16 }
    ensures map { IfOk result (λ m. IsMapOf (scene_seen scene.now) (slabs_of m) (regions_of m)) }
    ensures few { IfOk result (λ m. size (slabs_of m) ≤ 131072) }
    ensures many { IfErr result (λ e. e ≡ TooManyRegions → IsTooLarge (scene_seen scene.now)) }
{
    prove!(scene.count() <= 64);
    let sums = scene.sums();
    let room = scene.room();
    let Ok(pieces) = uncovered(rt, alloc, sums, room, workers, gate) else {
        return Err(StandFault::NoMemory);
    };
    match Slabs::build_by(rt, alloc, &pieces, sums, room, workers) {
        Ok(slabs) => {
            prove!(slabs.size() <= 131_072);
            prove!(slabs.lines().len() <= 131_072);
            Ok(Map::of(slabs))
        }
        Err(SlabFault::TooManyRegions) => Err(StandFault::TooManyRegions),
        Err(SlabFault::NoMemory) => Err(StandFault::NoMemory),
    }
}

// The edited scene, or why the edit is refused.
fn edited(alloc: Global, scene: &Scene, edit: &Edit) -> Result<Scene, StepFault>
    requires { IsEdit edit.now }
    ensures { MatchResult result (IsEdited scene.now edit.now) (IsRefusedStep scene.now edit.now) }
{
    match scene.apply(alloc, edit) {
        Ok(scene) => Ok(scene),
        Err(EditFault::NoMemory) => Err(StepFault::NoMemory),
        Err(fault) => Err(StepFault::Edit(fault)),
    }
}

ghost use Rattle.std.specs.Prelude.{◌≡◌, ◌≤◌, IfOk, IfSome, MatchResult};
ghost use Rattle.plan_grid.specs.Spot.{spot_seen, IsWithin};
ghost use Rattle.plan_scene.specs.Scene.{scene_seen};
ghost use Rattle.plan_scene.specs.Edits.{IsEdit};
ghost use Rattle.plan_reply.specs.Rings.{IsRing};
ghost use Rattle.plan_reply.specs.Seen.{answer_seen};
ghost use Rattle.plan_reply.specs.Stand.{IsReply, IsLowestAnswer};
ghost use Rattle.plan_reply.specs.Step.{IsStep, IsRefusedStep};

use crate::fault::StepFault;
use crate::no_memory::NoMemory;
use crate::reply::Reply;
use crate::rings::Ring;
use crate::stand::Stand;
use plan_cross::{Chain, Query};
use plan_grid::MOST_COORDINATE;
use plan_scene::Edit;
use plan_watch::Gate;
use std::alloc::Global;
use std::marker::Model;
use std::thread::Threads;

/// A stand with the rings of the parts of its floor, made once, so that a query from one part to another is answered
/// without a search. Contracts see it as its scene.
#[derive(Drop)]
pub struct RingedStand {
    stand: Stand,
    rings: Vec<Ring>,
}

impl Model for RingedStand {
    ghost use Rattle.plan_scene.specs.Scene as spec;
    ghost use Rattle.plan_reply.specs.Rings.{AreRings};

    ghost Value = { spec.Scene };

    ghost view = { λ s. s.stand };

    ghost invariant = { λ s. AreRings s.stand s.rings.items };
}

impl RingedStand {
    /// The stand with its rings.
    pub fn of(alloc: Global, stand: Stand) -> Result<RingedStand, NoMemory>
        ensures { IfOk result (λ s. s ≡ stand) }
    {
        let rings = stand.rings(alloc)?;
        Ok(RingedStand { stand, rings })
    }

    /// The stand of the edited scene with its rings, made by 1 to 16 workers; this one stays as it is.
    pub fn step<G: Gate>(
        &self,
        rt: &(impl Threads + Sync),
        alloc: Global,
        edit: &Edit,
        workers: u8,
        gate: &G,
    ) -> Result<RingedStand, StepFault>
        requires edit { IsEdit edit.now }
        requires least { 1 ≤ workers }
        requires most { workers ≤ 16 }
        ensures { MatchResult result (IsStep self.now edit.now) (IsRefusedStep self.now edit.now) }
    {
        let stand = self.stand.step(rt, alloc, edit, workers, gate)?;
        match RingedStand::of(alloc, stand) {
            Ok(ringed) => Ok(ringed),
            Err(_) => Err(StepFault::NoMemory),
        }
    }

    /// The reply to a query with coordinates of at most 2046 in absolute value, as that of the stand. Where start and goal
    /// are in two parts, it is a copy of the ring of the start's.
    pub fn answer(&self, alloc: Global, query: Query) -> Result<Reply, NoMemory>
        requires start { IsWithin MOST_COORDINATE query.start }
        requires goal { IsWithin MOST_COORDINATE query.goal }
        ensures reply { IfOk result (λ r. IsReply (scene_seen self.now) (spot_seen query.start) (spot_seen query.goal) (answer_seen r)) }
        ensures lowest { IfOk result (λ r. IsLowestAnswer (answer_seen r)) }
    {
        if let Some(part) = self.stand.closed_part(query) {
            if let Some(ring) = self.ring_of(part) {
                return Ok(Reply::Blocked(copy(alloc, &ring.chain)?));
            }
        }
        self.stand.answer(alloc, query)
    }

    // The ring that is kept of a part.
    fn ring_of(&self, part: u32) -> Option<&Ring>
        ensures { IfSome result (λ ring. IsRing self.now part ring.now.chain) }
    {
        for ring in &self.rings {
            if ring.part == part {
                return Some(ring);
            }
        }
        None
    }
}

// A copy of a chain.
fn copy(alloc: Global, chain: &Chain) -> Result<Chain, NoMemory>
    ensures { IfOk result (λ c. c ≡ chain.now) }
{
    let segments = Vec::from_slice(alloc, chain.segments.as_slice())?;
    Ok(Chain { segments })
}

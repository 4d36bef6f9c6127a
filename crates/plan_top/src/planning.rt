// The job of a session: versions of a scene, made by edits, that answer queries.
ghost use Rattle.plan_top.specs.declared.planning.Version.{Version};

use plan_crew::{Job, NoMemory, Outcome};
use plan_cross::Query;
use plan_reply::{Reply, RingedStand, StepFault};
use plan_scene::Edit;
use plan_watch::OpenGate;
use std::alloc::Global;
use std::thread::Threads;

/// The stand after so many accepted edits, with its rings.
#[derive(Drop)]
pub struct Version {
    pub number: u32,
    pub stand: RingedStand,
}

/// Stands are made by 1 to 16 workers, for whom every gate is open.
#[derive(Clone, Copy)]
pub struct Planning {
    pub workers: u8,
}

impl Job for Planning {
    ghost use Rattle.std.specs.Prelude.{◌≤◌};
    ghost use Rattle.plan_wire.specs.Bounds.{QueryFits};
    ghost use Rattle.plan_scene.specs.Edits.{IsEdit};
    ghost use Rattle.plan_top.specs.Planning.{Makes, Gives};

    type Entry = Version;

    type Change = Edit;

    type Question = Query;

    type Refused = StepFault;

    type Answer = Reply;

    ghost version_of = { λ v. v.number };

    ghost takes = { λ job e. (1 ≤ job.workers) × (job.workers ≤ 16) × IsEdit e };

    ghost asks = { λ job q. QueryFits q };

    ghost makes = { λ job v e o. Makes v e o };

    ghost gives = { λ job v q r. Gives v q r };

    ghost rises = { λ job v e next made. made.1 };

    fn version(&self, entry: &Version) -> u32 {
        entry.number
    }

    fn apply<R: Threads + Sync>(
        &self,
        rt: &R,
        alloc: Global,
        entry: &Version,
        change: &Edit,
    ) -> Result<Outcome<Version, StepFault>, NoMemory> {
        let number = entry.number + 1;
        match entry.stand.step(rt, alloc, change, self.workers, &OpenGate) {
            Ok(stand) => Ok(Outcome::Taken(Version { number, stand })),
            Err(StepFault::NoMemory) => Err(NoMemory),
            Err(fault) => Ok(Outcome::Refused(fault)),
        }
    }

    fn answer<R: Threads + Sync>(
        &self,
        _rt: &R,
        alloc: Global,
        entry: &Version,
        question: &Query,
    ) -> Result<Reply, NoMemory> {
        match entry.stand.answer(alloc, *question) {
            Ok(reply) => Ok(reply),
            Err(_) => Err(NoMemory),
        }
    }
}

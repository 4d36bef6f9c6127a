// Rounds of a demonstration.
ghost use Rattle.std.specs.Prelude.{◌≡◌, ◌≤◌, ◌*◌, OnOk};
ghost use Rattle.plan_top.specs.Demo.{no_edits, no_replies};
ghost use Rattle.plan_top.specs.Demonstration.{HasRoom, HasEdited, HasAsked, HasEditedAll, HasAskedAll, HasPlayed};
ghost use Rattle.plan_top.specs.declared.demonstration.Demonstration.{Demonstration};

use crate::counts::{EditCount, ReplyCount};
use crate::no_memory::NoMemory;
use crate::session::edit_of;
use plan_demo::Draws;
use plan_reply::{Stand, StepFault};
use plan_watch::Gate;
use std::alloc::Global;
use std::thread::Threads;

// How many edits a round has.
const EDITS: u32 = 8;

// How many queries a round has.
const QUERIES: u32 = 64;

/// Rounds, as far as they are played: the stand of the last version, what is still to be drawn, and what was counted.
#[derive(Drop)]
pub struct Demonstration {
    pub draws: Draws,
    pub stand: Stand,
    pub edits: EditCount,
    pub replies: ReplyCount,
}

impl Demonstration {
    /// None is played.
    pub fn of(draws: Draws, stand: Stand) -> Demonstration
        ensures { result ≡ record { draws = draws; stand = stand; edits = no_edits; replies = no_replies } }
    {
        Demonstration {
            draws,
            stand,
            edits: EditCount {
                accepted: 0,
                refused: 0,
            },
            replies: ReplyCount {
                paths: 0,
                chains: 0,
                touching: 0,
                points: 0,
                segments: 0,
            },
        }
    }

    /// Plays so many rounds more, with 1 to 16 workers: eight edits, then 64 queries.
    pub fn play<G: Gate>(
        &mut self,
        rt: &(impl Threads + Sync),
        alloc: Global,
        count: u32,
        workers: u8,
        gate: &G,
    ) -> Result<(), NoMemory>
        requires least { 1 ≤ workers }
        requires most { workers ≤ 16 }
        requires room { HasRoom (count * 8) (count * 64) self.old }
        ensures { OnOk result (HasPlayed count self.old self.new) }
    {
        for _turn in 0..count {
            self.edit_all(rt, alloc, EDITS, workers, gate)?;
            self.ask_all(alloc, QUERIES)?;
        }
        Ok(())
    }

    // Makes so many edits, one after another.
    fn edit_all<G: Gate>(
        &mut self,
        rt: &(impl Threads + Sync),
        alloc: Global,
        count: u32,
        workers: u8,
        gate: &G,
    ) -> Result<(), NoMemory>
        requires least { 1 ≤ workers }
        requires most { workers ≤ 16 }
        requires room { HasRoom count 0 self.old }
        ensures { OnOk result (HasEditedAll count self.old self.new) }
    {
        for _edit in 0..count {
            self.edit(rt, alloc, workers, gate)?;
        }
        Ok(())
    }

    // Makes an edit. One that is refused is drawn as well.
    fn edit<G: Gate>(
        &mut self,
        rt: &(impl Threads + Sync),
        alloc: Global,
        workers: u8,
        gate: &G,
    ) -> Result<(), NoMemory>
        requires least { 1 ≤ workers }
        requires most { workers ≤ 16 }
        requires room { HasRoom 1 0 self.old }
        ensures { OnOk result (HasEdited self.old self.new) }
    {
        let Ok(change) = self.draws.edit(alloc) else {
            return Err(NoMemory);
        };
        let edit = edit_of(change);
        match self.stand.step(rt, alloc, &edit, workers, gate) {
            Ok(stand) => {
                self.stand = stand;
                self.edits.accepted += 1;
                Ok(())
            }
            Err(StepFault::NoMemory) => Err(NoMemory),
            Err(_) => {
                self.edits.refused += 1;
                Ok(())
            }
        }
    }

    // Answers so many queries.
    fn ask_all(&mut self, alloc: Global, count: u32) -> Result<(), NoMemory>
        requires room { HasRoom 0 count self.old }
        ensures { OnOk result (HasAskedAll count self.old self.new) }
    {
        for _query in 0..count {
            self.ask(alloc)?;
        }
        Ok(())
    }

    // Answers a query.
    fn ask(&mut self, alloc: Global) -> Result<(), NoMemory>
        requires room { HasRoom 0 1 self.old }
        ensures { OnOk result (HasAsked self.old self.new) }
    {
        let query = self.draws.query();
        let Ok(reply) = self.stand.answer(alloc, query) else {
            return Err(NoMemory);
        };
        self.replies.add(&reply);
        Ok(())
    }
}

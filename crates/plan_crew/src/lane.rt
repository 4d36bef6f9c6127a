//! One lane: a reader of its own, and questions in order.
ghost use Rattle.std.specs.Prelude.{◌≡◌, ◌-◌, ◌≤◌, All, map, IfOk, length};
ghost use mathlib.Core.List.{IsPrefix};
ghost use Rattle.plan_crew.specs.Lane.{Says, Answers};

use crate::ends::Said;
use crate::job::Job;
use crate::no_memory::NoMemory;
use plan_shelf::Reader;
use plan_watch::{Gate, Place};
use std::alloc::Global;
use std::thread::Threads;

/// The most questions of a lane.
pub const MOST_QUESTIONS: usize = 16;

/// Answers the questions in order, each for the entry of a look of its own, which comes after the
/// gate has let it pass. Rounds and lanes count from 1.
///
/// It waits for nobody, so that callers may call it in threads of their own.
pub fn answer_lane<J: Job, G: Gate, R: Threads + Sync>(
    rt: &R,
    alloc: Global,
    job: &J,
    gate: &G,
    round: u32,
    lane: u32,
    reader: &mut Reader<J::Entry>,
    questions: &[J::Question],
) -> Result<Vec<Said<J>>, NoMemory>
    requires few { length questions.now ≤ MOST_QUESTIONS }
    requires asks { All (λ q. J.asks job.now q) questions.now }
    ensures shelf { reader.new.shelf ≡ reader.old.shelf }
    ensures list { IsPrefix reader.old.list reader.new.list }
    // the version and the answer of one entry of the list, for each; places never fall, and the first is not before the last of the list before
    ensures said { IfOk result (λ v. Answers J.version_of (J.gives job.now) reader.new.list (length reader.old.list - 1) questions.now (map (λ s. (s.version, s.answer)) v.items)) }
{
    let mut said = Vec::new(alloc);
    let mut next = 0;
    while next < questions.len() {
        let query = next as u32 + 1;
        gate.pass(Place::Question { round, lane, query });
        let one = ask(rt, alloc, job, reader, &questions[next])?;
        said.push(one).map_err(|_| NoMemory)?;
        next += 1;
    }
    Ok(said)
}

// The reader looks, and the job answers for the entry of that look.
fn ask<J: Job, R: Threads + Sync>(
    rt: &R,
    alloc: Global,
    job: &J,
    reader: &mut Reader<J::Entry>,
    question: &J::Question,
) -> Result<Said<J>, NoMemory>
    requires { J.asks job.now question.now }
    ensures shelf { reader.new.shelf ≡ reader.old.shelf }
    ensures list { IsPrefix reader.old.list reader.new.list }
    ensures said { IfOk result (λ s. Says J.version_of (J.gives job.now) reader.new.list (length reader.new.list - 1) question.now (s.version, s.answer)) }
{
    let entry = reader.look();
    Ok(Said {
        version: job.version(entry),
        answer: job.answer(rt, alloc, entry, question)?,
    })
}

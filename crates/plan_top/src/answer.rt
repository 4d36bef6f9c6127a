ghost use Rattle.std.specs.Prelude.{Some, IfOk};
ghost use Rattle.plan_wire.specs.Bounds.{DocumentFits};
ghost use Rattle.plan_wire.specs.Seen.{document_seen};
ghost use Rattle.plan_top.specs.Outcome.{IsAnswer, IsAnswerTo, IsOfCheck};

use crate::first::first_stand;
use crate::no_memory::NoMemory;
use crate::status::{Refusal, Status};
use plan_check::{Verdict, check};
use plan_watch::OpenGate;
use plan_wire::{Document, Task, Want, WireFault, read_document};
use std::alloc::Global;
use std::thread::Threads;

/// What `check` answers to the bytes.
pub fn answer_to(
    rt: &(impl Threads + Sync),
    alloc: Global,
    bytes: &[u8],
) -> Result<Status, NoMemory>
    ensures { IfOk result (IsAnswer (Some bytes.now)) }
{
    match read_document(alloc, bytes, Want::Check) {
        Ok(document) => answer_of(rt, alloc, document),
        Err(WireFault::TooLong) => Ok(Status::Refused(Refusal::TooLong)),
        Err(WireFault::Json) => Ok(Status::Refused(Refusal::Json)),
        Err(WireFault::Form(place)) => Ok(Status::Refused(Refusal::Form(place))),
        Err(WireFault::Range(place)) => Ok(Status::Refused(Refusal::Range(place))),
        Err(WireFault::NoMemory) => Err(NoMemory),
    }
}

// What it answers to the document.
fn answer_of(
    rt: &(impl Threads + Sync),
    alloc: Global,
    document: Document,
) -> Result<Status, NoMemory>
    requires fits { DocumentFits document }
    requires proof { IsOfCheck document.task }
    ensures { IfOk result (IsAnswerTo (document_seen document)) }
{
    let Document {
        frame,
        robot,
        obstacles,
        task,
    } = document;
    let stand = match first_stand(rt, alloc, frame, robot, obstacles, 1, &OpenGate)? {
        Ok(stand) => stand,
        Err(refusal) => return Ok(Status::Refused(refusal)),
    };
    match task {
        Task::Proof { query, certificate } => match check(
            alloc,
            stand.scene(),
            query,
            &certificate,
        ) {
            Ok(Verdict::Valid) => Ok(Status::Done),
            Ok(Verdict::Invalid(fault)) => Ok(Status::Invalid(fault)),
            Err(_) => Err(NoMemory),
        },
        Task::Queries(_) | Task::Rounds(_) => unreachable!(),
    }
}

// `plan`: the replies to a document's queries.
ghost use Rattle.std.specs.Prelude.{◌≤◌, ◌+◌, map, IfOk, MatchResult};
ghost use Rattle.plan_wire.specs.Bounds.{AtMost, DocumentFits, QueryFits};
ghost use Rattle.plan_wire.specs.Documents.{most_bytes};
ghost use Rattle.plan_wire.specs.Seen.{document_seen, query_seen};
ghost use Rattle.plan_wire.specs.Stream.{TakesAtMost};
ghost use Rattle.plan_wire.specs.declared.documents.Want.TheVariants as want;
ghost use Rattle.plan_top.specs.Outcome.{IsOfPlan, IsRefusal, IsRefusedScene, OnDocument, PlanOutcome, SourceCount, SinkCount};
ghost use Rattle.plan_top.specs.Plan.{IsReady, RepliesOutcome};

use crate::first::first_stand;
use crate::lines::{END, TOO_LONG};
use crate::no_memory::NoMemory;
use crate::reply::query_line;
use crate::status::{Refusal, Status};
use crate::write::{write_answer, write_line};
use plan_cross::Query;
use plan_reply::Stand;
use plan_watch::Gate;
use plan_wire::{
    Document, Failed, Sink, Source, TakeFault, Task, Want, WireFault, put_line, read_document,
    take_all,
};
use std::alloc::Global;
use std::thread::Threads;

/// Answers the queries of the document that the source holds, with 1 to 16 workers: a line for each, then `end`.
///
/// Want of memory may come at any time.
pub fn run_plan<R: Threads + Sync, S: Source, K: Sink, G: Gate>(
    rt: &R,
    alloc: Global,
    workers: u8,
    source: &mut S,
    sink: &mut K,
    gate: &G,
) -> Status
    requires least { 1 ≤ workers }
    requires most { workers ≤ 16 }
    ensures outcome { PlanOutcome (S.remaining source.old) (S.remaining source.new)
        (K.written sink.old) (K.written sink.new) result }
    ensures taken { TakesAtMost (most_bytes + 1) (S.remaining source.old) (S.remaining source.new) }
    ensures source_count { SourceCount S.rises (S.faults source.old) (S.faults source.new) result }
    ensures source_monotone { S.faults source.old ≤ S.faults source.new }
    ensures sink_count { SinkCount K.rises (K.faults sink.old) (K.faults sink.new) result }
    ensures sink_monotone { K.faults sink.old ≤ K.faults sink.new }
{
    match take_all(alloc, source) {
        Ok(bytes) => match plan_in(rt, alloc, bytes.as_slice(), workers, gate) {
            Ok(Ok(plan)) => write_replies(alloc, &plan.stand, plan.queries.as_slice(), sink),
            Ok(Err(refusal)) => write_answer(alloc, sink, Status::Refused(refusal)),
            Err(NoMemory) => Status::NoMemory,
        },
        Err(TakeFault::TooLong) => { write_line(sink, Status::Refused(Refusal::TooLong), TOO_LONG) }
        Err(TakeFault::Failed) => Status::ReadFault,
        Err(TakeFault::NoMemory) => Status::NoMemory,
    }
}

// What a document asks for: the stand of its first scene, and its queries.
#[derive(Drop)]
struct Plan {
    stand: Stand,
    queries: Vec<Query>,
}

// The plan that the bytes ask for, or the first refusal.
fn plan_in<G: Gate>(
    rt: &(impl Threads + Sync),
    alloc: Global,
    bytes: &[u8],
    workers: u8,
    gate: &G,
) -> Result<Result<Plan, Refusal>, NoMemory>
    requires least { 1 ≤ workers }
    requires most { workers ≤ 16 }
    ensures plan { IfOk result (λ plan. MatchResult plan
        (λ plan. OnDocument want.Plan bytes.now (λ d. IsReady d plan.stand (map query_seen plan.queries.items)))
        (IsRefusal want.Plan bytes.now)) }
    ensures fits { IfOk result (λ plan. IfOk plan (λ plan. AtMost 64 QueryFits plan.queries.items)) }
{
    match read_document(alloc, bytes, Want::Plan) {
        Ok(document) => plan_of(rt, alloc, document, workers, gate),
        Err(WireFault::TooLong) => Ok(Err(Refusal::TooLong)),
        Err(WireFault::Json) => Ok(Err(Refusal::Json)),
        Err(WireFault::Form(place)) => Ok(Err(Refusal::Form(place))),
        Err(WireFault::Range(place)) => Ok(Err(Refusal::Range(place))),
        Err(WireFault::NoMemory) => Err(NoMemory),
    }
}

// The plan that the document asks for, or the first refusal.
fn plan_of<G: Gate>(
    rt: &(impl Threads + Sync),
    alloc: Global,
    document: Document,
    workers: u8,
    gate: &G,
) -> Result<Result<Plan, Refusal>, NoMemory>
    requires fits { DocumentFits document }
    requires queries { IsOfPlan document.task }
    requires least { 1 ≤ workers }
    requires most { workers ≤ 16 }
    ensures plan { IfOk result (λ plan. MatchResult plan
        (λ plan. IsReady (document_seen document) plan.stand (map query_seen plan.queries.items))
        (IsRefusedScene (document_seen document))) }
    ensures fits { IfOk result (λ plan. IfOk plan (λ plan. AtMost 64 QueryFits plan.queries.items)) }
{
    let Document {
        frame,
        robot,
        obstacles,
        task,
    } = document;
    let stand = match first_stand(rt, alloc, frame, robot, obstacles, workers, gate)? {
        Ok(stand) => stand,
        Err(refusal) => return Ok(Err(refusal)),
    };
    match task {
        Task::Queries(queries) => Ok(Ok(Plan { stand, queries })),
        Task::Proof { .. } | Task::Rounds(_) => unreachable!(),
    }
}

// Writes a line for each query, then the last line.
fn write_replies<K: Sink>(alloc: Global, stand: &Stand, queries: &[Query], sink: &mut K) -> Status
    requires { AtMost 64 QueryFits queries.now }
    ensures outcome { RepliesOutcome stand.now (map query_seen queries.now) (K.written sink.old) (K.written sink.new) result }
    ensures count { SinkCount K.rises (K.faults sink.old) (K.faults sink.new) result }
    ensures monotone { K.faults sink.old ≤ K.faults sink.new }
{
    let mut kept = Vec::new(alloc);
    for at in 0..queries.len() {
        let Ok(line) = query_line(alloc, stand, at as u32 + 1, queries[at], &mut kept) else {
            return Status::NoMemory;
        };
        match put_line(sink, &line) {
            Ok(()) => {}
            Err(Failed) => return Status::WriteFault,
        }
    }
    match put_line(sink, END.as_bytes()) {
        Ok(()) => Status::Done,
        Err(Failed) => Status::WriteFault,
    }
}

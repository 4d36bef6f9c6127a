// `session`: rounds of edits, with queries beside them.
ghost use Rattle.std.specs.Prelude.{◌≡◌, ◌≤◌, ◌+◌, All, map, IfOk, MatchResult};
ghost use Rattle.plan_wire.specs.Bounds.{AtMost, ChangeFits, DocumentFits, TurnFits};
ghost use Rattle.plan_wire.specs.Documents.{most_bytes};
ghost use Rattle.plan_wire.specs.Seen.{document_seen};
ghost use Rattle.plan_wire.specs.Seen as wire;
ghost use Rattle.plan_wire.specs.Stream.{TakesAtMost};
ghost use Rattle.plan_wire.specs.declared.documents.Want.TheVariants as want;
ghost use Rattle.plan_scene.specs.Edits.{IsEdit};
ghost use Rattle.plan_top.specs.Outcome.{IsRefusal, IsRefusedScene, OnDocument, SourceCount, SinkCount};
ghost use Rattle.plan_top.specs.Played.{IsOpened, RoundFits, round_seen};
ghost use Rattle.plan_top.specs.Session.{edit_seen};
ghost use Rattle.plan_top.specs.SessionOutcome.{IsOfSession, SessionOutcome};
ghost use Rattle.plan_top.specs.Watching.{AreTold};

use crate::first::first_stand;
use crate::lines::TOO_LONG;
use crate::no_memory::NoMemory;
use crate::play::play;
use crate::status::{Refusal, Status};
use crate::write::{write_answer, write_line};
use plan_cross::Query;
use plan_reply::Stand;
use plan_scene::Edit;
use plan_watch::{Gate, Watcher};
use plan_wire::{
    Change, Document, Shape, Sink, Source, TakeFault, Task, Turn, Want, WireFault, read_document,
    take_all,
};
use std::alloc::Global;
use std::sync::Wait;
use std::thread::Threads;

/// Plays the rounds of the document that the source holds, with 1 to 16 workers: a line for each round, each edit and
/// each query, then the last version. Once a round has ended, and before its lines are written, each watcher is told the
/// versions of its accepted edits, each with its number of obstacles; one that is done is let go. It may wait.
///
/// Want of memory may come at any time.
pub fn run_session<R: Threads + Wait + Sync, S: Source, K: Sink, G: Gate>(
    rt: &R,
    alloc: Global,
    workers: u8,
    source: &mut S,
    sink: &mut K,
    gate: &G,
    watchers: &mut Vec<Box<dyn Watcher>>,
) -> Status
    requires least { 1 ≤ workers }
    requires most { workers ≤ 16 }
    requires room { All (λ w. 2048 ≤ room w) watchers.old.items }
    ensures outcome { SessionOutcome (S.remaining source.old) (S.remaining source.new)
        (K.written sink.old) (K.written sink.new)
        (AreTold (map (λ w. (heard w, steady w)) watchers.old.items) (map (λ w. (heard w, steady w)) watchers.new.items)) result }
    ensures taken { TakesAtMost (most_bytes + 1) (S.remaining source.old) (S.remaining source.new) }
    ensures source_count { SourceCount S.rises (S.faults source.old) (S.faults source.new) result }
    ensures source_monotone { S.faults source.old ≤ S.faults source.new }
    ensures sink_count { SinkCount K.rises (K.faults sink.old) (K.faults sink.new) result }
    ensures sink_monotone { K.faults sink.old ≤ K.faults sink.new }
{
    match take_all(alloc, source) {
        Ok(bytes) => match session_in(rt, alloc, bytes.as_slice(), workers, gate) {
            Ok(Ok(session)) => {
                let Session { stand, rounds } = session;
                play(
                    rt,
                    alloc,
                    stand,
                    rounds.as_slice(),
                    workers,
                    sink,
                    gate,
                    watchers,
                )
            }
            Ok(Err(refusal)) => write_answer(alloc, sink, Status::Refused(refusal)),
            Err(NoMemory) => Status::NoMemory,
        },
        Err(TakeFault::TooLong) => { write_line(sink, Status::Refused(Refusal::TooLong), TOO_LONG) }
        Err(TakeFault::Failed) => Status::ReadFault,
        Err(TakeFault::NoMemory) => Status::NoMemory,
    }
}

// What a document asks for: the stand of its first scene, and its rounds.
#[derive(Drop)]
struct Session {
    stand: Stand,
    rounds: Vec<Round>,
}

/// The edits of a round, and the queries of its lanes.
#[derive(Drop)]
pub struct Round {
    pub edits: Vec<Edit>,
    pub lanes: Vec<Vec<Query>>,
}

// The session that the bytes ask for, or the first refusal.
fn session_in<G: Gate>(
    rt: &(impl Threads + Sync),
    alloc: Global,
    bytes: &[u8],
    workers: u8,
    gate: &G,
) -> Result<Result<Session, Refusal>, NoMemory>
    requires least { 1 ≤ workers }
    requires most { workers ≤ 16 }
    ensures session { IfOk result (λ session. MatchResult session
        (λ session. OnDocument want.Session bytes.now (λ d. IsOpened d session.stand session.rounds.items))
        (IsRefusal want.Session bytes.now)) }
    ensures fits { IfOk result (λ session. IfOk session (λ session. AtMost 64 RoundFits session.rounds.items)) }
{
    match read_document(alloc, bytes, Want::Session) {
        Ok(document) => session_of(rt, alloc, document, workers, gate),
        Err(WireFault::TooLong) => Ok(Err(Refusal::TooLong)),
        Err(WireFault::Json) => Ok(Err(Refusal::Json)),
        Err(WireFault::Form(place)) => Ok(Err(Refusal::Form(place))),
        Err(WireFault::Range(place)) => Ok(Err(Refusal::Range(place))),
        Err(WireFault::NoMemory) => Err(NoMemory),
    }
}

// The session that the document asks for, or the first refusal.
fn session_of<G: Gate>(
    rt: &(impl Threads + Sync),
    alloc: Global,
    document: Document,
    workers: u8,
    gate: &G,
) -> Result<Result<Session, Refusal>, NoMemory>
    requires fits { DocumentFits document }
    requires rounds { IsOfSession document.task }
    requires least { 1 ≤ workers }
    requires most { workers ≤ 16 }
    ensures session { IfOk result (λ session. MatchResult session
        (λ session. IsOpened (document_seen document) session.stand session.rounds.items)
        (IsRefusedScene (document_seen document))) }
    ensures fits { IfOk result (λ session. IfOk session (λ session. AtMost 64 RoundFits session.rounds.items)) }
{
    let Document {
        frame,
        robot,
        obstacles,
        task,
    } = document;
    let stand = match first_stand(rt, alloc, frame, robot, obstacles, workers, gate)? {
        Ok(stand) => stand,
        Err(refusal) => return Ok(Err(refusal)),
    };
    match task {
        Task::Rounds(turns) => {
            let rounds = rounds_of(alloc, turns)?;
            Ok(Ok(Session { stand, rounds }))
        }
        Task::Proof { .. } | Task::Queries(_) => unreachable!(),
    }
}

// The rounds of a document.
fn rounds_of(alloc: Global, turns: Vec<Turn>) -> Result<Vec<Round>, NoMemory>
    requires { AtMost 64 TurnFits turns.items }
    ensures fits { IfOk result (λ rounds. AtMost 64 RoundFits rounds.items) }
    ensures seen { IfOk result (λ rounds. map round_seen rounds.items ≡ map wire.round_seen turns.items) }
{
    let mut rounds = Vec::with_capacity(alloc, turns.len())?;
    for Turn { edits, lanes } in turns {
        let edits = edits_of(alloc, edits)?;
        rounds.push(Round { edits, lanes }).map_err(|_| NoMemory)?;
    }
    Ok(rounds)
}

// The edits of a round.
fn edits_of(alloc: Global, changes: Vec<Change>) -> Result<Vec<Edit>, NoMemory>
    requires { AtMost 32 ChangeFits changes.items }
    ensures fits { IfOk result (λ edits. AtMost 32 IsEdit edits.items) }
    ensures seen { IfOk result (λ edits. map edit_seen edits.items ≡ map wire.edit_seen changes.items) }
{
    let mut edits = Vec::with_capacity(alloc, changes.len())?;
    for change in changes {
        edits.push(edit_of(change)).map_err(|_| NoMemory)?;
    }
    Ok(edits)
}

/// An edit of a document.
pub fn edit_of(change: Change) -> Edit
    requires { ChangeFits change }
    ensures fits { IsEdit result }
    ensures seen { edit_seen result ≡ wire.edit_seen change }
{
    match change {
        Change::Add(Shape { id, spots }) => Edit::Add { id, spots },
        Change::Remove(id) => Edit::Remove { id },
    }
}

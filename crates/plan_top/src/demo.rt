// `demo`: what the rounds of a demonstration count.
ghost use Rattle.std.specs.Prelude.{◌≡◌, ◌≤◌, IfOk, MatchResult, string_bytes};
ghost use Rattle.plan_top.specs.Demo.{AreCounts, IsDemoRefused, count_line, edits_text, replies_text};
ghost use Rattle.plan_top.specs.DemoOutcome.{DemoOutcome};
ghost use Rattle.plan_top.specs.Outcome.{SinkCount};
ghost use Rattle.plan_top.specs.declared.status.Refusal.TheVariants.{TooManyRegions};

use crate::counts::{EditCount, ReplyCount};
use crate::demonstration::Demonstration;
use crate::first::first_stand;
use crate::no_memory::NoMemory;
use crate::round_lines::write_end;
use crate::status::{Refusal, Status};
use crate::write::write_answer;
use plan_demo::{Draws, frame, robot};
use plan_watch::Gate;
use plan_wire::{Failed, Sink, put_line};
use std::alloc::{AllocError, Global};
use std::thread::Threads;

// How many obstacles there are at first.
const OBSTACLES: u32 = 40;

// How many rounds there are.
const ROUNDS: u32 = 4;

/// Plays the rounds of the demonstration of a number from 1 to 1000, with 1 to 16 workers, and writes two lines: what
/// they count, and the last version. It reads nothing.
///
/// Want of memory may come at any time.
pub fn run_demo<R: Threads + Sync, K: Sink, G: Gate>(
    rt: &R,
    alloc: Global,
    number: u32,
    workers: u8,
    sink: &mut K,
    gate: &G,
) -> Status
    requires number_least { 1 ≤ number }
    requires number_most { number ≤ 1000 }
    requires least { 1 ≤ workers }
    requires most { workers ≤ 16 }
    ensures outcome { DemoOutcome number (K.written sink.old) (K.written sink.new) result }
    ensures sink_count { SinkCount K.rises (K.faults sink.old) (K.faults sink.new) result }
    ensures sink_monotone { K.faults sink.old ≤ K.faults sink.new }
{
    match counts_of(rt, alloc, number, workers, gate) {
        Ok(Ok(counts)) => write_counts(alloc, sink, number, counts),
        Ok(Err(refusal)) => write_answer(alloc, sink, Status::Refused(refusal)),
        Err(NoMemory) => Status::NoMemory,
    }
}

// What was counted.
#[derive(Clone, Copy)]
struct Counts {
    edits: EditCount,
    replies: ReplyCount,
}

// What the rounds of this number count, or the refusal of its first scene.
fn counts_of<G: Gate>(
    rt: &(impl Threads + Sync),
    alloc: Global,
    number: u32,
    workers: u8,
    gate: &G,
) -> Result<Result<Counts, Refusal>, NoMemory>
    requires number { number ≤ 1000 }
    requires least { 1 ≤ workers }
    requires most { workers ≤ 16 }
    ensures { IfOk result (λ counts. MatchResult counts
        (λ counts. AreCounts number counts.edits counts.replies)
        (λ refusal. (refusal ≡ TooManyRegions) × IsDemoRefused number TooManyRegions)) }
{
    let mut draws = Draws::of(number);
    let Ok(robot) = robot(alloc) else {
        return Err(NoMemory);
    };
    let Ok(obstacles) = draws.obstacles(alloc, OBSTACLES) else {
        return Err(NoMemory);
    };
    let stand = match first_stand(rt, alloc, frame(), robot, obstacles, workers, gate)? {
        Ok(stand) => stand,
        Err(refusal) => return Ok(Err(refusal)),
    };
    let mut turns = Demonstration::of(draws, stand);
    turns.play(rt, alloc, ROUNDS, workers, gate)?;
    let Demonstration { edits, replies, .. } = turns;
    Ok(Ok(Counts { edits, replies }))
}

// Writes the two lines.
fn write_counts<K: Sink>(alloc: Global, sink: &mut K, number: u32, counts: Counts) -> Status
    requires { AreCounts number counts.edits counts.replies }
    ensures outcome { DemoOutcome number (K.written sink.old) (K.written sink.new) result }
    ensures count { SinkCount K.rises (K.faults sink.old) (K.faults sink.new) result }
    ensures monotone { K.faults sink.old ≤ K.faults sink.new }
{
    let Ok(line) = count_line(alloc, number, counts) else {
        return Status::NoMemory;
    };
    match put_line(sink, line.as_bytes()) {
        Ok(()) => write_end(alloc, sink, counts.edits.accepted),
        Err(Failed) => Status::WriteFault,
    }
}

// The first line.
fn count_line(alloc: Global, number: u32, counts: Counts) -> Result<String, AllocError>
    ensures { IfOk result (λ line. string_bytes line ≡ count_line number counts.edits counts.replies) }
{
    let edits = edits_text(alloc, number, counts.edits)?;
    let replies = replies_text(alloc, counts.replies)?;
    format!(in alloc; "{edits}{replies}")
}

// What it tells of edits.
fn edits_text(alloc: Global, number: u32, edits: EditCount) -> Result<String, AllocError>
    ensures { IfOk result (λ text. string_bytes text ≡ edits_text number edits) }
{
    let EditCount { accepted, refused } = edits;
    format!(in alloc; "demo {number}: accepted {accepted} refused {refused} ")
}

// What it tells of replies.
fn replies_text(alloc: Global, replies: ReplyCount) -> Result<String, AllocError>
    ensures { IfOk result (λ text. string_bytes text ≡ replies_text replies) }
{
    let ReplyCount {
        paths,
        chains,
        touching,
        points,
        segments,
    } = replies;
    format!(in alloc;
        "paths {paths} chains {chains} touching {touching} points {points} segments {segments}\n"
    )
}

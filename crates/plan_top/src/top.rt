ghost use Rattle.std.specs.Prelude.{◌≡◌, ◌+◌, ◌≤◌, All, map, string_bytes};
ghost use Rattle.plan_wire.specs.Documents.{most_bytes};
ghost use Rattle.plan_wire.specs.Stream.{TakesAtMost};
ghost use Rattle.plan_top.specs.CallOutcome.{Outcome};
ghost use Rattle.plan_top.specs.Command.{Reads, TellsWatchers, command_of};
ghost use Rattle.plan_top.specs.Outcome.{CheckOutcome, SourceCount, SinkCount};
ghost use Rattle.plan_top.specs.Watching.{AreTold};

use crate::answer::answer_to;
use crate::command::{Command, command_of};
use crate::demo::run_demo;
use crate::lines::{TOO_LONG, USAGE};
use crate::no_memory::NoMemory;
use crate::plan::run_plan;
use crate::session::run_session;
use crate::status::{Refusal, Status};
use crate::write::{write_answer, write_line};
use plan_watch::{Gate, Watcher};
use plan_wire::{Sink, Source, TakeFault, take_all};
use std::alloc::Global;
use std::sync::Wait;
use std::thread::Threads;

/// Runs the command of the words after the program's name, which are `plan N`, `session N`, `check` or `demo K N`,
/// with N from 1 to 16 and K from 1 to 1000.
///
/// Only `plan`, `session` and `check` read. `plan`, `session` and `demo` work with N workers, which pass the gate. Only `session` may wait, and only it tells the watchers, each of which has room for 2,048 pairs.
pub fn run<R: Threads + Wait + Sync, S: Source, K: Sink, G: Gate>(
    rt: &R,
    alloc: Global,
    words: &[String],
    source: &mut S,
    sink: &mut K,
    gate: &G,
    watchers: &mut Vec<Box<dyn Watcher>>,
) -> Status
    requires room { All (λ w. 2048 ≤ room w) watchers.old.items }
    ensures outcome { Outcome (command_of (map string_bytes words.now))
        (S.remaining source.old) (S.remaining source.new)
        (K.written sink.old) (K.written sink.new)
        (AreTold (map (λ w. (heard w, steady w)) watchers.old.items) (map (λ w. (heard w, steady w)) watchers.new.items)) result }
    ensures unread { ¬ (Reads (command_of (map string_bytes words.now))) → source.new ≡ source.old }
    ensures untold { ¬ (TellsWatchers (command_of (map string_bytes words.now))) → watchers.new ≡ watchers.old }
    ensures taken { TakesAtMost (most_bytes + 1) (S.remaining source.old) (S.remaining source.new) }
    ensures source_count { SourceCount S.rises (S.faults source.old) (S.faults source.new) result }
    ensures source_monotone { S.faults source.old ≤ S.faults source.new }
    ensures sink_count { SinkCount K.rises (K.faults sink.old) (K.faults sink.new) result }
    ensures sink_monotone { K.faults sink.old ≤ K.faults sink.new }
{
    match command_of(words) {
        Some(Command::Check) => run_check(rt, alloc, source, sink),
        Some(Command::Plan(workers)) => run_plan(rt, alloc, workers as u8, source, sink, gate),
        Some(Command::Session(workers)) => {
            run_session(rt, alloc, workers as u8, source, sink, gate, watchers)
        }
        Some(Command::Demo(number, workers)) => {
            run_demo(rt, alloc, number as u32, workers as u8, sink, gate)
        }
        None => write_line(sink, Status::Usage, USAGE),
    }
}

/// Checks the certificate of the document that the source holds.
///
/// Want of memory may come at any time before the line is written.
pub fn run_check<R: Threads + Sync, S: Source, K: Sink>(
    rt: &R,
    alloc: Global,
    source: &mut S,
    sink: &mut K,
) -> Status
    ensures outcome { CheckOutcome (S.remaining source.old) (S.remaining source.new)
        (K.written sink.old) (K.written sink.new) result }
    ensures taken { TakesAtMost (most_bytes + 1) (S.remaining source.old) (S.remaining source.new) }
    ensures source_count { SourceCount S.rises (S.faults source.old) (S.faults source.new) result }
    ensures source_monotone { S.faults source.old ≤ S.faults source.new }
    ensures sink_count { SinkCount K.rises (K.faults sink.old) (K.faults sink.new) result }
    ensures sink_monotone { K.faults sink.old ≤ K.faults sink.new }
{
    match take_all(alloc, source) {
        Ok(bytes) => match answer_to(rt, alloc, bytes.as_slice()) {
            Ok(answer) => write_answer(alloc, sink, answer),
            Err(NoMemory) => Status::NoMemory,
        },
        Err(TakeFault::TooLong) => { write_line(sink, Status::Refused(Refusal::TooLong), TOO_LONG) }
        Err(TakeFault::Failed) => Status::ReadFault,
        Err(TakeFault::NoMemory) => Status::NoMemory,
    }
}

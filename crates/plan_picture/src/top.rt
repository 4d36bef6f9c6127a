ghost use Rattle.std.specs.Prelude.{◌≡◌, ◌≢◌, ◌+◌, ◌≤◌, IfOk, MatchResult, map, string_bytes, None, Some};
ghost use Rattle.plan_wire.specs.Documents.{most_bytes};
ghost use Rattle.plan_wire.specs.Stream.{TakesAtMost};
ghost use Rattle.plan_top.specs.Outcome.{SourceCount, SinkCount};
ghost use Rattle.plan_picture.specs.Outcome.{IsWritten, Outcome, command_of};

use crate::answer::{Answer, answer_to, refused, usage};
use crate::command::{Command, command_of};
use plan_top::{Refusal, Status};
use plan_wire::{Failed, NoMemory, Sink, Source, TakeFault, put_line, take_all};
use std::alloc::Global;
use std::thread::Threads;

/// Draws what the words after the program's name ask for, which are `K`, from 1 to 64, or `check`: the query of the
/// number K of the document that the source holds, with its reply; or its certificate, with the verdict.
///
/// Want of memory may come at any time before the picture is written.
pub fn run<R: Threads + Sync, S: Source, K: Sink>(
    rt: &R,
    alloc: Global,
    words: &[String],
    source: &mut S,
    sink: &mut K,
) -> Status
    ensures outcome { Outcome (command_of (map string_bytes words.now))
        (S.remaining source.old) (S.remaining source.new)
        (K.written sink.old) (K.written sink.new) result }
    ensures unread { command_of (map string_bytes words.now) ≡ None → source.new ≡ source.old }
    ensures taken { TakesAtMost (most_bytes + 1) (S.remaining source.old) (S.remaining source.new) }
    ensures source_count { SourceCount S.rises (S.faults source.old) (S.faults source.new) result }
    ensures source_monotone { S.faults source.old ≤ S.faults source.new }
    ensures sink_count { SinkCount K.rises (K.faults sink.old) (K.faults sink.new) result }
    ensures sink_monotone { K.faults sink.old ≤ K.faults sink.new }
{
    match command_of(words) {
        Some(command) => draw(rt, alloc, command, source, sink),
        None => write(sink, usage(alloc)),
    }
}

fn draw<R: Threads + Sync, S: Source, K: Sink>(
    rt: &R,
    alloc: Global,
    command: Command,
    source: &mut S,
    sink: &mut K,
) -> Status
    ensures outcome { Outcome (Some command)
        (S.remaining source.old) (S.remaining source.new)
        (K.written sink.old) (K.written sink.new) result }
    ensures taken { TakesAtMost (most_bytes + 1) (S.remaining source.old) (S.remaining source.new) }
    ensures source_count { SourceCount S.rises (S.faults source.old) (S.faults source.new) result }
    ensures source_monotone { S.faults source.old ≤ S.faults source.new }
    ensures sink_count { SinkCount K.rises (K.faults sink.old) (K.faults sink.new) result }
    ensures sink_monotone { K.faults sink.old ≤ K.faults sink.new }
{
    match take_all(alloc, source) {
        Ok(bytes) => write(sink, answer_to(rt, alloc, command, bytes.as_slice())),
        Err(TakeFault::TooLong) => write(sink, refused(alloc, Refusal::TooLong)),
        Err(TakeFault::Failed) => Status::ReadFault,
        Err(TakeFault::NoMemory) => Status::NoMemory,
    }
}

// Writes the text of an answer. The status is the answer's, or a write fault.
fn write<K: Sink>(sink: &mut K, answer: Result<Answer, NoMemory>) -> Status
    requires { IfOk answer (λ a. a.status ≢ Status.WriteFault) }
    ensures written { MatchResult answer
        (λ a. IsWritten a.status a.text.items (K.written sink.old) (K.written sink.new) result)
        (λ _. (result ≡ Status.NoMemory) × (K.written sink.new ≡ K.written sink.old)) }
    ensures count { SinkCount K.rises (K.faults sink.old) (K.faults sink.new) result }
    ensures monotone { K.faults sink.old ≤ K.faults sink.new }
{
    match answer {
        Ok(Answer { status, text }) => match put_line(sink, text.as_slice()) {
            Ok(()) => status,
            Err(Failed) => Status::WriteFault,
        },
        Err(NoMemory) => Status::NoMemory,
    }
}

// Lines, written to a sink.
ghost use Rattle.std.specs.Prelude.{◌≡◌, ◌≢◌, ◌≤◌};
ghost use Rattle.plan_top.specs.Lines.{line_of};
ghost use Rattle.plan_top.specs.Outcome.{AnswerOutcome, LineOutcome, SinkCount};

use crate::lines::line_of;
use crate::status::Status;
use plan_wire::{Failed, Sink, put_line};
use std::alloc::Global;

/// Makes the line of an answer and writes it. The status is the answer's, a write fault, or want of memory.
pub fn write_answer<K: Sink>(alloc: Global, sink: &mut K, answer: Status) -> Status
    requires { answer ≢ Status.WriteFault }
    ensures outcome { AnswerOutcome answer (K.written sink.old) (K.written sink.new) result }
    ensures count { SinkCount K.rises (K.faults sink.old) (K.faults sink.new) result }
    ensures monotone { K.faults sink.old ≤ K.faults sink.new }
{
    match line_of(alloc, &answer) {
        Ok(line) => write_line(sink, answer, line.as_str()),
        Err(_) => Status::NoMemory,
    }
}

/// Writes the line of an answer. The status is the answer's, or a write fault.
pub fn write_line<K: Sink>(sink: &mut K, answer: Status, line: &str) -> Status
    requires answer { answer ≢ Status.WriteFault }
    requires line { line.now ≡ line_of answer }
    ensures outcome { LineOutcome answer (K.written sink.old) (K.written sink.new) result }
    ensures count { SinkCount K.rises (K.faults sink.old) (K.faults sink.new) result }
    ensures monotone { K.faults sink.old ≤ K.faults sink.new }
{
    match put_line(sink, line.as_bytes()) {
        Ok(()) => answer,
        Err(Failed) => Status::WriteFault,
    }
}

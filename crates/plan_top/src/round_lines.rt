// The lines of a round, written to a sink.
ghost use Rattle.std.specs.Prelude.{◌≡◌, ◌≤◌, ◌++◌, [], ◌∷◌, All, IfOk, length, map, string_bytes};
ghost use Rattle.plan_crew.specs.Edited.{end_seen};
ghost use Rattle.plan_top.specs.Outcome.{SinkCount};
ghost use Rattle.plan_top.specs.Played.{EndOutcome, LinesCount, LinesOutcome, ended_line, ended_lines, said_seen};
ghost use Rattle.plan_top.specs.Session.{accepted_line, refused_line, step_text, round_line, lane_line, lane_lines, lanes_lines, end_line};

use crate::halt::Halt;
use crate::lines::edit_text;
use crate::no_memory::NoMemory;
use crate::planning::Planning;
use crate::reply::put_reply;
use crate::status::Status;
use plan_crew::{EditEnd, RoundEnd, Said};
use plan_reply::StepFault;
use plan_wire::{Failed, Sink, put_line};
use std::alloc::{AllocError, Global};

/// Writes the lines of a round that has ended: its number, then its edits, then its lanes.
pub fn write_round<K: Sink>(
    alloc: Global,
    sink: &mut K,
    number: u32,
    end: RoundEnd<Planning>,
) -> Result<(), Halt>
    requires edits { length end.edits.items ≤ 32 }
    requires lanes { (length end.lanes.items ≤ 8) × All (λ v. length v.items ≤ 16) end.lanes.items }
    ensures outcome { LinesOutcome (round_line number ∷ (ended_lines 1 (map (λ e. end_seen e) end.edits.items) ++ lanes_lines 1 (map (λ v. map (λ s. said_seen (s.version, s.answer)) v.items) end.lanes.items))) (K.written sink.old) (K.written sink.new) result }
    ensures count { LinesCount K.rises (K.faults sink.old) (K.faults sink.new) result }
    ensures monotone { K.faults sink.old ≤ K.faults sink.new }
{
    let RoundEnd { edits, lanes } = end;
    let line = round_line(alloc, number);
    write_text(sink, line)?;
    write_edits(alloc, sink, edits.as_slice())?;
    write_lanes(alloc, sink, lanes)
}

/// Writes the last line.
pub fn write_end<K: Sink>(alloc: Global, sink: &mut K, version: u32) -> Status
    ensures outcome { EndOutcome (end_line version) (K.written sink.old) (K.written sink.new) result }
    ensures count { SinkCount K.rises (K.faults sink.old) (K.faults sink.new) result }
    ensures monotone { K.faults sink.old ≤ K.faults sink.new }
{
    let Ok(line) = end_line(alloc, version) else {
        return Status::NoMemory;
    };
    match put_line(sink, line.as_bytes()) {
        Ok(()) => Status::Done,
        Err(Failed) => Status::WriteFault,
    }
}

// Writes the lines of edits.
fn write_edits<K: Sink>(
    alloc: Global,
    sink: &mut K,
    edits: &[EditEnd<Planning>],
) -> Result<(), Halt>
    requires few { length edits.now ≤ 32 }
    ensures outcome { LinesOutcome (ended_lines 1 (map (λ e. end_seen e) edits.now)) (K.written sink.old) (K.written sink.new) result }
    ensures count { LinesCount K.rises (K.faults sink.old) (K.faults sink.new) result }
    ensures monotone { K.faults sink.old ≤ K.faults sink.new }
{
    for at in 0..edits.len() {
        let line = edit_line(alloc, at as u32 + 1, &edits[at]);
        write_text(sink, line)?;
    }
    Ok(())
}

// Writes the lines of lanes.
fn write_lanes<K: Sink>(
    alloc: Global,
    sink: &mut K,
    lanes: Vec<Vec<Said<Planning>>>,
) -> Result<(), Halt>
    requires few { (length lanes.items ≤ 8) × All (λ v. length v.items ≤ 16) lanes.items }
    ensures outcome { LinesOutcome (lanes_lines 1 (map (λ v. map (λ s. said_seen (s.version, s.answer)) v.items) lanes.items)) (K.written sink.old) (K.written sink.new) result }
    ensures count { LinesCount K.rises (K.faults sink.old) (K.faults sink.new) result }
    ensures monotone { K.faults sink.old ≤ K.faults sink.new }
{
    let mut number = 1;
    for lane in lanes {
        write_lane(alloc, sink, number, lane)?;
        number += 1;
    }
    Ok(())
}

// Writes the lines of a lane.
fn write_lane<K: Sink>(
    alloc: Global,
    sink: &mut K,
    lane: u32,
    replies: Vec<Said<Planning>>,
) -> Result<(), Halt>
    requires few { length replies.items ≤ 16 }
    ensures outcome { LinesOutcome (lane_lines lane 1 (map (λ s. said_seen (s.version, s.answer)) replies.items)) (K.written sink.old) (K.written sink.new) result }
    ensures count { LinesCount K.rises (K.faults sink.old) (K.faults sink.new) result }
    ensures monotone { K.faults sink.old ≤ K.faults sink.new }
{
    let mut number = 1;
    for said in replies {
        let line = reply_line(alloc, lane, number, said);
        write_bytes(sink, line)?;
        number += 1;
    }
    Ok(())
}

// Writes the line, where there was memory for it.
fn write_text<K: Sink>(sink: &mut K, line: Result<String, AllocError>) -> Result<(), Halt>
    ensures outcome { (text : _) → IfOk line (λ s. string_bytes s ≡ text) → LinesOutcome (text ∷ []) (K.written sink.old) (K.written sink.new) result }
    ensures count { LinesCount K.rises (K.faults sink.old) (K.faults sink.new) result }
    ensures monotone { K.faults sink.old ≤ K.faults sink.new }
{
    match line {
        Ok(line) => match put_line(sink, line.as_bytes()) {
            Ok(()) => Ok(()),
            Err(Failed) => Err(Halt::WriteFault),
        },
        Err(_) => Err(Halt::NoMemory),
    }
}

// The same of a line of bytes.
fn write_bytes<K: Sink>(sink: &mut K, line: Result<Vec<u8>, NoMemory>) -> Result<(), Halt>
    ensures outcome { (text : _) → IfOk line (λ s. s.items ≡ text) → LinesOutcome (text ∷ []) (K.written sink.old) (K.written sink.new) result }
    ensures count { LinesCount K.rises (K.faults sink.old) (K.faults sink.new) result }
    ensures monotone { K.faults sink.old ≤ K.faults sink.new }
{
    match line {
        Ok(line) => match put_line(sink, &line) {
            Ok(()) => Ok(()),
            Err(Failed) => Err(Halt::WriteFault),
        },
        Err(NoMemory) => Err(Halt::NoMemory),
    }
}

// The line of a round.
fn round_line(alloc: Global, number: u32) -> Result<String, AllocError>
    ensures { IfOk result (λ line. string_bytes line ≡ round_line number) }
{
    format!(in alloc; "round {number}\n")
}

// The last line.
fn end_line(alloc: Global, version: u32) -> Result<String, AllocError>
    ensures { IfOk result (λ line. string_bytes line ≡ end_line version) }
{
    format!(in alloc; "end version {version}\n")
}

// The line of an edit.
fn edit_line(alloc: Global, number: u32, end: &EditEnd<Planning>) -> Result<String, AllocError>
    ensures { IfOk result (λ line. string_bytes line ≡ ended_line number (end_seen end.now)) }
{
    match end {
        EditEnd::Accepted { version } => accepted_line(alloc, number, *version),
        EditEnd::Refused(fault) => refused_line(alloc, number, *fault),
    }
}

// The line of an edit that is accepted.
fn accepted_line(alloc: Global, number: u32, version: u32) -> Result<String, AllocError>
    ensures { IfOk result (λ line. string_bytes line ≡ accepted_line number version) }
{
    format!(in alloc; "edit {number} version {version}\n")
}

// The line of an edit that is refused.
fn refused_line(alloc: Global, number: u32, fault: StepFault) -> Result<String, AllocError>
    ensures { IfOk result (λ line. string_bytes line ≡ refused_line number fault) }
{
    let text = step_text(alloc, fault)?;
    format!(in alloc; "edit {number} refused {text}\n")
}

// Why an edit is refused.
fn step_text(alloc: Global, fault: StepFault) -> Result<String, AllocError>
    ensures { IfOk result (λ text. string_bytes text ≡ step_text fault) }
{
    match fault {
        StepFault::Edit(fault) => edit_text(alloc, fault),
        StepFault::TooManyRegions => String::from_str(alloc, "too many regions"),
        StepFault::NoMemory => String::from_str(alloc, "no memory"),
    }
}

// The line of a reply.
fn reply_line(
    alloc: Global,
    lane: u32,
    number: u32,
    said: Said<Planning>,
) -> Result<Vec<u8>, NoMemory>
    ensures { IfOk result (λ line. line.items ≡ lane_line lane number (said_seen (said.version, said.answer))) }
{
    let Said { version, answer } = said;
    let head = format!(in alloc; "lane {lane} query {number} version {version} ")?;
    let mut line = Vec::from_slice(alloc, head.as_bytes())?;
    put_reply(alloc, &mut line, answer)?;
    line.push(b'\n').map_err(|_| NoMemory)?;
    Ok(line)
}

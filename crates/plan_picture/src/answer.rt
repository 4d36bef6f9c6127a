ghost use Rattle.std.specs.Prelude.{◌≡◌, Some, All, IfOk, map};
ghost use Rattle.plan_wire.specs.Bounds.{DocumentFits, QueryFits, CertificateFits};
ghost use Rattle.plan_wire.specs.Documents as tasks;
ghost use Rattle.plan_wire.specs.Seen.{certificate_seen, document_seen, query_seen};
ghost use Rattle.plan_top.specs.Lines.{refusal_line};
ghost use Rattle.plan_top.specs.declared.status.Status.TheVariants.{Refused, Usage};
ghost use Rattle.plan_picture.specs.Answers.{IsAnswerOn};
ghost use Rattle.plan_picture.specs.Outcome.{IsAnswer, IsAnswerTo, IsTaskOf, status_of, usage_line, want_of};
ghost use Rattle.plan_picture.specs.Seen.{IsFloor, given_seen};
ghost use Rattle.plan_picture.specs.declared.command.Command.TheVariants as commands;

use crate::command::Command;
use crate::floor::{Floor, floor_of};
use crate::picture::picture;
use crate::shown::{reply_shown, verdict_shown};
use plan_check::{Verdict, check};
use plan_cross::{Certificate, Query};
use plan_top::{Refusal, Status, line_of};
use plan_wire::{Document, NoMemory, Task, Want, WireFault, read_document};
use std::alloc::Global;
use std::thread::Threads;

/// A status, and the text that comes with it.
#[derive(Drop)]
pub struct Answer {
    pub status: Status,
    pub text: Vec<u8>,
}

// The line of words that have none of the two forms, or ask for a query that is not there.
const USAGE: &str = "usage: picture K | check, where K is the number of a query\n";

/// What the command answers to the bytes.
pub fn answer_to(
    rt: &(impl Threads + Sync),
    alloc: Global,
    command: Command,
    bytes: &[u8],
) -> Result<Answer, NoMemory>
    ensures { IfOk result (λ answer. IsAnswer command (Some bytes.now) answer.status answer.text.items) }
{
    match read_document(alloc, bytes, want_of(command)) {
        Ok(document) => answer_of(rt, alloc, command, document),
        Err(WireFault::TooLong) => refused(alloc, Refusal::TooLong),
        Err(WireFault::Json) => refused(alloc, Refusal::Json),
        Err(WireFault::Form(place)) => refused(alloc, Refusal::Form(place)),
        Err(WireFault::Range(place)) => refused(alloc, Refusal::Range(place)),
        Err(WireFault::NoMemory) => Err(NoMemory),
    }
}

fn want_of(command: Command) -> Want
    ensures { result ≡ want_of command }
{
    match command {
        Command::Query(_) => Want::Plan,
        Command::Check => Want::Check,
    }
}

fn answer_of(
    rt: &(impl Threads + Sync),
    alloc: Global,
    command: Command,
    document: Document,
) -> Result<Answer, NoMemory>
    requires fits { DocumentFits document }
    requires task { IsTaskOf command document.task }
    ensures { IfOk result (λ answer. IsAnswerTo command (document_seen document) answer.status answer.text.items) }
{
    let Document {
        frame,
        robot,
        obstacles,
        task,
    } = document;
    let floor = match floor_of(rt, alloc, frame, robot, obstacles)? {
        Ok(floor) => floor,
        Err(refusal) => return refused(alloc, refusal),
    };
    match (command, task) {
        (Command::Query(number), Task::Queries(queries)) => {
            query_answer(alloc, &floor, number, queries.as_slice())
        }
        (Command::Check, Task::Proof { query, certificate }) => {
            check_answer(alloc, &floor, query, certificate)
        }
        _ => unreachable!(),
    }
}

// The picture of the query of this number, where there is one.
fn query_answer(
    alloc: Global,
    floor: &Floor,
    number: u16,
    queries: &[Query],
) -> Result<Answer, NoMemory>
    requires floor { IsFloor floor.now }
    requires queries { All QueryFits queries.now }
    ensures { IfOk result (IsAnswerOn (commands.Query number) (given_seen floor.now) (tasks.queries (map query_seen queries.now))) }
{
    let at = usize::from(number);
    if at == 0 || queries.len() < at {
        return usage(alloc);
    }
    let query = queries[at - 1];
    let Ok(reply) = floor.stand.answer(alloc, query) else {
        return Err(NoMemory);
    };
    let shown = reply_shown(alloc, number, reply)?;
    let text = picture(alloc, floor, query, &shown)?;
    Ok(Answer {
        status: Status::Done,
        text,
    })
}

// The picture of the certificate with the verdict.
fn check_answer(
    alloc: Global,
    floor: &Floor,
    query: Query,
    certificate: Certificate,
) -> Result<Answer, NoMemory>
    requires floor { IsFloor floor.now }
    requires query { QueryFits query }
    requires certificate { CertificateFits certificate }
    ensures { IfOk result (IsAnswerOn commands.Check (given_seen floor.now) (tasks.proof (query_seen query) (certificate_seen certificate))) }
{
    let Ok(verdict) = check(alloc, floor.stand.scene(), query, &certificate) else {
        return Err(NoMemory);
    };
    let shown = verdict_shown(alloc, certificate, verdict)?;
    let text = picture(alloc, floor, query, &shown)?;
    Ok(Answer {
        status: status_of(verdict),
        text,
    })
}

fn status_of(verdict: Verdict) -> Status
    ensures { result ≡ status_of verdict }
{
    match verdict {
        Verdict::Valid => Status::Done,
        Verdict::Invalid(fault) => Status::Invalid(fault),
    }
}

/// The answer that the input is refused.
pub fn refused(alloc: Global, refusal: Refusal) -> Result<Answer, NoMemory>
    ensures { IfOk result (λ answer. (answer.status ≡ Refused refusal) × (answer.text.items ≡ refusal_line refusal)) }
{
    let status = Status::Refused(refusal);
    let line = line_of(alloc, &status)?;
    let text = Vec::from_slice(alloc, line.as_bytes())?;
    Ok(Answer { status, text })
}

/// The answer to words that have none of the two forms, or ask for a query that is not there.
pub fn usage(alloc: Global) -> Result<Answer, NoMemory>
    ensures { IfOk result (λ answer. (answer.status ≡ Usage) × (answer.text.items ≡ usage_line)) }
{
    let text = Vec::from_slice(alloc, USAGE.as_bytes())?;
    Ok(Answer {
        status: Status::Usage,
        text,
    })
}

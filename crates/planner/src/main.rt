//! The planner as a program: its words, standard input and standard output, and an exit code.
#![tactic(auto)]

use plan_top::{NoMemory, Status, run, words_of};
use plan_watch::{OpenGate, Tally, Watcher};
use plan_wire::{Sink, Source, StreamSink, StreamSource};
use std::alloc::Global;
use std::process::ExitCode;
use std::sync::Wait;
use std::thread::Threads;
use std::{env, io};

fn main(rt: HostRuntime) -> ExitCode {
    let alloc = rt.alloc();
    let mut source = StreamSource::new(rt.stdin());
    let mut sink = StreamSink::new(rt.stdout());
    let status = match words_of(alloc, arguments(&rt, alloc)) {
        Ok(words) => answer(&rt, alloc, words.as_slice(), &mut source, &mut sink),
        Err(NoMemory) => Status::NoMemory,
    };
    ExitCode::from(status.code())
}

// Runs the command of the words, with a tally that hears of a session's accepted edits.
fn answer<R: Threads + Wait + Sync, S: Source, K: Sink>(
    rt: &R,
    alloc: Global,
    words: &[String],
    source: &mut S,
    sink: &mut K,
) -> Status {
    let Ok(tally) = Tally::new(alloc) else {
        return Status::NoMemory;
    };
    let Ok(tally) = Box::new(alloc, tally) else {
        return Status::NoMemory;
    };
    let mut watchers: Vec<Box<dyn Watcher>> = Vec::new(alloc);
    match watchers.push(tally) {
        Ok(()) => run(rt, alloc, words, source, sink, &OpenGate, &mut watchers),
        Err(_) => Status::NoMemory,
    }
}

// The arguments after the program's name.
fn arguments(rt: &HostRuntime, alloc: Global) -> io::Result<Vec<String>> {
    Ok(env::args(rt)?.skip(1).collect(alloc)?)
}

//! Pictures of floors as a program: its words, standard input and standard output, and an exit code.
#![tactic(auto)]

use plan_picture::run;
use plan_top::{NoMemory, Status, words_of};
use plan_wire::{StreamSink, StreamSource};
use std::alloc::Global;
use std::process::ExitCode;
use std::{env, io};

fn main(rt: HostRuntime) -> ExitCode {
    let alloc = rt.alloc();
    let mut source = StreamSource::new(rt.stdin());
    let mut sink = StreamSink::new(rt.stdout());
    let status = match words_of(alloc, arguments(&rt, alloc)) {
        Ok(words) => run(&rt, alloc, words.as_slice(), &mut source, &mut sink),
        Err(NoMemory) => Status::NoMemory,
    };
    ExitCode::from(status.code())
}

// The arguments after the program's name.
fn arguments(rt: &HostRuntime, alloc: Global) -> io::Result<Vec<String>> {
    Ok(env::args(rt)?.skip(1).collect(alloc)?)
}

ghost use Rattle.std.specs.Prelude.{◌≤◌};

use crate::calls::{expect, written};
use plan_top::run_demo;
use plan_watch::OpenGate;
use plan_wire::{Sink, SteadySink};
use std::alloc::Global;
use std::process::Abort;
use std::thread::Threads;

/// Lines that were computed elsewhere, from the definitions.
const DEMO_1: &str =
    "demo 1: accepted 16 refused 16 paths 220 chains 0 touching 36 points 24097 segments 0\nend version 16\n";

const DEMO_7: &str =
    "demo 7: accepted 21 refused 11 paths 227 chains 0 touching 29 points 21735 segments 0\nend version 21\n";

const DEMO_1000: &str =
    "demo 1000: accepted 13 refused 19 paths 204 chains 0 touching 52 points 22985 segments 0\nend version 13\n";

// The demonstration of this number with this number of workers writes these lines.
fn writes<R: Threads + Sync + Abort>(rt: &R, alloc: Global, number: u32, workers: u8, lines: &str)
    requires least { 1 ≤ number }
    requires most { number ≤ 1000 }
    requires one { 1 ≤ workers }
    requires sixteen { workers ≤ 16 }
{
    let mut sink = SteadySink::new(alloc, 1000).expect(rt, "memory");
    let code = run_demo(rt, alloc, number, workers, &mut sink, &OpenGate).code();
    let told = written(rt, alloc, code, sink.bytes());
    let expected = written(rt, alloc, 0, lines.as_bytes());
    expect(rt, told, expected.as_str(), lines);
}

#[test]
fn demonstration_1_counts_alike_for_each_number_of_workers(rt: HostRuntime) {
    let alloc = rt.alloc();
    writes(&rt, alloc, 1, 1, DEMO_1);
    writes(&rt, alloc, 1, 3, DEMO_1);
    writes(&rt, alloc, 1, 16, DEMO_1);
}

#[test]
fn demonstration_7_counts_alike_for_each_number_of_workers(rt: HostRuntime) {
    let alloc = rt.alloc();
    writes(&rt, alloc, 7, 1, DEMO_7);
    writes(&rt, alloc, 7, 3, DEMO_7);
    writes(&rt, alloc, 7, 16, DEMO_7);
}

#[test]
fn demonstration_1000_counts_alike_for_each_number_of_workers(rt: HostRuntime) {
    let alloc = rt.alloc();
    writes(&rt, alloc, 1000, 1, DEMO_1000);
    writes(&rt, alloc, 1000, 3, DEMO_1000);
    writes(&rt, alloc, 1000, 16, DEMO_1000);
}

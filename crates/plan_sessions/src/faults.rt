use crate::calls::{code_of, document, expect, expect_of, put, written};
use plan_watch::OpenGate;
use plan_wire::{MemorySink, MemorySource};
use std::alloc::Global;
use std::process::Abort;
use std::sync::Wait;
use std::thread::Threads;

/// Two rounds, of two edits and of two lanes.
const TWO_ROUNDS: &str =
    r#"[{"edits":[{"add":1,"shape":[[9,-5],[11,-5],[11,10],[9,10]]},{"remove":7}],"lanes":[]},
{"edits":[],"lanes":[[[2,2,5,5],[2,2,20,5]],[[9,5,2,2]]]}]"#;

const THEIR_LINES: &str = r#"round 1
edit 1 version 1
edit 2 refused unknown 7
round 2
lane 1 query 1 version 1 {"path":[[2,2,1],[5,5,1]]}
lane 1 query 2 version 1 {"goal":0}
lane 2 query 1 version 1 {"start":1}
end version 1
"#;

// A source of the two rounds that gives 100 bytes at a call, and fails at these calls.
fn source_of(rt: &impl Abort, alloc: Global, fails: &[u32]) -> MemorySource {
    let text = document(rt, alloc, TWO_ROUNDS);
    let bytes = text.as_bytes().to_vec(alloc).ok().expect(rt, "memory");
    let fails = Vec::from_slice(alloc, fails).ok().expect(rt, "memory");
    MemorySource::new(bytes, 100, fails)
}

// A sink with room for so many bytes that takes so many at a call, and fails at these calls.
fn sink_of(rt: &impl Abort, alloc: Global, room: u32, piece: u32, fails: &[u32]) -> MemorySink {
    assert!(rt; 1 <= piece);
    let fails = Vec::from_slice(alloc, fails).ok().expect(rt, "memory");
    let sink = MemorySink::new(alloc, room, piece, fails);
    sink.ok().expect(rt, "memory")
}

// Plays the two rounds, and compares what the sink has taken, and the status, with what is expected.
fn expect_from<R: Threads + Wait + Sync + Abort>(
    rt: &R,
    alloc: Global,
    mut source: MemorySource,
    mut sink: MemorySink,
    expected: &str,
) {
    let none = &mut Vec::new(alloc);
    let code = code_of(rt, alloc, &mut source, &mut sink, &OpenGate, none);
    let told = written(rt, alloc, code, sink.bytes());
    expect(rt, told.as_str(), expected);
}

// Compares what a sink that fails at one call has taken with the lines before.
fn expect_before<R: Threads + Wait + Sync + Abort>(rt: &R, alloc: Global, call: u32, front: &str) {
    let source = source_of(rt, alloc, &[]);
    let sink = sink_of(rt, alloc, 10_000, 10_000, &[call]);
    let expected = written(rt, alloc, 4, front.as_bytes());
    expect_from(rt, alloc, source, sink, expected.as_str());
}

#[test]
fn a_sink_that_fails_at_one_write_has_taken_the_lines_before(rt: HostRuntime) {
    let alloc = rt.alloc();
    let mut front = String::new(alloc);
    let mut call: u32 = 1;
    for line in THEIR_LINES.lines() {
        expect_before(&rt, alloc, call, front.as_str());
        put(&rt, &mut front, line);
        put(&rt, &mut front, "\n");
        call = u32::saturating_add(call, 1);
    }
}

// Plays the two rounds to a sink of this room, which takes so many bytes at a call and fails at one: it takes 30 bytes,
// and then no more.
fn expect_front<R: Threads + Wait + Sync + Abort>(
    rt: &R,
    alloc: Global,
    room: u32,
    piece: u32,
    call: u32,
) {
    let source = source_of(rt, alloc, &[]);
    let sink = sink_of(rt, alloc, room, piece, &[call]);
    let expected = "round 1\nedit 1 version 1\nedit status 4\n";
    expect_from(rt, alloc, source, sink, expected);
}

#[test]
fn a_sink_that_fails_within_a_line_has_taken_a_front_of_it(rt: HostRuntime) {
    let alloc = rt.alloc();
    expect_front(&rt, alloc, 30, 10_000, 1000);
    expect_front(&rt, alloc, 30, 1, 1000);
    expect_front(&rt, alloc, 10_000, 5, 8);
    expect_front(&rt, alloc, 10_000, 1, 31);
}

#[test]
fn a_source_that_fails_leaves_the_sink_as_it_was(rt: HostRuntime) {
    let alloc = rt.alloc();
    for call in [1, 2, 3] {
        let source = source_of(&rt, alloc, &[call]);
        let sink = sink_of(&rt, alloc, 10_000, 10_000, &[]);
        expect_from(&rt, alloc, source, sink, "status 3\n");
    }
}

#[test]
fn a_document_that_ends_too_soon_is_no_json(rt: HostRuntime) {
    let text = "{\"format\":1,\"rounds\":[";
    expect_of(&rt, rt.alloc(), text, "refused: json\nstatus 2\n");
}

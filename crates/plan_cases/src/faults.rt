use crate::calls::{answer_from, code_of, column, expect, number, words_of, written};
use crate::documents::one_point;
use plan_wire::{MemorySink, MemorySource};
use std::alloc::Global;
use std::process::Abort;
use std::sync::Wait;
use std::thread::Threads;

/// A source of this document, which gives at most `piece` bytes a call; the calls of these numbers fail.
pub fn source_of(
    rt: &impl Abort,
    alloc: Global,
    text: &str,
    piece: u32,
    fails: &[u32],
) -> MemorySource {
    assert!(rt; piece > 0);
    let bytes = text.as_bytes().to_vec(alloc).expect(rt, "memory");
    let fails = fails.to_vec(alloc).expect(rt, "memory");
    MemorySource::new(bytes, piece, fails)
}

/// The most bytes a call of the source, the call that fails, and what is told of the document of 166 bytes.
const SOURCES: &str = r#"1000 1 3 ""
1000 2 3 ""
1000 3 0 "valid\n"
100 2 3 ""
100 3 3 ""
100 4 0 "valid\n"
1 1 3 ""
1 100 3 ""
1 167 3 ""
1 168 0 "valid\n""#;

// Compares what is told over a source that fails.
fn is_read<R: Threads + Wait + Sync + Abort>(rt: &R, alloc: Global, row: &str) {
    let (piece, rest) = number(rt, row);
    let (call, expected) = number(rt, rest);
    let text = one_point(rt, alloc);
    let mut source = source_of(rt, alloc, text.as_str(), piece, &[call]);
    let told = answer_from(rt, alloc, "check", &mut source);
    expect(rt, told, expected, row);
}

#[test]
fn a_source_that_fails_before_its_end_is_a_read_fault(rt: HostRuntime) {
    for row in SOURCES.lines() {
        is_read(&rt, rt.alloc(), row);
    }
}

/// The words, the sink's room, the most bytes a call, the call that fails, and what is told.
const SINKS: &str = r#"check 100 1 1000 0 "valid\n"
check 100 4 1000 0 "valid\n"
check 6 100 1000 0 "valid\n"
check 100 100 1 4 ""
check 100 2 2 4 "va"
check 100 1 6 4 "valid"
check 0 100 1000 4 ""
check 3 100 1000 4 "val"
plan|3 100 100 1 4 ""
plan|3 100 1 1000 2 "refused: form $.queries\n"
session|3 100 100 1 4 ""
session|3 100 1 1000 2 "refused: form $.rounds\n"
chek 100 100 1 4 ""
chek 6 100 1000 4 "usage:""#;

/// A sink of this room, which takes at most `piece` bytes a call; the call of this number fails.
pub fn sink_of(rt: &impl Abort, alloc: Global, room: u32, piece: u32, call: u32) -> MemorySink {
    assert!(rt; piece > 0);
    let fails = [call].to_vec(alloc).expect(rt, "memory");
    MemorySink::new(alloc, room, piece, fails).expect(rt, "memory")
}

/// What is told of this document into a sink.
pub fn told_into<R: Threads + Wait + Sync + Abort>(
    rt: &R,
    alloc: Global,
    words: &str,
    text: &str,
    sink: &mut MemorySink,
) -> String {
    let mut source = source_of(rt, alloc, text, 1000, &[]);
    let words = words_of(rt, alloc, words);
    let code = code_of(rt, alloc, words.as_slice(), &mut source, sink);
    written(rt, alloc, code, sink.bytes())
}

// Compares what is told into a sink that fails.
fn is_put<R: Threads + Wait + Sync + Abort>(rt: &R, alloc: Global, row: &str) {
    let (words, rest) = column(rt, row);
    let (room, rest) = number(rt, rest);
    let (piece, rest) = number(rt, rest);
    let (call, expected) = number(rt, rest);
    let mut sink = sink_of(rt, alloc, room, piece, call);
    let text = one_point(rt, alloc);
    let told = told_into(rt, alloc, words, text.as_str(), &mut sink);
    expect(rt, told, expected, row);
}

#[test]
fn a_sink_that_fails_leaves_a_front_of_the_line(rt: HostRuntime) {
    for row in SINKS.lines() {
        is_put(&rt, rt.alloc(), row);
    }
}

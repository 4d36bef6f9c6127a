use crate::calls::{answer_from, answer_to, before, expect, is_told};
use crate::documents::one_point;
use plan_wire::{Source, SteadySource};
use std::alloc::Global;
use std::process::Abort;
use std::sync::Wait;
use std::thread::Threads;

/// Words, parted by bars, and what is told over a document that is valid.
const WORDS: &str = r#"check=0 "valid\n"
plan|3=2 "refused: form $.queries\n"
plan|1=2 "refused: form $.queries\n"
plan|16=2 "refused: form $.queries\n"
session|9=2 "refused: form $.rounds\n"
demo|1000|16=0 "demo 1000: accepted 13 refused 19 paths 204 chains 0 touching 52 points 22985 segments 0\nend version 13\n"
demo|1|1=0 "demo 1: accepted 16 refused 16 paths 220 chains 0 touching 36 points 24097 segments 0\nend version 16\n"
=1 "usage: planner plan N | session N | check | demo K N\n"
plan=1 "usage: planner plan N | session N | check | demo K N\n"
plan|0=1 "usage: planner plan N | session N | check | demo K N\n"
plan|17=1 "usage: planner plan N | session N | check | demo K N\n"
plan|01=1 "usage: planner plan N | session N | check | demo K N\n"
plan|+3=1 "usage: planner plan N | session N | check | demo K N\n"
plan|-3=1 "usage: planner plan N | session N | check | demo K N\n"
plan| 3=1 "usage: planner plan N | session N | check | demo K N\n"
plan|=1 "usage: planner plan N | session N | check | demo K N\n"
plan|3|3=1 "usage: planner plan N | session N | check | demo K N\n"
plan|18446744073709551619=1 "usage: planner plan N | session N | check | demo K N\n"
session|x=1 "usage: planner plan N | session N | check | demo K N\n"
check|1=1 "usage: planner plan N | session N | check | demo K N\n"
check|check=1 "usage: planner plan N | session N | check | demo K N\n"
check =1 "usage: planner plan N | session N | check | demo K N\n"
Check=1 "usage: planner plan N | session N | check | demo K N\n"
demo|1|17=1 "usage: planner plan N | session N | check | demo K N\n"
demo|1001|1=1 "usage: planner plan N | session N | check | demo K N\n"
demo|1=1 "usage: planner plan N | session N | check | demo K N\n""#;

// Compares what is told of a row's words.
fn is_answered<R: Threads + Wait + Sync + Abort>(rt: &R, alloc: Global, row: &str, text: &[u8]) {
    let (words, expected) = before(rt, row, '=');
    is_told(rt, alloc, words, text, expected, row);
}

#[test]
fn words_of_the_four_forms_are_answered_and_all_others_are_usage(rt: HostRuntime) {
    let alloc = rt.alloc();
    let text = one_point(&rt, alloc);
    for row in WORDS.lines() {
        is_answered(&rt, alloc, row, text.as_bytes());
    }
}

#[test]
fn no_words_are_usage(rt: HostRuntime) {
    let alloc = rt.alloc();
    let text = one_point(&rt, alloc);
    let bytes = text.as_bytes().to_vec(alloc).expect(&rt, "memory");
    let told = answer_to(&rt, alloc, &[], &mut SteadySource::new(bytes));
    let usage = r#"1 "usage: planner plan N | session N | check | demo K N\n""#;
    expect(&rt, told, usage, "no words");
}

// How many of seven bytes are left after a call with these words.
fn left_by<R: Threads + Wait + Sync + Abort>(rt: &R, alloc: Global, words: &str) -> usize {
    let bytes = b"{\"a\":1}".to_vec(alloc).expect(rt, "memory");
    let mut source = SteadySource::new(bytes);
    answer_from(rt, alloc, words, &mut source);
    left_in(rt, &mut source)
}

// How many bytes are left, up to eight.
fn left_in(rt: &impl Abort, source: &mut SteadySource) -> usize {
    source.read(&mut [0; 8]).ok().expect(rt, "a read")
}

#[test]
fn plan_session_and_check_alone_read_their_source_and_read_it_to_the_end(rt: HostRuntime) {
    let alloc = rt.alloc();
    assert!(rt; left_by(&rt, alloc, "plan|3") == 0);
    assert!(rt; left_by(&rt, alloc, "session|3") == 0);
    assert!(rt; left_by(&rt, alloc, "demo|1|1") == 7);
    assert!(rt; left_by(&rt, alloc, "plan|0") == 7);
    assert!(rt; left_by(&rt, alloc, "check") == 0);
}

use crate::calls::{between, expect_number, expect_refused, lines_by, put, put_item, text_of};
use crate::watchers::{one_tally, pairs_of_one};
use plan_watch::OpenGate;
use std::alloc::Global;
use std::process::Abort;
use std::sync::Wait;
use std::thread::Threads;

// A list of the item so many times.
fn list_of(rt: &impl Abort, alloc: Global, times: u32, item: &str) -> String {
    let mut all = text_of(rt, alloc, "[");
    put(rt, &mut all, item);
    for _ in 1..times {
        put_item(rt, &mut all, item);
    }
    put(rt, &mut all, "]");
    all
}

// A round of these edits and lanes.
fn round_of(rt: &impl Abort, alloc: Global, edits: &str, lanes: &str) -> String {
    let mut round = between(rt, alloc, "{\"edits\":", edits, ",\"lanes\":");
    put(rt, &mut round, lanes);
    put(rt, &mut round, "}");
    round
}

// So many rounds, each with the edits so many times, and with so many lanes of so many queries.
fn rounds_of(rt: &impl Abort, alloc: Global, edits: &str, counts: [u32; 4]) -> String {
    let [rounds, times, lanes, queries] = counts;
    let edits = list_of(rt, alloc, times, edits);
    let lane = list_of(rt, alloc, queries, "[2,2,5,5]");
    let lanes = list_of(rt, alloc, lanes, lane.as_str());
    let round = round_of(rt, alloc, edits.as_str(), lanes.as_str());
    list_of(rt, alloc, rounds, round.as_str())
}

/// A bar that comes and goes.
const COMES_AND_GOES: &str = r#"{"add":1,"shape":[[9,-5],[11,-5],[11,10],[9,10]]},{"remove":1}"#;

/// A query's reply, which is the same whether the bar stands or not.
const REPLY: &str = r#" {"path":[[2,2,1],[5,5,1]]}"#;

// Whether a line begins and ends so.
fn is_from_to(line: &str, head: &str, tail: &str) -> bool {
    line.starts_with(head) && line.ends_with(tail)
}

// Compares the number of lines that begin and end so with what is expected.
fn expect_count(rt: &impl Abort, text: &str, head: &str, tail: &str, expected: u64) {
    let mut found = 0;
    for line in text.lines() {
        found = u64::saturating_add(found, u64::from(is_from_to(line, head, tail)));
    }
    expect_number(rt, found, expected);
}

// Stops the program where the lines are not those of 64 rounds of 32 edits and 8 lanes of 16 queries.
fn check_lines(rt: &impl Abort, told: &str) {
    expect_count(rt, told, "", "", 64 + 64 * 32 + 64 * 8 * 16 + 2);
    expect_count(rt, told, "round ", "", 64);
    expect_count(rt, told, "edit ", "", 2048);
    expect_count(rt, told, "edit 32 version ", "", 64);
    expect_count(rt, told, "lane 8 query 16 version ", REPLY, 64);
    expect_count(rt, told, "lane ", REPLY, 8192);
    assert!(rt; told.ends_with("\nend version 2048\nstatus 0\n"));
}

// Stops the program where the pairs are not 2048 of which the last is of no obstacle.
fn check_pairs(rt: &impl Abort, kept: &[(u32, u32)]) {
    expect_number(rt, kept.len() as u64, 2048);
    assert!(rt; kept.last() == Some(&(2048, 0)));
}

#[test]
fn a_session_may_have_64_rounds_of_32_edits_and_8_lanes_of_16_queries(rt: HostRuntime) {
    let alloc = rt.alloc();
    let rounds = rounds_of(&rt, alloc, COMES_AND_GOES, [64, 16, 8, 16]);
    let mut watchers = one_tally(&rt, alloc);
    let told = lines_by(&rt, alloc, rounds.as_str(), &OpenGate, &mut watchers);
    check_lines(&rt, told.as_str());
    check_pairs(&rt, pairs_of_one(&rt, watchers.as_slice()));
}

// Plays rounds of which there is one more of something than may be, and compares the place that is refused.
fn expect_refused_at<R: Threads + Wait + Sync + Abort>(
    rt: &R,
    alloc: Global,
    counts: [u32; 4],
    why: &str,
) {
    let rounds = rounds_of(rt, alloc, r#"{"remove":1}"#, counts);
    expect_refused(rt, alloc, rounds.as_str(), why);
}

#[test]
fn one_more_of_each_is_refused(rt: HostRuntime) {
    let alloc = rt.alloc();
    expect_refused_at(&rt, alloc, [65, 1, 1, 1], "range $.rounds");
    expect_refused_at(&rt, alloc, [1, 33, 1, 1], "range $.rounds[0].edits");
    expect_refused_at(&rt, alloc, [1, 1, 9, 1], "range $.rounds[0].lanes");
    expect_refused_at(&rt, alloc, [2, 1, 1, 17], "range $.rounds[0].lanes[0]");
}

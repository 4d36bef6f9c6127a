use crate::calls::{check, columns, lines_by, put, text_of};
use plan_watch::OpenGate;
use std::alloc::Global;
use std::process::Abort;

// A bar comes and goes, while the first lane asks twice whether it is in the way, and the second once.
const COMES_AND_GOES: &str =
    r#"[{"edits":[{"add":1,"shape":[[9,-5],[11,-5],[11,25],[9,25]]},{"remove":1}],"lanes":[[[2,2,15,2],[2,2,15,2]],[[2,2,15,2]]]}]"#;

const EDITS: &str = "round 1\nedit 1 version 1\nedit 2 version 2\n";

const END: &str = "end version 2\nstatus 0\n";

// The reply without the bar.
const PATH: &str = r#"{"path":[[2,2,1],[15,2,1]]}"#;

// The reply where the bar is in the way.
const CHAIN: &str = r#"{"chain":[[0,0,1,8,0,1],[8,0,1,8,19,1],[0,19,1,8,19,1],[0,0,1,0,19,1]]}"#;

// The number of a version, and the reply at it.
fn reply_at(version: &str) -> Option<(u8, &'static str)> {
    match version {
        "0" => Some((0, PATH)),
        "1" => Some((1, CHAIN)),
        "2" => Some((2, PATH)),
        _ => None,
    }
}

// The version of a line, from its version on, where it has the reply at that version.
fn version_in(line: &str) -> Option<u8> {
    let (version, said) = line.split_once(' ')?;
    let (number, reply) = reply_at(version)?;
    if said == reply { Some(number) } else { None }
}

// What is behind the words before the first version, up to the end.
fn lanes_in(text: &str) -> Option<&str> {
    let lanes = text.strip_prefix(EDITS)?.strip_suffix(END)?;
    lanes.strip_prefix("lane 1 query 1 version ")
}

// The lines of the lanes, parted by the words before their versions.
fn lines_in(lanes: &str) -> Option<(&str, &str, &str)> {
    let (first, lanes) = lanes.split_once("\nlane 1 query 2 version ")?;
    let (second, third) = lanes.split_once("\nlane 2 query 1 version ")?;
    Some((first, second, third.strip_suffix("\n")?))
}

// Whether the versions never fall in a lane, each with its own reply.
fn never_fall(first: &str, second: &str, third: &str) -> bool {
    match (version_in(first), version_in(second), version_in(third)) {
        (Some(first), Some(second), Some(_)) => first <= second,
        _ => false,
    }
}

// Whether the lines of the lanes are lawful.
fn are_lawful(lanes: &str) -> bool {
    match lines_in(lanes) {
        Some((first, second, third)) => never_fall(first, second, third),
        None => false,
    }
}

// Whether these are lawful lines of the bar that comes and goes.
fn is_lawful(text: &str) -> bool {
    match lanes_in(text) {
        Some(lanes) => are_lawful(lanes),
        None => false,
    }
}

#[test]
fn a_bar_comes_and_goes_while_two_lanes_ask(rt: HostRuntime) {
    let alloc = rt.alloc();
    for _ in 0..20 {
        let told = lines_by(&rt, alloc, COMES_AND_GOES, &OpenGate, &mut Vec::new(alloc));
        check(&rt, told.as_str(), is_lawful(told.as_str()));
    }
}

// What the reply at the version says.
fn said_at(version: &str) -> &'static str {
    match reply_at(version) {
        Some((_, reply)) => reply,
        None => "",
    }
}

// Appends a line of a lane with this version, and the reply at that of another.
fn put_line(rt: &impl Abort, text: &mut String, head: &str, version: &str, other: &str) {
    put(rt, text, head);
    put(rt, text, version);
    put(rt, text, " ");
    put(rt, text, said_at(other));
    put(rt, text, "\n");
}

// The lines with the versions of a row, each with the reply at the version of another row.
fn text_with(rt: &impl Abort, alloc: Global, row: &str, replies: &str) -> String {
    let (first, second, third) = versions(rt, row);
    let (said, again, beside) = versions(rt, replies);
    let mut text = text_of(rt, alloc, EDITS);
    put_line(rt, &mut text, "lane 1 query 1 version ", first, said);
    put_line(rt, &mut text, "lane 1 query 2 version ", second, again);
    put_line(rt, &mut text, "lane 2 query 1 version ", third, beside);
    put(rt, &mut text, END);
    text
}

// Compares whether the lines of two rows are lawful with what is expected.
fn expect_law(rt: &impl Abort, alloc: Global, row: &str, replies: &str, expected: bool) {
    let text = text_with(rt, alloc, row, replies);
    check(rt, text.as_str(), is_lawful(text.as_str()) == expected);
}

/// The versions of the two lanes that are lawful.
const LAWFUL: &str = "0 0 0\n0 0 1\n0 0 2\n0 1 0\n0 1 1\n0 1 2\n0 2 0\n0 2 1\n0 2 2
1 1 0\n1 1 1\n1 1 2\n1 2 0\n1 2 1\n1 2 2\n2 2 0\n2 2 1\n2 2 2";

/// Others: that fall, or lie behind the round's end.
const UNLAWFUL: &str = "1 0 0\n2 0 0\n2 1 0\n0 0 3\n3 3 0\n0 3 0";

// The three versions of a row.
fn versions<'a>(rt: &impl Abort, row: &'a str) -> (&'a str, &'a str, &'a str) {
    let (first, rest) = columns(rt, row, " ");
    let (second, third) = columns(rt, rest, " ");
    (first, second, third)
}

#[test]
fn versions_that_never_fall_are_lawful_exactly_with_their_own_replies(rt: HostRuntime) {
    let alloc = rt.alloc();
    for row in LAWFUL.lines() {
        expect_law(&rt, alloc, row, row, true);
        expect_law(&rt, alloc, row, "1 1 1", row == "1 1 1");
    }
}

#[test]
fn versions_that_fall_or_lie_behind_the_end_are_not_lawful(rt: HostRuntime) {
    let alloc = rt.alloc();
    for row in UNLAWFUL.lines() {
        expect_law(&rt, alloc, row, row, false);
    }
}

ghost use Rattle.std.specs.Prelude.{◌≤◌, All};

use plan_top::run;
use plan_watch::{Gate, OpenGate, Watcher};
use plan_wire::{Sink, Source, SteadySink, SteadySource};
use std::alloc::Global;
use std::process::Abort;
use std::sync::Wait;
use std::thread::Threads;

/// A text of its own.
pub fn text_of(rt: &impl Abort, alloc: Global, text: &str) -> String {
    String::from_str(alloc, text).ok().expect(rt, "memory")
}

/// Appends to a text.
pub fn put(rt: &impl Abort, all: &mut String, more: &str) {
    all.push_str(more).ok().expect(rt, "memory");
}

/// Appends one more item of a list.
pub fn put_item(rt: &impl Abort, all: &mut String, item: &str) {
    put(rt, all, ",");
    put(rt, all, item);
}

/// The two columns of a row, which are parted so.
pub fn columns<'a>(rt: &impl Abort, row: &'a str, parted: &str) -> (&'a str, &'a str) {
    row.split_once(parted).expect(rt, "two columns")
}

/// The text between two others.
pub fn between(rt: &impl Abort, alloc: Global, head: &str, text: &str, tail: &str) -> String {
    let mut all = text_of(rt, alloc, head);
    put(rt, &mut all, text);
    put(rt, &mut all, tail);
    all
}

// What is before the rounds: a frame of 20 by 20, a robot of width and height 1, and no first obstacle.
const HEAD: &str =
    r#"{"format":1,"frame":[0,0,20,20],"robot":[[0,0],[1,0],[0,1]],"obstacles":[],"rounds":"#;

/// A document of rounds in a frame of 20 by 20, with a robot of width and height 1 and no first obstacle.
pub fn document(rt: &impl Abort, alloc: Global, rounds: &str) -> String {
    between(rt, alloc, HEAD, rounds, "}")
}

/// Plays the session of these rounds with two workers, by a gate and with watchers, and gives its lines and its status.
pub fn lines_by<R: Threads + Wait + Sync + Abort, G: Gate>(
    rt: &R,
    alloc: Global,
    rounds: &str,
    gate: &G,
    watchers: &mut Vec<Box<dyn Watcher>>,
) -> String
    requires room { All (λ w. 2048 ≤ room w) watchers.old.items }
{
    let text = document(rt, alloc, rounds);
    lines_of(rt, alloc, text.as_str(), gate, watchers)
}

// The same of a document.
fn lines_of<R: Threads + Wait + Sync + Abort, G: Gate>(
    rt: &R,
    alloc: Global,
    text: &str,
    gate: &G,
    watchers: &mut Vec<Box<dyn Watcher>>,
) -> String
    requires room { All (λ w. 2048 ≤ room w) watchers.old.items }
{
    let bytes = text.as_bytes().to_vec(alloc).ok().expect(rt, "memory");
    let mut source = SteadySource::new(bytes);
    let mut sink = SteadySink::new(alloc, 1_000_000).ok().expect(rt, "memory");
    let code = code_of(rt, alloc, &mut source, &mut sink, gate, watchers);
    written(rt, alloc, code, sink.bytes())
}

// The words that ask for a session with two workers.
fn session_words(rt: &impl Abort, alloc: Global) -> Vec<String> {
    let mut words = Vec::new(alloc);
    words
        .push(text_of(rt, alloc, "session"))
        .ok()
        .expect(rt, "memory");
    words
        .push(text_of(rt, alloc, "2"))
        .ok()
        .expect(rt, "memory");
    words
}

/// Plays a session with two workers, and gives its code.
pub fn code_of<R: Threads + Wait + Sync + Abort, S: Source, K: Sink, G: Gate>(
    rt: &R,
    alloc: Global,
    source: &mut S,
    sink: &mut K,
    gate: &G,
    watchers: &mut Vec<Box<dyn Watcher>>,
) -> u8
    requires room { All (λ w. 2048 ≤ room w) watchers.old.items }
{
    let words = session_words(rt, alloc);
    run(rt, alloc, words.as_slice(), source, sink, gate, watchers).code()
}

/// What was written, and the status on a line of its own.
pub fn written(rt: &impl Abort, alloc: Global, code: u8, bytes: &[u8]) -> String {
    let lines = str::from_utf8(bytes).ok().expect(rt, "a text");
    let made = format!(in alloc; "{lines}status {code}\n");
    made.ok().expect(rt, "memory")
}

/// Compares what was told with what is expected.
pub fn expect(rt: &impl Abort, told: &str, expected: &str) {
    assert_eq!(rt; told, expected);
}

/// The same of numbers.
pub fn expect_number(rt: &impl Abort, found: u64, expected: u64) {
    assert_eq!(rt; found, expected);
}

/// Stops the program where what was told is not as it must be.
pub fn check(rt: &impl Abort, told: &str, is_right: bool) {
    assert!(rt; is_right, "{told}");
}

/// Plays the session of a document, and compares its lines and its status with what is expected.
pub fn expect_of<R: Threads + Wait + Sync + Abort>(
    rt: &R,
    alloc: Global,
    text: &str,
    expected: &str,
) {
    let told = lines_of(rt, alloc, text, &OpenGate, &mut Vec::new(alloc));
    expect(rt, told.as_str(), expected);
}

/// The same of these rounds.
pub fn expect_lines<R: Threads + Wait + Sync + Abort>(
    rt: &R,
    alloc: Global,
    rounds: &str,
    expected: &str,
) {
    let text = document(rt, alloc, rounds);
    expect_of(rt, alloc, text.as_str(), expected);
}

/// The same of rounds whose document is refused for this cause.
pub fn expect_refused<R: Threads + Wait + Sync + Abort>(
    rt: &R,
    alloc: Global,
    rounds: &str,
    why: &str,
) {
    let line = between(rt, alloc, "refused: ", why, "\nstatus 2\n");
    expect_lines(rt, alloc, rounds, line.as_str());
}

use plan_top::run;
use plan_watch::{OpenGate, Watcher};
use plan_wire::{Sink, Source, SteadySink, SteadySource};
use std::alloc::Global;
use std::process::Abort;
use std::sync::Wait;
use std::thread::Threads;

/// Compares what the planner tells of these bytes, called with words that are parted by bars.
pub fn is_told<R: Threads + Wait + Sync + Abort>(
    rt: &R,
    alloc: Global,
    words: &str,
    bytes: &[u8],
    expected: &str,
    row: &str,
) {
    let bytes = bytes.to_vec(alloc).expect(rt, "memory");
    let told = answer_from(rt, alloc, words, &mut SteadySource::new(bytes));
    expect(rt, told, expected, row);
}

/// Calls the planner over a source with words that are parted by bars, and gives its code and what it wrote, as
/// `0 "valid\n"`.
pub fn answer_from<R: Threads + Wait + Sync + Abort, S: Source>(
    rt: &R,
    alloc: Global,
    words: &str,
    source: &mut S,
) -> String {
    let words = words_of(rt, alloc, words);
    answer_to(rt, alloc, words.as_slice(), source)
}

/// The same with these words.
pub fn answer_to<R: Threads + Wait + Sync + Abort, S: Source>(
    rt: &R,
    alloc: Global,
    words: &[String],
    source: &mut S,
) -> String {
    let mut sink = SteadySink::new(alloc, 10_000).expect(rt, "memory");
    let code = code_of(rt, alloc, words, source, &mut sink);
    written(rt, alloc, code, sink.bytes())
}

/// Calls the planner, and gives its code.
pub fn code_of<R: Threads + Wait + Sync, S: Source, K: Sink>(
    rt: &R,
    alloc: Global,
    words: &[String],
    source: &mut S,
    sink: &mut K,
) -> u8 {
    let mut watchers: Vec<Box<dyn Watcher>> = Vec::new(alloc);
    run(rt, alloc, words, source, sink, &OpenGate, &mut watchers).code()
}

/// A code and what was written, as `0 "valid\n"`.
pub fn written(rt: &impl Abort, alloc: Global, code: u8, bytes: &[u8]) -> String {
    let line = str::from_utf8(bytes).ok().expect(rt, "a text");
    format!(in alloc; "{code} {line:?}").expect(rt, "memory")
}

/// The words of a text, which are parted by bars.
pub fn words_of(rt: &impl Abort, alloc: Global, text: &str) -> Vec<String> {
    let mut words = Vec::new(alloc);
    for word in text.split('|') {
        let word = String::from_str(alloc, word).expect(rt, "memory");
        words.push(word).expect(rt, "memory");
    }
    words
}

/// The first column of a row, and what is behind it.
pub fn column<'a>(rt: &impl Abort, row: &'a str) -> (&'a str, &'a str) {
    before(rt, row, ' ')
}

/// What is before the mark, and what is behind it.
pub fn before<'a>(rt: &impl Abort, row: &'a str, mark: char) -> (&'a str, &'a str) {
    row.split_once(mark).expect(rt, "a column is missing")
}

/// The number in the first column of a row, and what is behind it.
pub fn number<'a>(rt: &impl Abort, row: &'a str) -> (u32, &'a str) {
    let (text, rest) = column(rt, row);
    let number = text.parse::<u32>().ok().expect(rt, "a number");
    (number, rest)
}

/// Compares what was told with the row's last columns.
pub fn expect(rt: &impl Abort, told: String, expected: &str, row: &str) {
    assert!(rt; told.as_str() == expected, "{row}: {told}");
}

/// Adds to a text.
pub fn push(rt: &impl Abort, text: &mut String, more: &str) {
    text.push_str(more).expect(rt, "memory");
}

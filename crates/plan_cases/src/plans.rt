use crate::calls::{answer_from, column, expect, is_told, written};
use crate::documents::{CORNER, SPIKE, plan_document};
use crate::faults::{sink_of, source_of, told_into};
use std::alloc::Global;
use std::process::Abort;
use std::sync::Wait;
use std::thread::Threads;

// Rows of a query and its reply, with the corner robot and these obstacles: each alone in a document.
fn answers<R: Threads + Wait + Sync + Abort>(rt: &R, alloc: Global, obstacles: &str, table: &str) {
    for row in table.lines() {
        is_answered(rt, alloc, obstacles, row);
    }
}

fn is_answered<R: Threads + Wait + Sync + Abort>(
    rt: &R,
    alloc: Global,
    obstacles: &str,
    row: &str,
) {
    let (query, reply) = column(rt, row);
    let queries = format!(in alloc; "[{query}]").expect(rt, "memory");
    let text = plan_document(rt, alloc, CORNER, obstacles, queries.as_str());
    let lines = format!(in alloc; "query 1 {reply}\nend\n").expect(rt, "memory");
    writes(rt, alloc, text.as_bytes(), lines.as_bytes(), row);
}

// Compares the lines of a document of `plan`.
fn writes<R: Threads + Wait + Sync + Abort>(
    rt: &R,
    alloc: Global,
    text: &[u8],
    lines: &[u8],
    row: &str,
) {
    let expected = written(rt, alloc, 0, lines);
    is_told(rt, alloc, "plan|3", text, expected.as_str(), row);
}

/// Nothing on the floor: a way, one point, a start and a goal on the room's sides and beyond them.
const EMPTY_FLOOR: &str = r#"[2,2,5,5] {"path":[[2,2,1],[5,5,1]]}
[2,2,2,2] {"path":[[2,2,1]]}
[0,2,2,2] {"start":0}
[2,2,19,2] {"goal":0}
[30,30,2,2] {"start":0}
[18,18,1,1] {"path":[[18,18,1],[1,1,1]]}"#;

/// A bar with nothing above it: over it and back; along its event lines; start or goal in it, on a side of the room, and
/// both; start and goal equal; start and goal on an event line, in a wall, at the point that stands for a wall.
const BY_THE_BAR: &str =
    r#"[2,2,15,2] {"path":[[2,2,1],[8,19,2],[16,29,2],[17,29,2],[18,29,2],[20,29,2],[22,29,2],[30,19,2],[15,2,1]]}
[8,15,15,2] {"path":[[8,15,1],[16,29,2],[17,29,2],[18,29,2],[20,29,2],[22,29,2],[30,19,2],[15,2,1]]}
[8,5,15,2] {"start":1}
[2,2,19,5] {"goal":0}
[8,0,15,2] {"start":0}
[8,5,19,5] {"start":1}
[8,15,11,15] {"path":[[8,15,1],[16,29,2],[17,29,2],[18,29,2],[20,29,2],[22,29,2],[11,15,1]]}
[11,15,8,15] {"path":[[11,15,1],[22,29,2],[20,29,2],[18,29,2],[17,29,2],[16,29,2],[8,15,1]]}
[8,11,11,11] {"path":[[8,11,1],[16,29,2],[17,29,2],[18,29,2],[20,29,2],[22,29,2],[11,11,1]]}
[16,3,2,2] {"path":[[16,3,1],[30,19,2],[22,29,2],[20,29,2],[18,29,2],[17,29,2],[16,29,2],[8,19,2],[2,2,1]]}
[15,2,15,2] {"path":[[15,2,1]]}
[8,15,8,15] {"path":[[8,15,1]]}
[7,2,7,9] {"path":[[7,2,1],[7,9,1]]}"#;

/// A bar from below the room to above it, from both sides.
const BY_THE_TALL_BAR: &str =
    r#"[2,2,15,2] {"chain":[[0,0,1,8,0,1],[8,0,1,8,19,1],[0,19,1,8,19,1],[0,0,1,0,19,1]]}
[15,2,2,2] {"chain":[[11,0,1,19,0,1],[19,0,1,19,19,1],[11,19,1,19,19,1],[11,0,1,11,19,1]]}
[2,2,7,18] {"path":[[2,2,1],[7,18,1]]}"#;

/// Two bars that are one unit apart: the robot does not fit.
const BY_THE_CLOSED_GAP: &str =
    r#"[2,2,15,2] {"chain":[[0,0,1,8,0,1],[8,0,1,8,10,1],[8,11,1,8,19,1],[0,19,1,8,19,1],[0,0,1,0,19,1],[8,10,1,9,10,1],[8,11,1,9,10,1]]}
[15,2,2,2] {"chain":[[11,0,1,19,0,1],[19,0,1,19,19,1],[11,19,1,19,19,1],[11,0,1,11,10,1],[11,10,1,11,11,1],[11,11,1,11,19,1]]}
[9,10,2,2] {"start":1}"#;

/// Two bars that are two units apart: it does.
const BY_THE_OPEN_GAP: &str =
    r#"[2,2,15,2] {"path":[[2,2,1],[8,19,2],[8,11,1],[34,43,4],[18,21,2],[20,21,2],[22,21,2],[30,19,2],[15,2,1]]}
[15,2,2,2] {"path":[[15,2,1],[30,19,2],[22,21,2],[20,21,2],[18,21,2],[34,43,4],[8,11,1],[8,19,2],[2,2,1]]}"#;

/// A ring of four bars: out of it and into it, inside it, and round it.
const BY_THE_RING: &str =
    r#"[9,9,2,2] {"chain":[[6,6,1,13,6,1],[13,6,1,13,13,1],[6,13,1,13,13,1],[6,6,1,6,13,1]]}
[2,2,9,9] {"chain":[[0,0,1,3,0,1],[3,4,1,3,6,1],[3,6,1,3,14,1],[3,14,1,3,16,1],[0,19,1,3,19,1],[0,0,1,0,19,1],[3,0,1,4,0,1],[3,4,1,4,3,1],[3,16,1,4,16,1],[3,19,1,4,19,1],[4,0,1,6,0,1],[4,3,1,6,3,1],[4,16,1,6,16,1],[4,19,1,6,19,1],[6,0,1,13,0,1],[6,3,1,13,3,1],[6,16,1,13,16,1],[6,19,1,13,19,1],[13,0,1,14,0,1],[13,3,1,14,3,1],[13,16,1,14,16,1],[13,19,1,14,19,1],[14,0,1,16,0,1],[14,3,1,16,3,1],[14,16,1,16,16,1],[14,19,1,16,19,1],[16,0,1,19,0,1],[19,0,1,19,19,1],[16,19,1,19,19,1],[16,3,1,16,4,1],[16,4,1,16,6,1],[16,6,1,16,13,1],[16,13,1,16,14,1],[16,14,1,16,16,1]]}
[9,9,10,10] {"path":[[9,9,1],[10,10,1]]}
[2,2,18,18] {"path":[[2,2,1],[3,19,2],[3,2,1],[14,7,4],[8,3,2],[10,3,2],[12,3,2],[19,3,2],[26,3,2],[27,3,2],[28,3,2],[30,3,2],[32,3,2],[35,19,2],[18,18,1]]}"#;

/// A spike, whose slope gives lines and marks that are no whole numbers.
const BY_THE_SPIKE: &str =
    r#"[2,2,15,2] {"path":[[2,2,1],[8,19,2],[16,29,2],[17,29,2],[18,29,2],[40,43,4],[62,57,6],[25,19,2],[15,2,1]]}
[8,10,2,2] {"start":1}
[8,11,9,11] {"path":[[8,11,1],[16,29,2],[17,29,2],[18,29,2],[9,11,1]]}"#;

const BAR: &str = r#"[{"id":1,"shape":[[9,-5],[11,-5],[11,10],[9,10]]}]"#;

const TALL_BAR: &str = r#"[{"id":1,"shape":[[9,-5],[11,-5],[11,25],[9,25]]}]"#;

const CLOSED_GAP: &str =
    r#"[{"id":1,"shape":[[9,-5],[11,-5],[11,10],[9,10]]},{"id":2,"shape":[[9,11],[11,11],[11,25],[9,25]]}]"#;

const OPEN_GAP: &str =
    r#"[{"id":1,"shape":[[9,-5],[11,-5],[11,10],[9,10]]},{"id":2,"shape":[[9,12],[11,12],[11,25],[9,25]]}]"#;

const RING: &str =
    r#"[{"id":1,"shape":[[4,4],[6,4],[6,16],[4,16]]},{"id":2,"shape":[[14,4],[16,4],[16,16],[14,16]]},{"id":3,"shape":[[4,4],[16,4],[16,6],[4,6]]},{"id":4,"shape":[[4,14],[16,14],[16,16],[4,16]]}]"#;

#[test]
fn a_query_is_answered_with_a_path_a_chain_or_what_is_touched(rt: HostRuntime) {
    let alloc = rt.alloc();
    answers(&rt, alloc, "[]", EMPTY_FLOOR);
    answers(&rt, alloc, BAR, BY_THE_BAR);
    answers(&rt, alloc, TALL_BAR, BY_THE_TALL_BAR);
    answers(&rt, alloc, CLOSED_GAP, BY_THE_CLOSED_GAP);
    answers(&rt, alloc, OPEN_GAP, BY_THE_OPEN_GAP);
    answers(&rt, alloc, RING, BY_THE_RING);
    answers(&rt, alloc, SPIKE, BY_THE_SPIKE);
}

/// Queries, and what is told of them by the bar: none; two, which are numbered from 1; the same twice.
const NUMBERED: &str = r#"[] 0 "end\n"
[[2,2,5,5],[8,5,15,2]] 0 "query 1 {\"path\":[[2,2,1],[5,5,1]]}\nquery 2 {\"start\":1}\nend\n"
[[8,5,15,2],[8,5,15,2]] 0 "query 1 {\"start\":1}\nquery 2 {\"start\":1}\nend\n""#;

/// The text of four queries by the tall bar, two from each side: those from one side have one chain.
const FROM_BOTH_SIDES: &str =
    r#"query 1 {"chain":[[0,0,1,8,0,1],[8,0,1,8,19,1],[0,19,1,8,19,1],[0,0,1,0,19,1]]}
query 2 {"chain":[[0,0,1,8,0,1],[8,0,1,8,19,1],[0,19,1,8,19,1],[0,0,1,0,19,1]]}
query 3 {"chain":[[11,0,1,19,0,1],[19,0,1,19,19,1],[11,19,1,19,19,1],[11,0,1,11,19,1]]}
query 4 {"chain":[[11,0,1,19,0,1],[19,0,1,19,19,1],[11,19,1,19,19,1],[11,0,1,11,19,1]]}
end
"#;

#[test]
fn queries_from_one_side_of_a_bar_have_one_chain(rt: HostRuntime) {
    let alloc = rt.alloc();
    let queries = "[[2,2,15,2],[3,3,15,2],[15,2,2,2],[15,3,2,2]]";
    let text = plan_document(&rt, alloc, CORNER, TALL_BAR, queries);
    writes(
        &rt,
        alloc,
        text.as_bytes(),
        FROM_BOTH_SIDES.as_bytes(),
        queries,
    );
}

/// Documents of `plan` that are refused, by their robot, obstacles and queries: no simple robot, one before an obstacle
/// that is refused, an id twice, a query of three numbers, one out of range, and none.
const REFUSED: &str = r#"[[0,0],[1,1],[2,2]] [] [[2,2,5,5]] 2 "refused: robot not simple 0 2\n"
[[0,0],[2,2],[2,0],[0,2]] [{"id":1,"shape":[[9,-5],[10,0],[11,5]]}] [] 2 "refused: robot not simple 0 2\n"
[[0,0],[1,0],[0,1]] [{"id":1,"shape":[[9,-5],[11,-5],[9,10]]},{"id":1,"shape":[[2,6],[3,6],[2,7]]}] [] 2 "refused: obstacles[1] duplicate 1\n"
[[0,0],[1,0],[0,1]] [] [[2,2,5]] 2 "refused: form $.queries[0]\n"
[[0,0],[1,0],[0,1]] [] [[2,2,5,5],[2,2,5,2047]] 2 "refused: range $.queries[1][3]\n"
[[0,0],[1,0],[0,1]] [] {} 2 "refused: form $.queries\n""#;

// Compares what is told of a row of NUMBERED.
fn is_numbered<R: Threads + Wait + Sync + Abort>(rt: &R, alloc: Global, words: &str, row: &str) {
    let (queries, expected) = column(rt, row);
    let text = plan_document(rt, alloc, CORNER, BAR, queries);
    is_told(rt, alloc, words, text.as_bytes(), expected, row);
}

// Compares what is told of a row of REFUSED.
fn is_refused<R: Threads + Wait + Sync + Abort>(rt: &R, alloc: Global, words: &str, row: &str) {
    let (robot, rest) = column(rt, row);
    let (obstacles, rest) = column(rt, rest);
    let (queries, expected) = column(rt, rest);
    let text = plan_document(rt, alloc, robot, obstacles, queries);
    is_told(rt, alloc, words, text.as_bytes(), expected, row);
}

#[test]
fn queries_are_numbered(rt: HostRuntime) {
    for row in NUMBERED.lines() {
        is_numbered(&rt, rt.alloc(), "plan|1", row);
        is_numbered(&rt, rt.alloc(), "plan|16", row);
    }
}

#[test]
fn the_first_refusal_is_told(rt: HostRuntime) {
    for row in REFUSED.lines() {
        is_refused(&rt, rt.alloc(), "plan|1", row);
        is_refused(&rt, rt.alloc(), "plan|16", row);
    }
}

#[test]
fn a_sink_that_fails_at_its_second_write_has_taken_the_first_line(rt: HostRuntime) {
    let alloc = rt.alloc();
    let text = plan_document(&rt, alloc, CORNER, BAR, "[[2,2,5,5],[8,5,15,2]]");
    let mut sink = sink_of(&rt, alloc, 10_000, 10_000, 2);
    let told = told_into(&rt, alloc, "plan|3", text.as_str(), &mut sink);
    let expected = r#"4 "query 1 {\"path\":[[2,2,1],[5,5,1]]}\n""#;
    expect(&rt, told, expected, "two queries");
}

#[test]
fn a_source_that_fails_at_its_first_read_is_a_read_fault(rt: HostRuntime) {
    let alloc = rt.alloc();
    let text = plan_document(&rt, alloc, CORNER, BAR, "[[2,2,5,5]]");
    let mut source = source_of(&rt, alloc, text.as_str(), 1000, &[1]);
    let told = answer_from(&rt, alloc, "plan|3", &mut source);
    expect(&rt, told, r#"3 """#, "first read");
}

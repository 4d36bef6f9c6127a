use crate::calls::{before, column, is_told};
use crate::documents::{CORNER, SPIKE, document, one_point};
use std::alloc::Global;
use std::process::Abort;
use std::sync::Wait;
use std::thread::Threads;

/// A robot, obstacles, a certificate, and what is told: obstacles with an id twice, not simple, the second fault of an
/// obstacle that has two, an id out of range or missing, too few and too many spots, a spot out of range, spots of
/// another form; a robot that is not simple, alone and before an obstacle that is refused, with a spot out of range, with
/// too few and too many spots; points of a path with a weight of 0 or none, with a float, out of range; a chain beside a
/// path, none of the two; no end.
const REFUSED: &str =
    r#"[[0,0],[1,0],[0,1]] [{"id":1,"shape":[[9,-5],[11,-5],[9,10]]},{"id":1,"shape":[[2,6],[3,6],[2,7]]}] {"path":[[2,2,1]]} 2 "refused: obstacles[1] duplicate 1\n"
[[0,0],[1,0],[0,1]] [{"id":1,"shape":[[9,-5],[10,0],[11,5]]}] {"path":[[2,2,1]]} 2 "refused: obstacles[0] not simple 0 2\n"
[[0,0],[1,0],[0,1]] [{"id":1,"shape":[[9,-5],[11,-5],[9,10]]},{"id":2,"shape":[[4,4],[6,6],[6,4],[4,6]]}] {"path":[]} 2 "refused: obstacles[1] not simple 0 2\n"
[[0,0],[1,0],[0,1]] [{"id":3,"shape":[[9,-5],[11,-5],[9,10]]},{"id":3,"shape":[[4,4],[6,6],[6,4],[4,6]]}] {"path":[]} 2 "refused: obstacles[1] duplicate 3\n"
[[0,0],[1,0],[0,1]] [{"id":0,"shape":[[9,-5],[11,-5],[9,10]]}] {"path":[[2,2,1]]} 2 "refused: range $.obstacles[0].id\n"
[[0,0],[1,0],[0,1]] [{"id":65536,"shape":[[9,-5],[11,-5],[9,10]]}] {"path":[[2,2,1]]} 2 "refused: range $.obstacles[0].id\n"
[[0,0],[1,0],[0,1]] [{"shape":[[9,-5],[11,-5],[9,10]]}] {"path":[[2,2,1]]} 2 "refused: form $.obstacles[0].id\n"
[[0,0],[1,0],[0,1]] [{"id":1,"shape":[[9,-5],[11,-5]]}] {"path":[[2,2,1]]} 2 "refused: range $.obstacles[0].shape\n"
[[0,0],[1,0],[0,1]] [{"id":1,"shape":[[1,1],[1,1],[1,1],[1,1],[1,1],[1,1],[1,1],[1,1],[1,1],[1,1],[1,1],[1,1],[1,1],[1,1],[1,1],[1,1],[1,1],[1,1],[1,1],[1,1],[1,1],[1,1],[1,1],[1,1],[1,1],[1,1],[1,1],[1,1],[1,1],[1,1],[1,1],[1,1],[1,1]]}] {"path":[]} 2 "refused: range $.obstacles[0].shape\n"
[[0,0],[1,0],[0,1]] [{"id":1,"shape":[[-1024,-5],[11,-5],[9,10]]}] {"path":[[2,2,1]]} 2 "refused: range $.obstacles[0].shape[0][0]\n"
[[0,0],[1,0],[0,1]] [{"id":1,"shape":[[9,-5],[11,-5,1],[9,10]]}] {"path":[[2,2,1]]} 2 "refused: form $.obstacles[0].shape[1]\n"
[[0,0],[1,1],[2,2]] [] {"path":[[2,2,1]]} 2 "refused: robot not simple 0 2\n"
[[0,0],[1,0],[2,0]] [] {"path":[[2,2,1]]} 2 "refused: robot not simple 0 2\n"
[[0,0],[2,2],[2,0],[0,2]] [{"id":1,"shape":[[9,-5],[10,0],[11,5]]}] {"path":[]} 2 "refused: robot not simple 0 2\n"
[[0,0],[1024,0],[0,1]] [] {"path":[[2,2,1]]} 2 "refused: range $.robot[1][0]\n"
[[0,0],[1,0]] [] {"path":[[2,2,1]]} 2 "refused: range $.robot\n"
[[0,0],[1,0],[1,0],[1,0],[1,0],[1,0],[1,0],[1,0],[1,0],[1,0],[1,0],[1,0],[1,0],[1,0],[1,0],[1,0],[1,0]] [] {"path":[]} 2 "refused: range $.robot\n"
[[0,0],[1,0],[0,1]] [] {"path":[[2,2,1],[2,15,0]]} 2 "refused: range $.certificate.path[1]\n"
[[0,0],[1,0],[0,1]] [] {"path":[[2,2]]} 2 "refused: form $.certificate.path[0]\n"
[[0,0],[1,0],[0,1]] [] {"path":[[2,2,1],[2,15,1.0]]} 2 "refused: form $.certificate.path[1][2]\n"
[[0,0],[1,0],[0,1]] [] {"path":[[2,2047,1]]} 2 "refused: range $.certificate.path[0]\n"
[[0,0],[1,0],[0,1]] [] {"chain":[[0,0,1,8,0]]} 2 "refused: form $.certificate.chain[0]\n"
[[0,0],[1,0],[0,1]] [] {"path":[],"chain":[]} 2 "refused: form $.certificate\n"
[[0,0],[1,0],[0,1]] [] {"roads":[]} 2 "refused: form $.certificate\n"
[[0,0],[1,0],[0,1]] [] {"path":[[2,2,1]] 2 "refused: json\n""#;

// Compares what is told of a row of REFUSED.
fn is_refused<R: Threads + Wait + Sync + Abort>(rt: &R, alloc: Global, row: &str) {
    let (robot, rest) = column(rt, row);
    let (obstacles, rest) = column(rt, rest);
    let (certificate, expected) = column(rt, rest);
    let text = document(rt, alloc, robot, obstacles, "[2,2,2,2]", certificate);
    is_told(rt, alloc, "check", text.as_bytes(), expected, row);
}

#[test]
fn a_document_is_refused_by_the_first_place_or_polygon_that_is_wrong(rt: HostRuntime) {
    for row in REFUSED.lines() {
        is_refused(&rt, rt.alloc(), row);
    }
}

/// What is told of bytes that are no document, and of documents whose members come in another order, twice, with others
/// beside them, or are missing; of another format; of frames from right to left and out of range; of a query out of range.
const TEXTS: &str = r#"2 "refused: json\n"=
2 "refused: form $.format\n"={}
2 "refused: form $\n"=[]
2 "refused: form $\n"=null
0 "valid\n"= {"certificate":{"note":1,"path":[[2,2,1]]},"query":[2,2,2,2],"obstacles":[],"robot":[[0,0],[1,0],[0,1]],"frame":[0,0,20,20],"format":1,"name":"first"} 
0 "valid\n"={"format":1,"frame":[0,0,20,20],"robot":[[0,0],[1,0],[0,1]],"obstacles":[],"query":[0,0,0,0],"query":[2,2,2,2],"certificate":{"path":[[2,2,1]]}}
2 "refused: range $.format\n"={"format":2,"frame":[0,0,20,20],"robot":[[0,0],[1,0],[0,1]],"obstacles":[],"query":[2,2,2,2],"certificate":{"path":[[2,2,1]]}}
2 "refused: range $.format\n"={"format":3,"robot":[]}
2 "refused: range $.frame\n"={"format":1,"frame":[20,0,0,20],"robot":[[0,0],[1,0],[0,1]],"obstacles":[],"query":[2,2,2,2],"certificate":{"path":[[2,2,1]]}}
2 "refused: range $.frame[3]\n"={"format":1,"frame":[0,0,20,1024],"robot":[[0,0],[1,0],[0,1]],"obstacles":[],"query":[2,2,2,2],"certificate":{"path":[[2,2,1]]}}
2 "refused: form $.robot\n"={"format":1,"frame":[0,0,20,20],"obstacles":[],"query":[2,2,2,2],"certificate":{"path":[[2,2,1]]}}
2 "refused: form $.query\n"={"format":1,"frame":[0,0,20,20],"robot":[[0,0],[1,0],[0,1]],"obstacles":[],"queries":[[2,2,2,2]]}
2 "refused: range $.query[0]\n"={"format":1,"frame":[0,0,20,20],"robot":[[0,0],[1,0],[0,1]],"obstacles":[],"query":[2047,2,2,2],"certificate":{"path":[[2,2,1]]}}
2 "refused: form $.certificate\n"={"format":1,"frame":[0,0,20,20],"robot":[[0,0],[1,1],[2,2]],"obstacles":[],"query":[2,2,2,2]}"#;

// Compares what is told of a row of TEXTS.
fn is_text<R: Threads + Wait + Sync + Abort>(rt: &R, alloc: Global, row: &str) {
    let (expected, text) = before(rt, row, '=');
    is_told(rt, alloc, "check", text.as_bytes(), expected, row);
}

// Bytes that are not even a JSON text.
fn is_no_json<R: Threads + Wait + Sync + Abort>(rt: &R, alloc: Global, bytes: &[u8], row: &str) {
    is_told(rt, alloc, "check", bytes, r#"2 "refused: json\n""#, row);
}

#[test]
fn members_come_in_any_order_and_bytes_of_no_document_are_refused(rt: HostRuntime) {
    let alloc = rt.alloc();
    for row in TEXTS.lines() {
        is_text(&rt, alloc, row);
    }
    is_no_json(&rt, alloc, &[34, 255, 34], "no UTF-8");
}

#[test]
fn each_beginning_of_a_document_is_no_json(rt: HostRuntime) {
    let alloc = rt.alloc();
    let text = one_point(&rt, alloc);
    for end in 0..text.len() {
        is_no_json(&rt, alloc, &text.as_bytes()[..end], "a beginning");
    }
}

// A query that is repeated, first with so many lists one inside another.
fn nested(rt: &impl Abort, alloc: Global, lists: usize) -> String {
    let begin = "[".repeat(alloc, lists).expect(rt, "memory");
    let end = "]".repeat(alloc, lists).expect(rt, "memory");
    format!(in alloc; "{begin}{end},\"query\":[2,2,2,2]").expect(rt, "memory")
}

// Compares what is told of such a query: its lists count as nested in the document.
fn is_nested<R: Threads + Wait + Sync + Abort>(
    rt: &R,
    alloc: Global,
    lists: usize,
    expected: &str,
) {
    let query = nested(rt, alloc, lists);
    let certificate = "{\"path\":[[2,2,1]]}";
    let text = document(rt, alloc, CORNER, SPIKE, query.as_str(), certificate);
    is_told(
        rt,
        alloc,
        "check",
        text.as_bytes(),
        expected,
        "nested lists",
    );
}

#[test]
fn lists_are_nested_to_127(rt: HostRuntime) {
    is_nested(&rt, rt.alloc(), 126, r#"0 "valid\n""#);
    is_nested(&rt, rt.alloc(), 127, r#"2 "refused: json\n""#);
}

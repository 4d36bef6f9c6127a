use crate::documents::CORNER;
use crate::paths::is_answered;
use crate::scenes::{BAR, GAP, RING, TALL_BAR};
use std::alloc::Global;
use std::process::Abort;
use std::sync::Wait;
use std::thread::Threads;

// Rows of a query, a chain, and what `check` tells of them with the corner robot and these obstacles.
fn answers<R: Threads + Wait + Sync + Abort>(rt: &R, alloc: Global, obstacles: &str, table: &str) {
    for row in table.lines() {
        is_answered(rt, alloc, CORNER, obstacles, "chain", row);
    }
}

/// A chain round the part left of the bar, with its ends in this order and in others, in lowest terms and not; from
/// the right, where it is even; open; round the whole room; none; a flat and a loose segment, and which comes first.
const BY_THE_TALL_BAR: &str =
    r#"[2,2,15,2] [[0,0,1,8,0,1],[8,0,1,8,19,1],[0,19,1,8,19,1],[0,0,1,0,19,1]] 0 "valid\n"
[2,2,15,2] [[8,0,1,0,0,1],[8,19,1,8,0,1],[16,38,2,0,19,1],[0,0,3,0,57,3]] 0 "valid\n"
[15,2,2,2] [[0,0,1,8,0,1],[8,0,1,8,19,1],[0,19,1,8,19,1],[0,0,1,0,19,1]] 6 "invalid: start even\n"
[2,2,3,3] [[0,0,1,8,0,1],[8,0,1,8,19,1],[0,19,1,8,19,1],[0,0,1,0,19,1]] 6 "invalid: goal odd\n"
[2,2,15,2] [[0,0,1,8,0,1]] 6 "invalid: unclosed 0\n"
[2,2,15,2] [[0,0,1,8,0,1],[8,0,1,8,19,1],[0,19,1,8,19,1]] 6 "invalid: unclosed 0\n"
[2,2,15,2] [[0,0,1,19,0,1],[19,0,1,19,19,1],[0,19,1,19,19,1],[0,0,1,0,19,1]] 6 "invalid: goal odd\n"
[2,2,15,2] [] 6 "invalid: start even\n"
[2,2,15,2] [[0,0,1,8,0,1],[8,0,1,16,0,2]] 6 "invalid: flat 1\n"
[2,2,15,2] [[0,0,1,8,0,1],[7,0,1,7,19,1],[8,0,1,8,0,1]] 6 "invalid: loose 1\n"
[2,2,15,2] [[0,0,1,8,0,1],[8,0,1,8,19,1],[0,19,1,8,19,1],[0,0,1,0,19,0]] 2 "refused: range $.certificate.chain[3]\n""#;

/// Above the bar nothing stands: the segment up to the frame is not tight.
const BY_THE_BAR: &str =
    r#"[2,2,15,2] [[0,0,1,8,0,1],[8,0,1,8,19,1],[0,19,1,8,19,1],[0,0,1,0,19,1]] 6 "invalid: loose 1\n"
[2,2,9,2] [[8,0,1,11,0,1],[8,0,1,8,10,1],[8,10,1,11,10,1],[11,0,1,11,10,1]] 6 "invalid: start even\n"
[9,2,2,2] [[8,0,1,11,0,1],[8,0,1,8,10,1],[8,10,1,11,10,1],[11,0,1,11,10,1]] 0 "valid\n""#;

const BY_THE_GAP: &str =
    r#"[2,2,15,2] [[0,0,1,8,0,1],[8,0,1,8,10,1],[8,11,1,8,19,1],[0,19,1,8,19,1],[0,0,1,0,19,1],[8,10,1,9,10,1],[8,11,1,9,10,1]] 0 "valid\n"
[2,2,15,2] [[0,0,1,8,0,1],[8,0,1,8,10,1],[8,11,1,8,19,1],[0,19,1,8,19,1],[0,0,1,0,19,1],[8,10,1,8,11,1]] 6 "invalid: loose 5\n""#;

/// A chain round the inside of the ring.
const BY_THE_RING: &str =
    r#"[9,9,2,2] [[6,6,1,13,6,1],[13,6,1,13,13,1],[6,13,1,13,13,1],[6,6,1,6,13,1]] 0 "valid\n"
[2,2,9,9] [[6,6,1,13,6,1],[13,6,1,13,13,1],[6,13,1,13,13,1],[6,6,1,6,13,1]] 6 "invalid: start even\n""#;

#[test]
fn a_chain_is_accepted_or_has_a_first_fault(rt: HostRuntime) {
    let alloc = rt.alloc();
    answers(&rt, alloc, TALL_BAR, BY_THE_TALL_BAR);
    answers(&rt, alloc, BAR, BY_THE_BAR);
    answers(&rt, alloc, GAP, BY_THE_GAP);
    answers(&rt, alloc, RING, BY_THE_RING);
}

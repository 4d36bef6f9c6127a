use crate::calls::{check, expect_number, lines_by};
use plan_watch::{Gate, Place};
use std::sync::atomic::{AtomicU8, Ordering};

/// A round of one edit, one of two edits and a lane, and one of two lanes, of which the first asks nothing.
const THREE_ROUNDS: &str =
    r#"[{"edits":[{"add":1,"shape":[[9,-5],[11,-5],[11,10],[9,10]]}],"lanes":[]},
{"edits":[{"remove":1},{"remove":1}],"lanes":[[[2,2,5,5]]]},
{"edits":[],"lanes":[[],[[2,2,5,5],[5,5,2,2]]]}]"#;

// The bit of an edit of the three rounds, or that of another place.
fn edit_bit(round: u32, edit: u32) -> u8 {
    match (round, edit) {
        (1, 1) => 1,
        (2, 1) => 2,
        (2, 2) => 4,
        _ => 64,
    }
}

// The same of a question.
fn question_bit(round: u32, lane: u32, query: u32) -> u8 {
    match (round, lane, query) {
        (2, 1, 1) => 8,
        (3, 2, 1) => 16,
        (3, 2, 2) => 32,
        _ => 64,
    }
}

// A gate that notes the places at which it is passed, by their bits.
#[derive(Drop)]
struct Noting {
    passed: AtomicU8,
}

impl Gate for Noting {
    fn pass(&self, place: Place) {
        let bit = match place {
            Place::Edit { round, edit } => edit_bit(round, edit),
            Place::Question { round, lane, query } => question_bit(round, lane, query),
            Place::Claim { .. } => 0,
        };
        self.passed.fetch_or(bit, Ordering::SeqCst);
    }
}

#[test]
fn a_gate_is_passed_at_each_edit_and_question_by_its_numbers(rt: HostRuntime) {
    let alloc = rt.alloc();
    let gate = Noting {
        passed: AtomicU8::new(0),
    };
    let told = lines_by(&rt, alloc, THREE_ROUNDS, &gate, &mut Vec::new(alloc));
    check(&rt, told.as_str(), told.ends_with("status 0\n"));
    let passed = gate.passed.load(Ordering::SeqCst);
    expect_number(&rt, u64::from(passed), 1 + 2 + 4 + 8 + 16 + 32);
}

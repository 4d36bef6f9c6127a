use crate::calls::{check, lines_by};
use plan_watch::{Gate, Place};
use std::sync::atomic::{AtomicBool, Ordering};

// A bar comes and goes, while the last of the most lanes asks twice whether it is in the way.
const LAST_LANE_ASKS: &str =
    r#"[{"edits":[{"add":1,"shape":[[9,-5],[11,-5],[11,25],[9,25]]},{"remove":1}],"lanes":[[],[],[],[],[],[],[],[[2,2,15,2],[2,2,15,2]]]}]"#;

// What comes before the second reply, and what comes last.
const BEFORE: &str =
    "round 1\nedit 1 version 1\nedit 2 version 2\nlane 8 query 1 version 0 {\"path\":[[2,2,1],[15,2,1]]}\nlane 8 query 2 version ";

const END: &str = "\nend version 2\nstatus 0\n";

// A gate that holds the edits until the last lane is at its second question, and that lane there until the second edit is
// at hand.
#[derive(Drop)]
struct Holding {
    asked: AtomicBool,
    edited: AtomicBool,
    failed: AtomicBool,
}

impl Holding {
    fn new() -> Holding {
        Holding {
            asked: AtomicBool::new(false),
            edited: AtomicBool::new(false),
            failed: AtomicBool::new(false),
        }
    }

    // Waits for the other, and notes a failure where it does not come.
    fn hold(&self, other: &AtomicBool) {
        for _ in 0..100_000_000 {
            if other.load(Ordering::SeqCst) {
                return;
            }
        }
        self.failed.store(true, Ordering::SeqCst);
    }
}

impl Gate for Holding {
    fn pass(&self, place: Place) {
        match place {
            Place::Edit { edit: 1, .. } => self.hold(&self.asked),
            Place::Edit { edit: 2, .. } => {
                self.edited.store(true, Ordering::SeqCst);
                self.hold(&self.asked);
            }
            Place::Question {
                lane: 8,
                query: 2,
                ..
            } => {
                self.asked.store(true, Ordering::SeqCst);
                self.hold(&self.edited);
            }
            _ => (),
        }
    }
}

// Whether the last lane has seen an edit between its two questions, and the other lines are as they must be.
fn is_right(told: &str) -> bool {
    told.starts_with(BEFORE) && told.ends_with(END) && !told.contains("lane 8 query 2 version 0 ")
}

// It needs a machine with two processors that gives a process two threads more: a load is repeated 100 million times,
// which takes some tenths of a second, and within that time the other thread must come to its place. On a machine that
// gives no threads, or one processor that stays with one of them for so long, it fails.
#[test]
fn edits_and_the_last_lane_run_at_once(rt: HostRuntime) {
    let alloc = rt.alloc();
    let gate = Holding::new();
    let told = lines_by(&rt, alloc, LAST_LANE_ASKS, &gate, &mut Vec::new(alloc));
    let has_failed = gate.failed.load(Ordering::SeqCst);
    check(&rt, "a wait was in vain", !has_failed);
    check(&rt, told.as_str(), is_right(told.as_str()));
}

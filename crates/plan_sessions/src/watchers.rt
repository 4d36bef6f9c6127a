ghost use Rattle.std.specs.Prelude.{◌≤◌, All};

use crate::calls::{check, expect, expect_number, lines_by};
use plan_watch::{MOST_PAIRS, OpenGate, Stay, Tally, Watcher};
use std::alloc::Global;
use std::process::Abort;
use std::sync::Arc;
use std::sync::atomic::{AtomicU64, Ordering};

// What a watcher was told at its first two calls, each as 1000 times the version and the obstacles.
#[derive(Drop)]
struct Notes {
    first: AtomicU64,
    second: AtomicU64,
}

// A watcher that is done at its second call.
#[derive(Drop)]
struct Twice {
    pairs: Vec<(u32, u32)>,
    was_told: bool,
    notes: Arc<Notes>,
}

impl Watcher for Twice {
    ghost use Rattle.std.specs.Prelude.{◌-◌, false, length, if◌then◌else◌};
    ghost use Rattle.std.specs.Vec.{vec_capacity};
    ghost use Rattle.plan_watch.specs.declared.stay.Stay.TheVariants.{More, Done};

    ghost heard = { λ t. t.pairs.items };

    ghost room = { λ t. vec_capacity t.pairs - length t.pairs.items };

    ghost will = { λ t version obstacles. if t.was_told then Done else More };

    ghost steady = { λ t. false };

    fn told(&mut self, version: u32, obstacles: u32) -> Stay {
        self.pairs.push_reserved((version, obstacles));
        let pair = 1000 * u64::from(version) + u64::from(obstacles);
        if self.was_told {
            self.notes.second.store(pair, Ordering::SeqCst);
            Stay::Done
        } else {
            self.was_told = true;
            self.notes.first.store(pair, Ordering::SeqCst);
            Stay::More
        }
    }

    fn kept(&self) -> &[(u32, u32)] {
        self.pairs.as_slice()
    }
}

// The watcher, boxed, of which nothing was told yet.
fn boxed(rt: &impl Abort, alloc: Global, notes: &Arc<Notes>) -> Box<dyn Watcher>
    ensures { 2048 ≤ room result }
{
    let pairs = Vec::with_capacity(alloc, MOST_PAIRS)
        .ok()
        .expect(rt, "memory");
    let notes = Arc::try_clone(notes).ok().expect(rt, "memory");
    let watcher = Twice {
        pairs,
        was_told: false,
        notes,
    };
    Box::new(alloc, watcher).ok().expect(rt, "memory")
}

// A watcher that keeps all pairs, boxed.
fn tally(rt: &impl Abort, alloc: Global) -> Box<dyn Watcher>
    ensures { 2048 ≤ room result }
{
    let made = Tally::new(alloc).ok().expect(rt, "memory");
    Box::new(alloc, made).ok().expect(rt, "memory")
}

/// One watcher, which keeps all pairs.
pub fn one_tally(rt: &impl Abort, alloc: Global) -> Vec<Box<dyn Watcher>>
    ensures { All (λ w. 2048 ≤ room w) result.items }
{
    let mut watchers = Vec::new(alloc);
    watchers.push(tally(rt, alloc)).ok().expect(rt, "memory");
    watchers
}

/// What the only watcher has kept.
pub fn pairs_of_one<'a>(rt: &impl Abort, watchers: &'a [Box<dyn Watcher>]) -> &'a [(u32, u32)] {
    let [watcher] = watchers else {
        panic!(rt; "not one watcher");
    };
    watcher.kept()
}

/// A bar is put in, taken away, and put in.
const THREE_EDITS: &str =
    r#"[{"edits":[{"add":1,"shape":[[9,-5],[11,-5],[11,10],[9,10]]},{"remove":1},{"add":1,"shape":[[9,-5],[11,-5],[11,10],[9,10]]}],"lanes":[]}]"#;

const THEIR_LINES: &str =
    "round 1\nedit 1 version 1\nedit 2 version 2\nedit 3 version 3\nend version 3\nstatus 0\n";

// Notes of a watcher that was told nothing yet.
fn no_notes(rt: &impl Abort, alloc: Global) -> Arc<Notes> {
    let notes = Notes {
        first: AtomicU64::new(0),
        second: AtomicU64::new(0),
    };
    Arc::new(alloc, notes).ok().expect(rt, "memory")
}

// The watcher that is done at its second call, and behind it one that keeps all pairs.
fn twice_and_tally(rt: &impl Abort, alloc: Global, notes: &Arc<Notes>) -> Vec<Box<dyn Watcher>>
    ensures { All (λ w. 2048 ≤ room w) result.items }
{
    let mut watchers = Vec::new(alloc);
    watchers
        .push(boxed(rt, alloc, notes))
        .ok()
        .expect(rt, "memory");
    watchers.push(tally(rt, alloc)).ok().expect(rt, "memory");
    watchers
}

// Compares the notes with what is expected.
fn expect_notes(rt: &impl Abort, notes: &Notes, first: u64, second: u64) {
    expect_number(rt, notes.first.load(Ordering::SeqCst), first);
    expect_number(rt, notes.second.load(Ordering::SeqCst), second);
}

// Compares what the only watcher has kept with what is expected.
fn expect_pairs(rt: &impl Abort, watchers: &[Box<dyn Watcher>], expected: &[(u32, u32)]) {
    assert!(rt; pairs_of_one(rt, watchers) == expected);
}

#[test]
fn a_watcher_that_is_done_is_let_go_and_the_tally_behind_it_is_told_all(rt: HostRuntime) {
    let alloc = rt.alloc();
    let notes = no_notes(&rt, alloc);
    let mut watchers = twice_and_tally(&rt, alloc, &notes);
    let told = lines_by(&rt, alloc, THREE_EDITS, &OpenGate, &mut watchers);
    expect(&rt, told.as_str(), THEIR_LINES);
    expect_notes(&rt, &notes, 1001, 2000);
    expect_pairs(&rt, watchers.as_slice(), &[(1, 1), (2, 0), (3, 1)]);
}

/// One edit that is accepted and two that are refused; then a lane.
const ONE_ACCEPTED: &str =
    r#"[{"edits":[{"add":1,"shape":[[9,-5],[11,-5],[11,10],[9,10]]},{"add":1,"shape":[[9,-5],[11,-5],[11,10],[9,10]]},{"remove":7}],"lanes":[]},
{"edits":[],"lanes":[[[2,2,5,5]]]}]"#;

#[test]
fn nobody_is_told_of_edits_that_are_refused(rt: HostRuntime) {
    let alloc = rt.alloc();
    let mut watchers = one_tally(&rt, alloc);
    let told = lines_by(&rt, alloc, ONE_ACCEPTED, &OpenGate, &mut watchers);
    check(
        &rt,
        told.as_str(),
        told.ends_with("end version 1\nstatus 0\n"),
    );
    expect_pairs(&rt, watchers.as_slice(), &[(1, 1)]);
}

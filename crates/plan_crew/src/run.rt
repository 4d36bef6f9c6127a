//! The lanes in threads.
ghost use Rattle.std.specs.Prelude.{◌≤◌, All, length};
ghost use Rattle.plan_crew.specs.Works.{Ran, Worked};

use crate::job::Job;
use crate::lane::{MOST_QUESTIONS, answer_lane};
use crate::rounds::MOST_LANES;
use crate::work::Work;
use plan_watch::Gate;
use std::alloc::Global;
use std::thread;
use std::thread::Threads;

// Each lane that has a reader, in a thread of its own, where threads are to be had.
pub(crate) fn run_all<J: Job, G: Gate, R: Threads + Sync>(
    rt: &R,
    alloc: Global,
    job: &J,
    gate: &G,
    round: u32,
    works: &mut [Work<J>],
    lanes: &[Vec<J::Question>],
)
    requires few { (length lanes.now ≤ MOST_LANES) × All (λ v. length v.items ≤ MOST_QUESTIONS) lanes.now }
    requires asks { All (λ v. All (λ q. J.asks job.now q) v.items) lanes.now }
    ensures { Worked J.version_of (J.gives job.now) works.old works.new lanes.now }
{
    let threads = works.len().max(1);
    thread::for_each_mut(
        rt,
        works,
        threads,
        &|k: usize, work: &mut Work<J>|
            requires few { (length lanes.now ≤ MOST_LANES) × All (λ v. length v.items ≤ MOST_QUESTIONS) lanes.now }
            requires asks { All (λ v. All (λ q. J.asks job.now q) v.items) lanes.now }
            ensures { Ran J.version_of (J.gives job.entry.now) work.entry.now work.exit.now lanes.entry.now k }
        { run(rt, alloc, job, gate, round, work, lanes, k) },
    );
}

// The lane with this number, from 0, if there is one.
fn run<J: Job, G: Gate, R: Threads + Sync>(
    rt: &R,
    alloc: Global,
    job: &J,
    gate: &G,
    round: u32,
    work: &mut Work<J>,
    lanes: &[Vec<J::Question>],
    number: usize,
)
    requires few { (length lanes.now ≤ MOST_LANES) × All (λ v. length v.items ≤ MOST_QUESTIONS) lanes.now }
    requires asks { All (λ v. All (λ q. J.asks job.now q) v.items) lanes.now }
    ensures { Ran J.version_of (J.gives job.now) work.old work.new lanes.now number }
{
    if number < lanes.len() {
        let lane = number as u32 + 1;
        let questions = lanes[number].as_slice();
        let said = answer_lane(
            rt,
            alloc,
            job,
            gate,
            round,
            lane,
            &mut work.reader,
            questions,
        );
        work.said = Some(said);
    }
}

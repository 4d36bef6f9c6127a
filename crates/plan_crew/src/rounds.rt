//! A round: edits, and lanes beside them.
ghost use Rattle.std.specs.Prelude.{◌≡◌, ◌+◌, ◌-◌, ◌≤◌, All, map, IfOk, IfSome, length, slice_get};
ghost use Rattle.std.specs.List.{AllZip};
ghost use Rattle.std.specs.Thread.{IsSync};
ghost use mathlib.Core.List.{IsPrefix};
ghost use Rattle.plan_shelf.specs.Tied.{IsTied};
ghost use Rattle.plan_crew.specs.Edited.{end_seen, AreEdits};
ghost use Rattle.plan_crew.specs.Round.{IsRound};
ghost use Rattle.plan_crew.specs.Works.{AllGoOn, Worked};

use crate::collect::collect;
use crate::edits::edit_all;
use crate::ends::{EditEnd, RoundEnd};
use crate::job::Job;
use crate::lane::MOST_QUESTIONS;
use crate::no_memory::NoMemory;
use crate::run::run_all;
use crate::settle::{inform_all, settle_all};
use crate::work::{Work, move_in, move_out};
use plan_shelf::{Editor, Reader};
use plan_watch::Gate;
use std::alloc::Global;
use std::sync::Wait;
use std::thread::{Threads, join_mut};

/// The most lanes of a round.
pub const MOST_LANES: usize = 8;

/// The edits one after another, and beside them the questions of each lane that has a reader at its
/// own place, each lane in a thread of its own. A lane that has none, or whose reader has seen more
/// than the editor's last list, is answered at the round's last version. Rounds count from 1. It may
/// wait.
///
/// Where there is no memory, the lists of the editor and of the readers begin with those before, and
/// the readers keep their places.
pub fn round<J: Job, G: Gate, R: Threads + Wait + Sync>(
    rt: &R,
    alloc: Global,
    job: &J,
    gate: &G,
    number: u32,
    editor: &mut Editor<J::Entry>,
    readers: &mut Vec<Reader<J::Entry>>,
    edits: &[J::Change],
    lanes: &[Vec<J::Question>],
) -> Result<RoundEnd<J>, NoMemory>
    requires tied { IsTied editor.old }
    requires readers { All (λ r. r.shelf ≡ editor.old.shelf) readers.old.items }
    requires few { (length lanes.now ≤ MOST_LANES) × All (λ v. length v.items ≤ MOST_QUESTIONS) lanes.now }
    requires takes { All (λ c. J.takes job.now c) edits.now }
    requires asks { All (λ v. All (λ q. J.asks job.now q) v.items) lanes.now }
    requires room { length editor.old.list + length edits.now ≤ 2049 }
    requires versions { IfSome (slice_get editor.old.list (length editor.old.list - 1)) (λ e. J.version_of e + length edits.now ≤ 2048) }
    ensures tied { IsTied editor.new }
    ensures shelf { editor.new.shelf ≡ editor.old.shelf }
    ensures list { IsPrefix editor.old.list editor.new.list }
    // as many readers as before, each of the shelf, and each list begins with the list before
    ensures readers { AllZip (λ r s. (s.shelf ≡ r.shelf) × IsPrefix r.list s.list) readers.old.items readers.new.items }
    ensures round { IfOk result (λ e. IsRound J.version_of (J.makes job.now) (J.gives job.now) editor.old.list editor.new.list edits.now (map (λ e. end_seen e) e.edits.items) (map (λ v. v.items) lanes.now) (map (λ v. map (λ s. (s.version, s.answer)) v.items) e.lanes.items)) }
{
    let mut works = Vec::with_capacity(alloc, readers.len())?;
    move_in(readers, &mut works);
    let end = in_works(
        rt,
        alloc,
        job,
        gate,
        number,
        editor,
        works.as_mut_slice(),
        edits,
        lanes,
    );
    move_out(&mut works, readers);
    end
}

// The round, with the readers moved in.
fn in_works<J: Job, G: Gate, R: Threads + Wait + Sync>(
    rt: &R,
    alloc: Global,
    job: &J,
    gate: &G,
    number: u32,
    editor: &mut Editor<J::Entry>,
    works: &mut [Work<J>],
    edits: &[J::Change],
    lanes: &[Vec<J::Question>],
) -> Result<RoundEnd<J>, NoMemory>
    requires tied { IsTied editor.old }
    requires readers { All (λ w. w.reader.shelf ≡ editor.old.shelf) works.old }
    requires few { (length lanes.now ≤ MOST_LANES) × All (λ v. length v.items ≤ MOST_QUESTIONS) lanes.now }
    requires takes { All (λ c. J.takes job.now c) edits.now }
    requires asks { All (λ v. All (λ q. J.asks job.now q) v.items) lanes.now }
    requires room { length editor.old.list + length edits.now ≤ 2049 }
    requires versions { IfSome (slice_get editor.old.list (length editor.old.list - 1)) (λ e. J.version_of e + length edits.now ≤ 2048) }
    ensures tied { IsTied editor.new }
    ensures shelf { editor.new.shelf ≡ editor.old.shelf }
    ensures list { IsPrefix editor.old.list editor.new.list }
    ensures readers { AllGoOn works.old works.new }
    ensures round { IfOk result (λ e. IsRound J.version_of (J.makes job.now) (J.gives job.now) editor.old.list editor.new.list edits.now (map (λ e. end_seen e) e.edits.items) (map (λ v. v.items) lanes.now) (map (λ v. map (λ s. (s.version, s.answer)) v.items) e.lanes.items)) }
{
    inform_all(editor, works)?;
    let edits = beside(rt, alloc, job, gate, number, editor, works, edits, lanes)?;
    settle_all(editor, works)?;
    let lanes = collect(rt, alloc, job, editor, works, lanes)?;
    Ok(RoundEnd { edits, lanes })
}

// The editor beside the lanes. The first closure goes to a thread of its own.
fn beside<J: Job, G: Gate, R: Threads + Wait + Sync>(
    rt: &R,
    alloc: Global,
    job: &J,
    gate: &G,
    number: u32,
    editor: &mut Editor<J::Entry>,
    works: &mut [Work<J>],
    edits: &[J::Change],
    lanes: &[Vec<J::Question>],
) -> Result<Vec<EditEnd<J>>, NoMemory>
    requires tied { IsTied editor.old }
    requires few { (length lanes.now ≤ MOST_LANES) × All (λ v. length v.items ≤ MOST_QUESTIONS) lanes.now }
    requires takes { All (λ c. J.takes job.now c) edits.now }
    requires asks { All (λ v. All (λ q. J.asks job.now q) v.items) lanes.now }
    requires room { length editor.old.list + length edits.now ≤ 2049 }
    requires versions { IfSome (slice_get editor.old.list (length editor.old.list - 1)) (λ e. J.version_of e + length edits.now ≤ 2048) }
    ensures tied { IsTied editor.new }
    ensures shelf { editor.new.shelf ≡ editor.old.shelf }
    ensures list { IsPrefix editor.old.list editor.new.list }
    ensures ends { IfOk result (λ v. AreEdits J.version_of (J.makes job.now) editor.old.list editor.new.list edits.now (map (λ e. end_seen e) v.items)) }
    ensures lanes { Worked J.version_of (J.gives job.now) works.old works.new lanes.now }
{
    let mut ends = Err(NoMemory);
    let mut answer = ||
        requires sync { IsSync R.row }
        requires few { (length lanes.now ≤ MOST_LANES) × All (λ v. length v.items ≤ MOST_QUESTIONS) lanes.now }
        requires asks { All (λ v. All (λ q. J.asks job.now q) v.items) lanes.now }
        ensures { Worked J.version_of (J.gives job.entry.now) works.entry.now works.exit.now lanes.entry.now }
    { run_all(rt, alloc, job, gate, number, works, lanes) };
    let mut edit = ||
        requires sync { IsSync R.row }
        requires tied { IsTied editor.now }
        requires takes { All (λ c. J.takes job.now c) edits.now }
        requires room { length editor.now.list + length edits.now ≤ 2049 }
        requires versions { IfSome (slice_get editor.now.list (length editor.now.list - 1)) (λ e. J.version_of e + length edits.now ≤ 2048) }
        ensures tied { IsTied editor.exit.now }
        ensures shelf { editor.exit.now.shelf ≡ editor.entry.now.shelf }
        ensures list { IsPrefix editor.entry.now.list editor.exit.now.list }
        ensures ends { IfOk ends.exit (λ v. AreEdits J.version_of (J.makes job.entry.now) editor.entry.now.list editor.exit.now.list edits.entry.now (map (λ e. end_seen e) v.items)) }
    {
        ends = edit_all(rt, alloc, job, gate, number, editor, edits);
    };
    join_mut(rt, &mut edit, &mut answer);
    ends
}

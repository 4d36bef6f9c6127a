//! What the lanes of a round said, in order.
ghost use Rattle.std.specs.Prelude.{◌≡◌, ℕ, ◌-◌, ◌<◌, ◌≤◌, All, map, IfOk, OnOk, None, length, slice_index_or};
ghost use Rattle.std.specs.List.{AllZip};
ghost use Rattle.plan_shelf.specs.Told.{told_list};
ghost use Rattle.plan_crew.specs.Lane.{Answers};
ghost use Rattle.plan_crew.specs.Works.{HasSaid, AllSaid};

use crate::ends::Said;
use crate::job::Job;
use crate::no_memory::NoMemory;
use crate::work::Work;
use plan_shelf::{Editor, Told};
use std::alloc::Global;
use std::thread::Threads;

// What each lane said; one that has said nothing is answered for the editor's last entry.
pub(crate) fn collect<J: Job, R: Threads + Sync>(
    rt: &R,
    alloc: Global,
    job: &J,
    editor: &mut Editor<J::Entry>,
    works: &mut [Work<J>],
    lanes: &[Vec<J::Question>],
) -> Result<Vec<Vec<Said<J>>>, NoMemory>
    requires asks { All (λ v. All (λ q. J.asks job.now q) v.items) lanes.now }
    ensures same { editor.new ≡ editor.old }
    ensures readers { map (λ w. w.reader) works.new ≡ map (λ w. w.reader) works.old }
    ensures published { OnOk result (0 < length editor.old.list) }
    ensures said { IfOk result (λ v. (from : ℕ) → from < length editor.old.list → AllSaid J.version_of (J.gives job.now) editor.old.list from works.old lanes.now → AllZip (Answers J.version_of (J.gives job.now) editor.old.list from) (map (λ v. v.items) lanes.now) (map (λ v. map (λ s. (s.version, s.answer)) v.items) v.items)) }
{
    let last = editor.told()?;
    let mut all = Vec::new(alloc);
    let mut next = 0;
    while next < lanes.len() {
        let said = take_said(works, next);
        let lane = or_last(rt, alloc, job, &last, said, lanes[next].as_slice())?;
        all.push(lane).map_err(|_| NoMemory)?;
        next += 1;
    }
    Ok(all)
}

// What the lane said, once.
fn take_said<J: Job>(works: &mut [Work<J>], k: usize) -> Option<Result<Vec<Said<J>>, NoMemory>>
    ensures said { (d : _) → k < length works.old → result ≡ (slice_index_or works.old k d).said }
    ensures nobody { length works.old ≤ k → result ≡ None }
    ensures others { (j : ℕ) (d : _) → k < j → slice_index_or works.new j d ≡ slice_index_or works.old j d }
    ensures readers { map (λ w. w.reader) works.new ≡ map (λ w. w.reader) works.old }
{
    if k < works.len() {
        works[k].said.take()
    } else {
        None
    }
}

// What a lane said, or the answers for the last entry.
fn or_last<J: Job, R: Threads + Sync>(
    rt: &R,
    alloc: Global,
    job: &J,
    last: &Told<J::Entry>,
    said: Option<Result<Vec<Said<J>>, NoMemory>>,
    questions: &[J::Question],
) -> Result<Vec<Said<J>>, NoMemory>
    requires asks { All (λ q. J.asks job.now q) questions.now }
    ensures said { IfOk result (λ v. (from : ℕ) → from < length (told_list last.now) → HasSaid J.version_of (J.gives job.now) (told_list last.now) from questions.now said → Answers J.version_of (J.gives job.now) (told_list last.now) from questions.now (map (λ s. (s.version, s.answer)) v.items)) }
{
    match said {
        Some(said) => said,
        None => answer_last(rt, alloc, job, last, questions),
    }
}

// Each question answered for the last entry.
fn answer_last<J: Job, R: Threads + Sync>(
    rt: &R,
    alloc: Global,
    job: &J,
    last: &Told<J::Entry>,
    questions: &[J::Question],
) -> Result<Vec<Said<J>>, NoMemory>
    requires asks { All (λ q. J.asks job.now q) questions.now }
    ensures said { IfOk result (λ v. Answers J.version_of (J.gives job.now) (told_list last.now) (length (told_list last.now) - 1) questions.now (map (λ s. (s.version, s.answer)) v.items)) }
{
    let mut said = Vec::new(alloc);
    let mut next = 0;
    while next < questions.len() {
        let version = job.version(&*last.entry);
        let answer = job.answer(rt, alloc, &*last.entry, &questions[next])?;
        said.push(Said { version, answer }).map_err(|_| NoMemory)?;
        next += 1;
    }
    Ok(said)
}

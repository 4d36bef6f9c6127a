//! The edits of a round, one after another.
ghost use Rattle.std.specs.Prelude.{◌≡◌, ◌+◌, ◌-◌, ◌<◌, ◌≤◌, All, map, IfOk, IfSome, length, slice_get};
ghost use Rattle.std.specs.Arc.{arc_value};
ghost use mathlib.Core.List.{IsPrefix};
ghost use Rattle.plan_shelf.specs.Tied.{IsTied};
ghost use Rattle.plan_crew.specs.Edited.{end_seen, IsEdit, AreEdits};

use crate::ends::EditEnd;
use crate::job::{Job, Outcome};
use crate::no_memory::NoMemory;
use plan_shelf::Editor;
use plan_watch::{Gate, Place};
use std::alloc::Global;
use std::sync::{Arc, Wait};
use std::thread::Threads;

// Applies each change to the last entry that was published, and publishes what is taken.
pub(crate) fn edit_all<J: Job, G: Gate, R: Threads + Wait + Sync>(
    rt: &R,
    alloc: Global,
    job: &J,
    gate: &G,
    round: u32,
    editor: &mut Editor<J::Entry>,
    edits: &[J::Change],
) -> Result<Vec<EditEnd<J>>, NoMemory>
    requires tied { IsTied editor.old }
    requires takes { All (λ c. J.takes job.now c) edits.now }
    requires room { length editor.old.list + length edits.now ≤ 2049 }
    requires versions { IfSome (slice_get editor.old.list (length editor.old.list - 1)) (λ e. J.version_of e + length edits.now ≤ 2048) }
    ensures tied { IsTied editor.new }
    ensures shelf { editor.new.shelf ≡ editor.old.shelf }
    ensures list { IsPrefix editor.old.list editor.new.list }
    ensures ends { IfOk result (λ v. AreEdits J.version_of (J.makes job.now) editor.old.list editor.new.list edits.now (map (λ e. end_seen e) v.items)) }
{
    let mut ends = Vec::new(alloc);
    let mut next = 0;
    while next < edits.len() {
        let edit = next as u32 + 1;
        gate.pass(Place::Edit { round, edit });
        let end = edit_one(rt, alloc, job, editor, &edits[next])?;
        ends.push(end).map_err(|_| NoMemory)?;
        next += 1;
    }
    Ok(ends)
}

// Applies one change to the last entry.
fn edit_one<J: Job, R: Threads + Wait + Sync>(
    rt: &R,
    alloc: Global,
    job: &J,
    editor: &mut Editor<J::Entry>,
    change: &J::Change,
) -> Result<EditEnd<J>, NoMemory>
    requires tied { IsTied editor.old }
    requires takes { J.takes job.now change.now }
    requires room { length editor.old.list ≤ 2048 }
    requires version { IfSome (slice_get editor.old.list (length editor.old.list - 1)) (λ e. J.version_of e < 2048) }
    ensures tied { IsTied editor.new }
    ensures shelf { editor.new.shelf ≡ editor.old.shelf }
    ensures list { IsPrefix editor.old.list editor.new.list }
    ensures end { IfOk result (λ e. IsEdit J.version_of (J.makes job.now) editor.old.list editor.new.list change.now (end_seen e)) }
{
    let last = editor.told()?;
    match job.apply(rt, alloc, &*last.entry, change)? {
        Outcome::Taken(next) => {
            let version = job.version(&next);
            let entry = Arc::new(alloc, next).map_err(|_| NoMemory)?;
            editor.publish(rt, entry)?;
            Ok(EditEnd::Accepted { version })
        }
        Outcome::Refused(why) => Ok(EditEnd::Refused(why)),
    }
}

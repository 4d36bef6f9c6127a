//! Readers learn where the editor is before their lanes run, and settle with it afterwards.
ghost use Rattle.std.specs.Prelude.{◌≡◌, ◌≤◌, All, IfOk, length};
ghost use Rattle.plan_crew.specs.Works.{GoesOn, AllGoOn, Settles, AllSettle};

use crate::job::Job;
use crate::no_memory::NoMemory;
use crate::work::Work;
use plan_shelf::Editor;

// Each reader learns the editor's list.
pub(crate) fn inform_all<J: Job>(
    editor: &mut Editor<J::Entry>,
    works: &mut [Work<J>],
) -> Result<(), NoMemory>
    requires shelf { All (λ w. w.reader.shelf ≡ editor.old.shelf) works.old }
    ensures same { editor.new ≡ editor.old }
    ensures readers { AllGoOn works.old works.new }
    ensures told { IfOk result (λ _. All (λ w. length editor.old.list ≤ length w.reader.list) works.new) }
{
    for k in 0..works.len() {
        inform(editor, &mut works[k])?;
    }
    Ok(())
}

fn inform<J: Job>(editor: &mut Editor<J::Entry>, work: &mut Work<J>) -> Result<(), NoMemory>
    requires shelf { work.old.reader.shelf ≡ editor.old.shelf }
    ensures same { editor.new ≡ editor.old }
    ensures reader { GoesOn work.old.reader work.new.reader }
    ensures told { IfOk result (λ _. length editor.old.list ≤ length work.new.reader.list) }
{
    let told = editor.told()?;
    work.reader.learn(told);
    Ok(())
}

// Each reader settles with the editor's list. What the lane of one that has seen more has said is
// let go.
pub(crate) fn settle_all<J: Job>(
    editor: &mut Editor<J::Entry>,
    works: &mut [Work<J>],
) -> Result<(), NoMemory>
    requires shelf { All (λ w. w.reader.shelf ≡ editor.old.shelf) works.old }
    ensures same { editor.new ≡ editor.old }
    ensures readers { AllGoOn works.old works.new }
    ensures settled { IfOk result (λ _. AllSettle editor.old.list works.old works.new) }
{
    for k in 0..works.len() {
        settle(editor, &mut works[k])?;
    }
    Ok(())
}

fn settle<J: Job>(editor: &mut Editor<J::Entry>, work: &mut Work<J>) -> Result<(), NoMemory>
    requires shelf { work.old.reader.shelf ≡ editor.old.shelf }
    ensures same { editor.new ≡ editor.old }
    ensures reader { GoesOn work.old.reader work.new.reader }
    ensures settled { IfOk result (λ _. Settles editor.old.list work.old work.new) }
{
    let told = editor.told()?;
    if !work.reader.settle(told) {
        work.said = None;
    }
    Ok(())
}

//! The two copies that readers take entries from, as their writer holds them.
ghost use Rattle.std.specs.Prelude.{◌≡◌, ◌≤◌, IfOk, MatchResult};
ghost use Rattle.left_right.specs.Sides.{view};
ghost use Rattle.plan_shelf.specs.Tied.{Shows};

use crate::history::History;
use crate::no_memory::NoMemory;
use crate::reader::Reader;
use crate::rule::{Notes, OneShelf, Sees, Shown};
use crate::told::Told;
use left_right::writer::Writer;
use logbook::Seen;
use std::alloc::{AllocError, Global};
use std::sync::Wait;

pub(crate) type Copies<T> = Writer<Shown<T>, Told<T>, Option<Seen<T, u64, History>>, OneShelf>;

// Two copies that show this entry, and places for so many readers. The entry is shown once more,
// which lets the writer know of which shelf it is, and makes the room that later changes need.
pub(crate) fn copies<T: Drop, R: Wait>(
    rt: &R,
    alloc: Global,
    last: &Told<T>,
    readers: u8,
) -> Result<Copies<T>, NoMemory>
    requires { 1 ≤ readers }
    ensures { IfOk result (λ w. Shows last.now.seen.book last.now.seen.log w) }
{
    let first = Shown {
        told: last.again()?,
    };
    let second = Shown {
        told: last.again()?,
    };
    let next = last.again()?;
    let made: Result<Copies<T>, AllocError> = Writer::new(
        alloc,
        first,
        second,
        usize::from(readers),
    );
    let (writer, done) = show(rt, made?, next);
    match done {
        Ok(()) => Ok(writer),
        Err(refused) => {
            drop(writer.take(rt));
            Err(refused)
        }
    }
}

// Shows this entry, once the readers have left the spare copy.
pub(crate) fn show<T: Drop, R: Wait>(
    rt: &R,
    mut writer: Copies<T>,
    next: Told<T>,
) -> (Copies<T>, Result<(), NoMemory>)
    requires { writer.desk.shown.value.told.seen.book ≡ next.seen.book }
    ensures { MatchResult result.1
        (λ _. Shows next.seen.book next.seen.log result.0)
        (λ _. (result.0.desk.shown.value ≡ writer.desk.shown.value) × (view result.0.desk.place ≡ view writer.desk.place)) }
{
    let Ok(()) = writer.append(next) else {
        return (writer, Err(NoMemory));
    };
    match writer.publish_as::<Sees, R>(rt) {
        (writer, Ok(())) => (writer, Ok(())),
        (writer, Err(_)) => (writer, Err(NoMemory)),
    }
}

// A reader that knows what the writer knows, where the copies have a place left.
pub(crate) fn hand_out<T: Drop>(
    writer: &mut Copies<T>,
    last: &Told<T>,
) -> Result<Reader<T>, AllocError>
    requires { Shows last.now.seen.book last.now.seen.log writer.old }
    ensures writer { Shows last.now.seen.book last.now.seen.log writer.new }
    ensures reader { IfOk result (λ r. (r.shelf ≡ last.now.seen.book) × (r.list ≡ last.now.seen.log)) }
{
    let kept = last.again()?;
    let mut side = writer.factory().reader()?;
    side.learn::<Notes>(writer.tell::<Notes>());
    Ok(Reader::new(side, kept))
}

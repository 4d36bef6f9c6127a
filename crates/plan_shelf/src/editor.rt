//! The editor of the shelf.
ghost use Rattle.std.specs.Prelude.{◌≡◌, ◌+◌, ◌<◌, ◌≤◌, [], ◌∷◌, ◌++◌, length, IfOk, MatchResult};
ghost use Rattle.std.specs.Arc.{arc_value};
ghost use Rattle.plan_shelf.specs.History.{head_of};
ghost use Rattle.plan_shelf.specs.Tied.{IsTied};
ghost use Rattle.plan_shelf.specs.Told.{told_list, told_shelf};

use crate::copies::{Copies, show};
use crate::history::{History, add};
use crate::no_memory::NoMemory;
use crate::rule::{OneShelf, Shown};
use crate::told::Told;
use left_right::writer::Writer;
use logbook::{Seen, Word};
use std::marker::Model;
use std::mem;
use std::sync::{Arc, Wait};

/// The most entries that an editor publishes after the first.
pub const MOST_PUBLISHED: u32 = 2048;

/// An editor, over what writes the two copies that readers take entries from. Contracts see its
/// shelf, and the list of the entries that it has published, from the first on.
pub struct Publisher<W, T: Drop> {
    pub(crate) writer: Option<W>,
    pub(crate) head: Word<T, u64, History>,
    pub(crate) last: Told<T>,
}

impl<W, T: Drop> Model for Publisher<W, T> {
    ghost use Rattle.std.specs.Prelude.{◌≡◌};
    ghost use Rattle.plan_shelf.specs.History.{head_of};
    ghost use Rattle.plan_shelf.specs.Known.{Edited};

    ghost Value = { Edited W T };

    ghost view = { λ e. record {
      shelf = e.last.seen.book;
      list = e.last.seen.log;
      writer = e.writer;
    } };

    ghost invariant = { λ e. e.head ≡ head_of e.last.seen.book };
}

/// The editor of a shelf. It is not `Drop`: end it by `finish`.
pub type Editor<T> = Publisher<Copies<T>, T>;

impl<T: Drop> Publisher<Writer<Shown<T>, Told<T>, Option<Seen<T, u64, History>>, OneShelf>, T> {
    /// Publishes the entry: it is the last of the list. It may wait for a reader that is looking.
    ///
    /// Where it is refused the list is as before. A refusal of a further owner of the entry leaves
    /// all as it was. A later one, of room or of one more owner, leaves the entry in the history,
    /// where no reader finds it, and from then on every call is refused. `start` makes that room.
    pub fn publish<R: Wait>(&mut self, rt: &R, entry: Arc<T>) -> Result<(), NoMemory>
        requires room { length self.old.list ≤ MOST_PUBLISHED }
        requires tied { IsTied self.old }
        ensures tied { IsTied self.new }
        ensures shelf { self.new.shelf ≡ self.old.shelf }
        ensures list { MatchResult result
            (λ _. self.new.list ≡ self.old.list ++ arc_value entry ∷ [])
            (λ _. self.new.list ≡ self.old.list) }
    {
        let (next, shown) = follow(&self.head, &self.last, entry)?;
        let Some(writer) = self.writer.take() else {
            unreachable!()
        };
        let (writer, done) = show(rt, writer, shown);
        if let Some(other) = mem::replace(&mut self.writer, Some(writer)) {
            drop(other.take(rt));
        }
        done?;
        self.last = next;
        Ok(())
    }

    /// Ends the editor. It may wait for a reader that is looking. Readers keep their lists.
    pub fn finish<R: Wait>(self, rt: &R) {
        let Publisher {
            writer,
            head: _head,
            last: _last,
        } = self;
        if let Some(writer) = writer {
            drop(writer.take(rt));
        }
    }
}

impl<W, T: Drop> Publisher<W, T> {
    /// A token with the editor's list, for one call of `learn` or `settle`. It is refused where a
    /// further owner of the last entry is.
    pub fn told(&mut self) -> Result<Told<T>, NoMemory>
        ensures same { self.new ≡ self.old }
        ensures told { IfOk result (λ t. (told_shelf t ≡ self.old.shelf) × (told_list t ≡ self.old.list)) }
    {
        Ok(self.last.again()?)
    }
}

// The entry after the last one, in the history, with two owners.
fn follow<T: Drop>(
    head: &Word<T, u64, History>,
    last: &Told<T>,
    entry: Arc<T>,
) -> Result<(Told<T>, Told<T>), NoMemory>
    requires head { head.now ≡ head_of last.now.seen.book }
    requires room { last.now.place < MOST_PUBLISHED }
    ensures same { IfOk result (λ t. t.1.seen ≡ t.0.seen) }
    ensures shelf { IfOk result (λ t. t.0.seen.book ≡ last.now.seen.book) }
    ensures list { IfOk result (λ t. t.0.seen.log ≡ last.now.seen.log ++ arc_value entry ∷ []) }
{
    let further = Arc::try_clone(&entry)?;
    let place = last.place + 1;
    let seen = add(head, &last.seen, place, &entry).ok_or(NoMemory)?;
    let shown = Told {
        place,
        entry: further,
        seen: seen.again(),
    };
    let next = Told { place, entry, seen };
    Ok((next, shown))
}

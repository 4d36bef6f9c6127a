//! One reader of the shelf.
ghost use Rattle.std.specs.Prelude.{◌≡◌, ◌+◌, ◌≤◌, ◌↔◌, max, length, IsTrue, MatchBool};
ghost use mathlib.Core.List.{IsPrefix};
ghost use Rattle.left_right.specs.Sides.{view};
ghost use Rattle.plan_shelf.specs.Told.{told_list, told_shelf};
ghost use Rattle.plan_shelf.specs.Views.{Knows};

use crate::history::History;
use crate::rule::{OneShelf, Sees, Shown};
use crate::told::Told;
use left_right::reader::Reader as Side;
use logbook::Seen;
use std::marker::Model;

/// A reader. It keeps an entry, and waits for nobody. Contracts see its shelf, and the list of the
/// entries that it has seen or was told of, from the first to the one that it keeps.
#[derive(Drop)]
pub struct Reader<T: Drop> {
    side: Option<Side<Shown<T>, Option<Seen<T, u64, History>>, OneShelf>>,
    kept: Told<T>,
}

impl<T: Drop> Model for Reader<T> {
    ghost use Rattle.std.specs.Prelude.{IfSome};
    ghost use Rattle.plan_shelf.specs.Known.{Known};
    ghost use Rattle.plan_shelf.specs.Views.{Knows};

    ghost Value = { Known T };

    ghost view = { λ r. record { shelf = r.kept.seen.book; list = r.kept.seen.log } };

    ghost invariant = { λ r. IfSome r.side (λ s. Knows r.kept.seen.book s.place.me.0.client) };
}

impl<T: Drop> Reader<T> {
    ghost use Rattle.plan_shelf.specs.contracts.reader.Reader.{the_row};
    ghost use Rattle.std.specs.Prelude.{⊤};
    ghost use Rattle.std.specs.Borrow.{sem, follows_so};
    ghost use mathlib.Core.Option.{none};
    ghost use Rattle.plan_shelf.specs.Known.{Looked};

    pub(crate) fn new(
        side: Side<Shown<T>, Option<Seen<T, u64, History>>, OneShelf>,
        kept: Told<T>,
    ) -> Reader<T>
        requires { Knows kept.seen.book (view side.place) }
        ensures { (result.shelf ≡ kept.seen.book) × (result.list ≡ kept.seen.log) }
    {
        Reader {
            side: Some(side),
            kept,
        }
    }

    /// How many entries that were published after the first it has seen or was told of.
    pub fn place(&self) -> u32
        ensures { length self.now.list ≡ result + 1 }
    {
        self.kept.place
    }

    /// The last entry of its list, once it has looked at the shelf. The list stays where the editor
    /// is gone, and where a further owner of a later entry is refused.
    pub fn look(&mut self) -> &T
        // the reader after the call, once the answer is no longer used
        ensures* after { sem 𝓛 (follows_so (the_row T.row) (the_row T.row) self.entry.ghost_name none
            (λ _ _. ⊤) (λ after. Looked self.old after result.now)) }
    {
        self.refresh();
        &*self.kept.entry
    }

    // Enters the shelf, and keeps what is shown where that is later.
    fn refresh(&mut self)
        ensures shelf { self.new.shelf ≡ self.old.shelf }
        ensures list { IsPrefix self.old.list self.new.list }
    {
        if let Some(side) = self.side.take() {
            self.side = Some(enter(side, &mut self.kept));
        }
    }

    /// Takes in what the editor told: the list becomes the longer of its own and the told one. The
    /// answer is always true.
    pub fn learn(&mut self, told: Told<T>) -> bool
        requires shelf { told_shelf told ≡ self.old.shelf }
        ensures shelf { self.new.shelf ≡ self.old.shelf }
        ensures own { IsPrefix self.old.list self.new.list }
        ensures told { IsPrefix (told_list told) self.new.list }
        ensures longer { length self.new.list ≡ max (length self.old.list) (length (told_list told)) }
        ensures answer { IsTrue result }
    {
        if self.kept.begins(&told) {
            self.kept = told;
        }
        true
    }

    /// Takes in what the editor told, unless its own place is above the told one.
    pub fn settle(&mut self, told: Told<T>) -> bool
        requires shelf { told_shelf told ≡ self.old.shelf }
        ensures shelf { self.new.shelf ≡ self.old.shelf }
        ensures answer { IsTrue result ↔ (length self.old.list ≤ length (told_list told)) }
        ensures list { MatchBool result
            (IsPrefix self.old.list (told_list told) × (self.new.list ≡ told_list told))
            (self.new ≡ self.old) }
    {
        let settles = self.kept.begins(&told);
        if settles {
            self.kept = told;
        }
        settles
    }
}

// Takes what is shown where it is later than what is kept, and a further owner is to be had.
fn keep_later<T: Drop>(kept: &mut Told<T>, shown: &Told<T>)
    requires { shown.now.seen.book ≡ kept.old.seen.book }
    ensures shelf { kept.new.seen.book ≡ kept.old.seen.book }
    ensures list { IsPrefix kept.old.seen.log kept.new.seen.log }
{
    if kept.begins(shown) {
        if let Ok(later) = shown.again() {
            *kept = later;
        }
    }
}

// Enters one of the two copies, and leaves it.
fn enter<T: Drop>(
    side: Side<Shown<T>, Option<Seen<T, u64, History>>, OneShelf>,
    kept: &mut Told<T>,
) -> Side<Shown<T>, Option<Seen<T, u64, History>>, OneShelf>
    requires { Knows kept.old.seen.book (view side.place) }
    ensures shelf { kept.new.seen.book ≡ kept.old.seen.book }
    ensures view { Knows kept.new.seen.book (view result.place) }
    ensures list { IsPrefix kept.old.seen.log kept.new.seen.log }
{
    match side.enter_as::<Sees>() {
        Ok(reading) => {
            keep_later(kept, &reading.get().told);
            reading.leave()
        }
        Err(side) => side,
    }
}

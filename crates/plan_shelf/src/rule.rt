//! The rule of the two copies: whoever has seen a shelf has seen the one that is shown.
use crate::history::History;
use crate::told::Told;
use atomic_table::{Join, Split};
use crossbeam_utils::rule::{Outcome, Protocol};
use left_right::Absorb;
use logbook::Seen;
use std::alloc::AllocError;

/// What readers take.
#[derive(Drop)]
pub struct Shown<T: Drop> {
    pub told: Told<T>,
}

impl<T: Drop> Absorb<Told<T>> for Shown<T> {
    // What both copies have: the history up to the entry.
    type State = Seen<T, u64, History>;

    ghost state = { λ s. s.told.seen };

    ghost applied = { λ before next. next.seen };

    fn absorb_first(&mut self, operation: &Told<T>, _other: &Shown<T>) -> Result<(), AllocError> {
        self.told = operation.again()?;
        Ok(())
    }

    fn absorb_second(&mut self, operation: Told<T>, _other: &Shown<T>) -> Result<(), Told<T>> {
        self.told = operation;
        Ok(())
    }
}

/// The rule. A thread's view is what it has seen of the history, if it has.
pub struct OneShelf;

impl<T: Drop> Protocol<Shown<T>, Option<Seen<T, u64, History>>> for OneShelf {
    ghost use Rattle.std.specs.Prelude.{None};
    ghost use Rattle.plan_shelf.specs.Views.{AllOf};

    ghost holds = { λ x views. AllOf x.told.seen.book views };

    ghost first = { None };
}

// A step that sees what is shown.
pub(crate) struct Sees;

impl<T: Drop> Outcome<Shown<T>, Option<Seen<T, u64, History>>> for Sees {
    ghost use Rattle.std.specs.Prelude.{◌≡◌, Some};
    ghost use Rattle.plan_shelf.specs.Views.{IsOf};

    ghost then = { λ v x y w. IsOf x.told.seen.book v × (w ≡ Some y.told.seen) };
}

// What the writer has seen, for a reader to know too.
pub(crate) struct Notes;

impl<T> Split<Option<Seen<T, u64, History>>> for Notes {
    ghost left = { λ v. v };

    ghost right = { λ v. v };
}

impl<T> Join<Option<Seen<T, u64, History>>> for Notes {
    ghost use Rattle.std.specs.Prelude.{None};

    ghost both = { λ v w. w };

    ghost spent = { None };
}

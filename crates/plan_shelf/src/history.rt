//! The history: every entry that was published, in order. It exists in the proofs alone; a `Seen`
//! is a beginning of it. What threads share is one word, its length.
ghost use Rattle.std.specs.Prelude.{◌≡◌, [], ◌∷◌, ◌++◌, length, IfSome};
ghost use Rattle.std.specs.Arc.{arc_value};
ghost use Rattle.plan_shelf.specs.History.{head_of};

use logbook::{Gain, Offer, Plain, Play, Rule, Seen, Start, Word};
use std::sync::Arc;

/// The rule of the history.
pub struct History;

impl<T> Rule<T, u64> for History {
    ghost use Rattle.std.specs.Prelude.{[]};
    ghost use base.Fml.{ftrue};
    ghost use Rattle.plan_shelf.specs.History.{IsKept};

    ghost holds = { λ cells log. IsKept cells log };

    ghost first = { [] };

    ghost hinted = { λ n log. Unit {0} };

    ghost shows = { λ log. [] };

    ghost keeps = { λ names log. ftrue };

    ghost moves = { λ ask before after answer. Unit {0} };
}

// The editor trades nothing for an entry.
pub(crate) struct Nothing;

impl<T> Gain<T, u64> for Nothing {
    ghost use base.Fml.{ftrue};

    ghost after = { λ names about answer. ftrue };
}

// The step that adds an entry.
pub(crate) struct Adding;

impl<T> Play<T, u64> for Adding {
    ghost use Rattle.plan_shelf.specs.History.{Adds};

    ghost then = { Adds };
}

impl<T> Plain<Arc<T>, T, u64> for Adding {
    ghost use Rattle.std.specs.Prelude.{None};
    ghost use Rattle.std.specs.Arc.{arc_value};

    ghost ask = { λ entry. arc_value entry };

    ghost state = { λ entry. None };
}

// An empty history, and the word that has its length.
pub(crate) fn open<T: Drop>() -> (Seen<T, u64, History>, Word<T, u64, History>)
    ensures { (result.0.log ≡ []) × (result.1 ≡ head_of result.0.book) }
{
    let (seen, mut first, _second) = Seen::open(Start::alone(), 0, 0);
    (seen, Word::tracked(0, &mut first))
}

// Adds the entry to the history, unless that is longer than what was seen.
pub(crate) fn add<T: Drop>(
    head: &Word<T, u64, History>,
    before: &Seen<T, u64, History>,
    count: u32,
    entry: &Arc<T>,
) -> Option<Seen<T, u64, History>>
    requires head { head.now ≡ head_of before.now.book }
    requires count { count ≡ length before.now.log }
    ensures shelf { IfSome result (λ s. s.book ≡ before.now.book) }
    ensures list { IfSome result (λ s. s.log ≡ before.now.log ++ arc_value entry.now ∷ []) }
{
    let mut seen = before.again();
    let mut offer: Offer<T, u64, History, Nothing> = seen.plain::<Nothing, Arc<T>, Adding>(entry);
    let mut pen = seen.no_pen();
    let old = u64::from(count);
    let found = head.compare_exchange::<Adding, Nothing>(
        old,
        old + 1,
        &mut seen,
        &mut offer,
        &mut pen,
    );
    if found == old { Some(seen) } else { None }
}

//! What the editor tells, what readers take and what they keep.
ghost use Rattle.std.specs.Prelude.{◌≡◌, ◌+◌, ◌≤◌, ◌↔◌, length, slice_get, Some, IfOk, IsTrue, MatchBool};
ghost use Rattle.std.specs.Arc.{arc_value};
ghost use mathlib.Core.List.{IsPrefix};

use crate::history::History;
use logbook::Seen;
use std::alloc::AllocError;
use std::sync::Arc;

/// The last entry of a list of published entries, and its place, from 0. Contracts see also the
/// whole list and its shelf, as `told_list` and `told_shelf`. Only an editor makes one.
#[derive(Drop)]
pub struct Told<T: Drop> {
    /// How many entries were published after the first.
    pub place: u32,
    /// The last of them, or the first where there are none.
    pub entry: Arc<T>,
    pub(crate) seen: Seen<T, u64, History>,
    pub ghost counted: { length seen.log ≡ place + 1 },
    pub ghost last_is: { slice_get seen.log place ≡ Some (arc_value entry) },
}

impl<T: Drop> Told<T> {
    // A further owner of the entry.
    pub(crate) fn again(&self) -> Result<Told<T>, AllocError>
        ensures { IfOk result (λ t. t.seen ≡ self.now.seen) }
    {
        Ok(Told {
            place: self.place,
            entry: Arc::try_clone(&self.entry)?,
            seen: self.seen.again(),
        })
    }

    // Whether the other's list begins with this one's. Else it is the other way round.
    pub(crate) fn begins(&self, other: &Told<T>) -> bool
        requires { other.now.seen.book ≡ self.now.seen.book }
        ensures place { IsTrue result ↔ (self.now.place ≤ other.now.place) }
        ensures order { MatchBool result
            (IsPrefix self.now.seen.log other.now.seen.log)
            (IsPrefix other.now.seen.log self.now.seen.log) }
    {
        let mut both = self.seen.again();
        both.learn(&other.seen);
        self.place <= other.place
    }
}

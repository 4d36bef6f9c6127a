ghost use Rattle.std.specs.Prelude.{◌≡◌, ℕ, ◌+◌, ◌<◌, IfOk};
ghost use Rattle.std.specs.Thread.{IsSync};
ghost use Rattle.plan_crew.specs.declared.job.Outcome.{Outcome};
ghost use Rattle.plan_crew.specs.declared.job.Outcome.TheVariants.{Taken};

use crate::no_memory::NoMemory;
use std::alloc::Global;
use std::thread::Threads;

/// What a change makes of an entry: the next entry, or a refusal.
#[derive(Drop)]
pub enum Outcome<E: Drop, F: Drop> {
    Taken(E),
    Refused(F),
}

/// What a crew works at: entries, the changes that lead from one to the next, and the questions that
/// an entry answers. Threads share the job.
///
/// It means what a change may make of an entry, and what an entry may answer. Every call may find no
/// memory.
pub trait Job: Sync {
    type Entry: Drop + Send + Sync;

    type Change: Drop + Send + Sync;

    type Question: Drop + Send + Sync;

    type Refused: Drop + Send + Sync;

    type Answer: Drop + Send + Sync;

    // The version of an entry.
    ghost version_of: { Self.Entry → ℕ };

    // Whether it takes this change, and this question.
    ghost takes: { Self → Self.Change → Type 0 };

    ghost asks: { Self → Self.Question → Type 0 };

    // Whether a change makes this of an entry, and whether an entry gives this answer. There may be
    // more than one.
    ghost makes: { Self → Self.Entry → Self.Change → Outcome Self.Entry Self.Refused → Type 0 };

    ghost gives: { Self → Self.Entry → Self.Question → Self.Answer → Type 0 };

    /// The entry's version.
    fn version(&self, entry: &Self::Entry) -> u32
        ensures { result ≡ version_of entry.now };

    /// The next entry, whose version is one more, or the refusal.
    fn apply<R: Threads + Sync>(
        &self,
        rt: &R,
        alloc: Global,
        entry: &Self::Entry,
        change: &Self::Change,
    ) -> Result<Outcome<Self::Entry, Self::Refused>, NoMemory>
        requires sync { IsSync R.row }
        requires takes { takes self.now change.now }
        requires room { version_of entry.now < 2048 }
        ensures { IfOk result (makes self.now entry.now change.now) };

    /// The entry's answer.
    fn answer<R: Threads + Sync>(
        &self,
        rt: &R,
        alloc: Global,
        entry: &Self::Entry,
        question: &Self::Question,
    ) -> Result<Self::Answer, NoMemory>
        requires { asks self.now question.now }
        ensures { IfOk result (gives self.now entry.now question.now) };

    ghost rises: { (job : Self) (entry : Self.Entry) (change : Self.Change) (next : Self.Entry) → makes job entry change (Taken next) → version_of next ≡ version_of entry + 1 };
}

ghost use Rattle.std.specs.Prelude.{◌≡◌, ℕ, ◌-◌, ◌<◌, ◌++◌, ◌∷◌, [], List, true, Bool};
ghost use Rattle.plan_watch.specs.declared.stay.Stay.{Stay};
ghost use Rattle.plan_watch.specs.declared.stay.Stay.TheVariants.{More};

use crate::stay::Stay;

/// Who looks on while a session goes: it is told the version after each accepted edit, and the
/// number of obstacles then.
pub trait Watcher: Drop {
    // The pairs that it was told.
    ghost heard: { Self → List (ℕ × ℕ) };

    // For how many more pairs it has room.
    ghost room: { Self → ℕ };

    // What it will answer to a pair.
    ghost will: { Self → ℕ → ℕ → Stay };

    // Whether it answers More to every pair.
    ghost steady: { Self → Bool };

    /// Takes in one pair, and says whether it wants more. It takes no memory.
    fn told(&mut self, version: u32, obstacles: u32) -> Stay
        requires { 0 < room self.old }
        ensures heard { heard self.new ≡ heard self.old ++ (version, obstacles) ∷ [] }
        ensures room { room self.new ≡ room self.old - 1 }
        ensures answer { result ≡ will self.old version obstacles }
        ensures steady { steady self.old ≡ true → steady self.new ≡ true }
        ensures stays { steady self.old ≡ true → will self.old version obstacles ≡ More };

    /// The pairs that it keeps, which may be none.
    fn kept(&self) -> &[(u32, u32)];
}

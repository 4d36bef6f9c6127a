//! Watchers are told one after another, and those that are done are let go.
ghost use Rattle.std.specs.Prelude.{◌≡◌, ℕ, ◌-◌, ◌<◌, ◌++◌, ◌∷◌, [], All, filter, true};
ghost use Rattle.std.specs.List.{AllZip};
ghost use Rattle.plan_watch.specs.Stays.{is_more};

use crate::stay::Stay;
use crate::watcher::Watcher;

/// Tells the pair to each watcher, in order. Those that answer Done are dropped, and the others keep
/// their order. It takes no memory.
pub fn tell_all(watchers: &mut Vec<Box<dyn Watcher>>, version: u32, obstacles: u32)
    requires { All (λ w. 0 < room w) watchers.old.items }
    // exactly those that answer More are left, each with the pair
    ensures left { AllZip
        (λ before after. (heard after ≡ heard before ++ (version, obstacles) ∷ []) × (room after ≡ room before - 1) × (steady before ≡ true → steady after ≡ true))
        (filter (λ w. is_more (will w version obstacles)) watchers.old.items)
        watchers.new.items }
    // a steady one is among them
    ensures steady { All (λ w. steady w ≡ true → is_more (will w version obstacles) ≡ true) watchers.old.items }
{
    let mut at = 0;
    while at < watchers.len() {
        if tell_one(&mut watchers[at], version, obstacles) {
            at += 1;
        } else {
            drop(watchers.remove(at));
        }
    }
}

// Whether it wants more.
fn tell_one(watcher: &mut Box<dyn Watcher>, version: u32, obstacles: u32) -> bool
    requires { 0 < room watcher.old }
    ensures heard { heard watcher.new ≡ heard watcher.old ++ (version, obstacles) ∷ [] }
    ensures room { room watcher.new ≡ room watcher.old - 1 }
    ensures steady { steady watcher.old ≡ true → steady watcher.new ≡ true }
    ensures stays { steady watcher.old ≡ true → is_more (will watcher.old version obstacles) ≡ true }
    ensures answer { result ≡ is_more (will watcher.old version obstacles) }
{
    match watcher.told(version, obstacles) {
        Stay::More => true,
        Stay::Done => false,
    }
}

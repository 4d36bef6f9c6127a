// What watchers are told of the edits of a round.
ghost use Rattle.std.specs.Prelude.{◌≡◌, ◌+◌, ◌<◌, ◌≤◌, ℕ, suc, All, length, map};
ghost use Rattle.plan_crew.specs.Edited.{end_seen};
ghost use Rattle.plan_top.specs.Telling.{CanAllEnd, CanEnd, Leaves, count_after, count_ended, count_told, pair_ended, pairs_told};
ghost use Rattle.plan_top.specs.Watching.{AreTold};

use crate::planning::Planning;
use plan_crew::EditEnd;
use plan_scene::Edit;
use plan_watch::{Watcher, tell_all};

/// Tells the watchers each accepted edit of a round that has ended, in order: its version, and the number of obstacles
/// then. It takes the number before the round, at most 64, and gives that after it. It takes no memory.
pub fn tell_round(
    watchers: &mut Vec<Box<dyn Watcher>>,
    edits: &[Edit],
    ends: &[EditEnd<Planning>],
    obstacles: u32,
) -> u32
    requires ends { CanAllEnd obstacles edits.now (map (λ e. end_seen e) ends.now) }
    requires room { All (λ w. length edits.now ≤ room w) watchers.old.items }
    ensures told { AreTold (map (λ w. (heard w, steady w)) watchers.old.items) (map (λ w. (heard w, steady w)) watchers.new.items) (pairs_told obstacles edits.now (map (λ e. end_seen e) ends.now)) }
    ensures room { (k : ℕ) → All (λ w. k + length edits.now ≤ room w) watchers.old.items → All (λ w. k ≤ room w) watchers.new.items }
    ensures count { result ≡ count_told obstacles edits.now (map (λ e. end_seen e) ends.now) }
{
    let mut count = obstacles;
    for at in 0..edits.len() {
        count = tell_edit(watchers, &edits[at], &ends[at], count);
    }
    count
}

// Tells one edit, if it was accepted. It gives the number of obstacles after it.
fn tell_edit(
    watchers: &mut Vec<Box<dyn Watcher>>,
    edit: &Edit,
    end: &EditEnd<Planning>,
    obstacles: u32,
) -> u32
    requires end { CanEnd obstacles edit.now (end_seen end.now) }
    requires room { All (λ w. 0 < room w) watchers.old.items }
    ensures told { AreTold (map (λ w. (heard w, steady w)) watchers.old.items) (map (λ w. (heard w, steady w)) watchers.new.items) (pair_ended obstacles edit.now (end_seen end.now)) }
    ensures room { (k : ℕ) → All (λ w. suc k ≤ room w) watchers.old.items → All (λ w. k ≤ room w) watchers.new.items }
    ensures count { result ≡ count_ended obstacles edit.now (end_seen end.now) }
{
    match end {
        EditEnd::Accepted { version } => {
            let count = count_after(obstacles, edit);
            tell_all(watchers, *version, count);
            count
        }
        EditEnd::Refused(_) => obstacles,
    }
}

// The number of obstacles after an edit that was accepted.
fn count_after(obstacles: u32, edit: &Edit) -> u32
    requires { Leaves obstacles edit.now }
    ensures { result ≡ count_after obstacles edit.now }
{
    match edit {
        Edit::Add { .. } => obstacles + 1,
        Edit::Remove { .. } => obstacles - 1,
    }
}

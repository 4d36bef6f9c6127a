//! The laws of walks and paths. The functions do nothing: their contracts are the laws.

ghost use Rattle.plan_map.specs.Laws.{PathsAreClear, OneFirstWalk};

/// The path along a walk is clear.
pub fn paths_are_clear()
    ensures { PathsAreClear }
{}

/// At most one walk is the first of the shortest.
pub fn one_first_walk()
    ensures { OneFirstWalk }
{}

//! Distances from a goal, and the first of the shortest walks to it.

ghost use Rattle.std.specs.Prelude.{◌≡◌, ◌<◌, ◌^◌, IfOk, MatchOption, IsTrue, Some, ℕ, length};
ghost use Rattle.plan_spec.specs.Walks.{IsFirstWalk, AreJoined};
ghost use Rattle.plan_map.specs.Distances.{AreDistancesUntil, IsReached};
ghost use Rattle.plan_map.specs.Search.{at};
ghost use Rattle.plan_map.specs.Row.{in_row, AreRows};

use crate::neighbours;
use crate::search::unmeasured;
use plan_slab::Row;
use std::alloc::{AllocError, Global};

/// The distance of each region from the goal, in steps, where a walk leads to it. The search may end once the region
/// `until` is seen: then what is as far or farther may be missing.
pub fn distances(
    alloc: Global,
    rows: &[Row],
    goal: u32,
    until: Option<u32>,
) -> Result<Vec<Option<u32>>, AllocError>
    requires goal { goal < length rows.now }
    requires until { (r : ℕ) → until ≡ Some r → r < length rows.now }
    requires few { length rows.now < 2 ^ 32 }
    requires rows { AreRows rows.now }
    ensures size { IfOk result (λ found. length found.items ≡ length rows.now) }
    ensures value { IfOk result (λ found. AreDistancesUntil (in_row rows.now) goal until (at found.items)) }
{
    let mut distances = unmeasured(alloc, rows.len())?;
    distances[goal as usize] = Some(0);
    let mut seen = vec![in alloc; goal]?;
    let mut head = 0;
    while head < seen.len() {
        if is_reached(until, &distances) {
            return Ok(distances);
        }
        let region = seen[head];
        if let Some(steps) = distances[region as usize] {
            neighbours::spread(&rows[region as usize], &mut seen, &mut distances, steps + 1)?;
        }
        head += 1;
    }
    Ok(distances)
}

// Whether there is such a region, and it has a distance.
fn is_reached(until: Option<u32>, distances: &[Option<u32>]) -> bool
    requires { (r : ℕ) → until ≡ Some r → r < length distances.now }
    ensures { IsTrue result → IsReached until (at distances.now) }
{
    match until {
        Some(region) => distances[region as usize].is_some(),
        None => false,
    }
}

/// From the start always on to the least neighbour that is a step nearer to the goal: of the shortest walks the first;
/// None exactly where no walk leads there.
pub fn first_walk(
    alloc: Global,
    rows: &[Row],
    distances: &[Option<u32>],
    start: u32,
    goal: u32,
) -> Result<Option<Vec<u32>>, AllocError>
    requires start { start < length rows.now }
    requires rows { AreRows rows.now }
    requires size { length distances.now ≡ length rows.now }
    requires measured { AreDistancesUntil (in_row rows.now) goal (Some start) (at distances.now) }
    ensures { IfOk result (λ found. MatchOption found (¬ (AreJoined (in_row rows.now) start goal)) (λ taken. IsFirstWalk (in_row rows.now) start goal taken.items)) }
{
    let Some(steps) = distances[start as usize] else {
        return Ok(None);
    };
    let mut taken = vec![in alloc; start]?;
    let mut here = start;
    let mut left = steps;
    while left > 0 {
        let Some(next) = neighbours::first_nearer(&rows[here as usize], distances, left - 1) else {
            return Ok(None);
        };
        taken.push(next)?;
        here = next;
        left -= 1;
    }
    Ok(Some(taken))
}

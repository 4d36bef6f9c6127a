//! The neighbours of a region, by number: those on its left, then those on its right.

ghost use Rattle.std.specs.Prelude.{◌≡◌, ℕ, ◌<◌, OnOk, MatchOption, All, Contains, length, Some};
ghost use Rattle.plan_map.specs.Search.{state, at, visits, IsFirstOf};
ghost use Rattle.plan_map.specs.Row.{numbers_of};

use crate::search;
use plan_slab::Row;
use std::alloc::AllocError;

/// Visits each of them, from the first on.
pub fn spread(
    row: &Row,
    seen: &mut Vec<u32>,
    distances: &mut Vec<Option<u32>>,
    steps: u32,
) -> Result<(), AllocError>
    requires { (n : ℕ) → Contains (numbers_of row.now) n → n < length distances.old.items }
    ensures size { length distances.new.items ≡ length distances.old.items }
    ensures value { OnOk result (state seen.new.items distances.new.items ≡ visits (numbers_of row.now) steps (state seen.old.items distances.old.items)) }
{
    search::spread(seen, distances, row.left.start, row.left.end, steps)?;
    search::spread(seen, distances, row.right.start, row.right.end, steps)
}

/// The first of them whose distance is `left`.
pub fn first_nearer(row: &Row, distances: &[Option<u32>], left: u32) -> Option<u32>
    requires { (n : ℕ) → Contains (numbers_of row.now) n → n < length distances.now }
    ensures { MatchOption result (All (λ n. ¬ (at distances.now n ≡ Some left)) (numbers_of row.now)) (IsFirstOf (λ n. at distances.now n ≡ Some left) (numbers_of row.now)) }
{
    if let Some(region) = search::first_nearer(distances, row.left.start, row.left.end, left) {
        return Some(region);
    }
    search::first_nearer(distances, row.right.start, row.right.end, left)
}

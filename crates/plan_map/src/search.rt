//! A search from a goal through neighbours, in the order in which regions are seen.

ghost use Rattle.std.specs.Prelude.{◌≡◌, ℕ, ◌<◌, ◌≤◌, IfOk, OnOk, MatchOption, All, length, replicate, Some, None};
ghost use Rattle.plan_map.specs.Search.{state, at, visit, visits, numbers, IsFirstOf};

use std::alloc::{AllocError, Global};

/// As many regions as asked for, none of them measured.
pub fn unmeasured(alloc: Global, count: usize) -> Result<Vec<Option<u32>>, AllocError>
    ensures { IfOk result (λ found. found.items ≡ replicate count None) }
{
    let mut found = Vec::new(alloc);
    for i in 0..count {
        found.push(None)?;
    }
    Ok(found)
}

/// Visits the regions from `from` to below `to`.
pub fn spread(
    seen: &mut Vec<u32>,
    distances: &mut Vec<Option<u32>>,
    from: u32,
    to: u32,
    steps: u32,
) -> Result<(), AllocError>
    requires { (n : ℕ) → from ≤ n → n < to → n < length distances.old.items }
    ensures size { length distances.new.items ≡ length distances.old.items }
    ensures value { OnOk result (state seen.new.items distances.new.items ≡ visits (numbers from to) steps (state seen.old.items distances.old.items)) }
{
    for region in from..to {
        visit(seen, distances, region, steps)?;
    }
    Ok(())
}

/// Measures a region that is not measured yet, and notes it as seen.
pub fn visit(
    seen: &mut Vec<u32>,
    distances: &mut Vec<Option<u32>>,
    region: u32,
    steps: u32,
) -> Result<(), AllocError>
    requires { region < length distances.old.items }
    ensures size { length distances.new.items ≡ length distances.old.items }
    ensures value { OnOk result (state seen.new.items distances.new.items ≡ visit region steps (state seen.old.items distances.old.items)) }
{
    if distances[region as usize].is_none() {
        distances[region as usize] = Some(steps);
        seen.push(region)?;
    }
    Ok(())
}

/// The first region from `from` to below `to` whose distance is `left`.
pub fn first_nearer(distances: &[Option<u32>], from: u32, to: u32, left: u32) -> Option<u32>
    requires { (n : ℕ) → from ≤ n → n < to → n < length distances.now }
    ensures { MatchOption result (All (λ n. ¬ (at distances.now n ≡ Some left)) (numbers from to)) (IsFirstOf (λ n. at distances.now n ≡ Some left) (numbers from to)) }
{
    for region in from..to {
        if distances[region as usize] == Some(left) {
            return Some(region);
        }
    }
    None
}

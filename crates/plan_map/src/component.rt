//! Connected components.

ghost use Rattle.std.specs.Prelude.{◌≡◌, ◌<◌, ◌^◌, IfOk, length};
ghost use Rattle.plan_spec.specs.Walks.{IsComponent};
ghost use Rattle.plan_map.specs.Row.{in_row, AreRows};
ghost use Rattle.plan_map.specs.Search.{AreMeasured};

use crate::walk::distances;
use plan_slab::Row;
use std::alloc::{AllocError, Global};

/// The numbers of all regions that a walk joins to this one, rising.
pub fn component(alloc: Global, rows: &[Row], region: u32) -> Result<Vec<u32>, AllocError>
    requires region { region < length rows.now }
    requires few { length rows.now < 2 ^ 32 }
    requires rows { AreRows rows.now }
    ensures { IfOk result (λ found. IsComponent (in_row rows.now) region found.items) }
{
    let distances = distances(alloc, rows, region, None)?;
    let found = measured(alloc, &distances)?;
    Ok(found)
}

// The numbers that have a distance.
fn measured(alloc: Global, distances: &[Option<u32>]) -> Result<Vec<u32>, AllocError>
    requires { length distances.now < 2 ^ 32 }
    ensures { IfOk result (λ found. AreMeasured distances.now (length distances.now) found.items) }
{
    let mut found = Vec::new(alloc);
    for i in 0..distances.len() {
        if let Some(_) = distances[i] {
            found.push(i as u32)?;
        }
    }
    Ok(found)
}

//! Labels of connected components, written as a search writes distances: once, where there is none yet.

ghost use Rattle.std.specs.Prelude.{◌≡◌, ◌+◌, ◌<◌, ◌^◌, IfOk, OnOk, length};
ghost use Rattle.plan_map.specs.Labels.{AreLabels, IsFlood, HasLabels};
ghost use Rattle.plan_map.specs.Row.{in_row, AreRows};

use crate::neighbours;
use crate::search::{unmeasured, visit};
use plan_slab::Row;
use std::alloc::{AllocError, Global};

/// Of each region the least number of those that a walk joins to it.
pub fn labels(alloc: Global, rows: &[Row]) -> Result<Vec<u32>, AllocError>
    requires few { length rows.now < 2 ^ 32 }
    requires rows { AreRows rows.now }
    ensures { IfOk result (λ found. AreLabels (in_row rows.now) (length rows.now) found.items) }
{
    let mut labels = unmeasured(alloc, rows.len())?;
    let mut seen = Vec::new(alloc);
    for region in 0..rows.len() {
        flood(rows, region as u32, &mut seen, &mut labels)?;
    }
    let found = by_themselves(alloc, &labels)?;
    Ok(found)
}

// Gives all that a walk joins to the region its number as their label, unless it has a label. All that is seen before
// has labels, and so have its neighbours.
fn flood(
    rows: &[Row],
    region: u32,
    seen: &mut Vec<u32>,
    labels: &mut Vec<Option<u32>>,
) -> Result<(), AllocError>
    requires region { region < length rows.now }
    requires rows { AreRows rows.now }
    requires before { IsFlood (in_row rows.now) (length rows.now) region seen.old.items (length seen.old.items) labels.old.items }
    ensures { OnOk result (IsFlood (in_row rows.now) (length rows.now) (region + 1) seen.new.items (length seen.new.items) labels.new.items) }
{
    let mut head = seen.len();
    visit(seen, labels, region, region)?;
    while head < seen.len() {
        let here = seen[head];
        neighbours::spread(&rows[here as usize], seen, labels, region)?;
        head += 1;
    }
    Ok(())
}

// The labels, where all have one.
fn by_themselves(alloc: Global, labels: &[Option<u32>]) -> Result<Vec<u32>, AllocError>
    ensures { IfOk result (λ found. HasLabels labels.now found.items) }
{
    let mut found = Vec::new(alloc);
    for i in 0..labels.len() {
        found.push(labels[i].unwrap_or(0))?;
    }
    Ok(found)
}

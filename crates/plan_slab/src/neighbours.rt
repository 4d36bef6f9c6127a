ghost use Rattle.std.specs.Prelude.{◌≤◌, ◌-◌, length, map, IfOk};
ghost use Rattle.std.specs.List.Sorted.{IsNonDecreasingBy};
ghost use Rattle.plan_spec.specs.Slabs.{Slabs};
ghost use Rattle.plan_spec.specs.Regions as spec;
ghost use Rattle.plan_spec.specs.Regions.{IsLot};
ghost use Rattle.plan_slab.specs.Ends.{AreTabled, AreNeighbourRows};
ghost use Rattle.plan_slab.specs.LotKeys.{key, AreBetween};
ghost use Rattle.plan_slab.specs.NextTo.{IsPast, AreInRightOf, AreInLeftOf, IsRowOf};
ghost use Rattle.plan_slab.specs.Seen.{lot_seen};

use crate::lot::Lot;
use crate::row::Row;
use crate::search::between;
use std::alloc::{AllocError, Global};
use std::ops::Range;

/// The neighbours of each region, by the regions in their order and the numbers of the marks in which spans meet the
/// lines of their slabs. Neighbours rise with the regions, so each search begins where that of the region before ended.
pub fn rows_of(
    alloc: Global,
    lots: &[Lot],
    ends: &[Vec<(u32, u32)>],
) -> Result<Vec<Row>, AllocError>
    requires { (σ : Slabs) × AreTabled σ (map lot_seen lots.now) (map (λ v. v.items) ends.now) }
    ensures { (σ : Slabs) → AreTabled σ (map lot_seen lots.now) (map (λ v. v.items) ends.now) → IfOk result (λ v. AreNeighbourRows σ (map lot_seen lots.now) v.items) }
{
    let mut rows = Vec::new(alloc);
    let mut left = 0;
    let mut right = 0;
    for i in 0..lots.len() {
        let row = row_of(lots, ends, left, right, lots[i]);
        left = row.left.start;
        right = row.right.start;
        rows.push(row)?;
    }
    Ok(rows)
}

// The neighbours of a cell or a wall, which may be sought from `left` and from `right` on.
fn row_of(lots: &[Lot], ends: &[Vec<(u32, u32)>], left: u32, right: u32, lot: Lot) -> Row
    requires { (σ : Slabs) × AreTabled σ (map lot_seen lots.now) (map (λ v. v.items) ends.now) × IsLot σ (lot_seen lot) }
    ensures { (σ : Slabs) → AreTabled σ (map lot_seen lots.now) (map (λ v. v.items) ends.now) → IsLot σ (lot_seen lot) → IsRowOf σ (map lot_seen lots.now) (lot_seen lot) result }
{
    match lot {
        Lot::Cell { slab, at } => row_of_cell(lots, ends, left, right, slab, at),
        Lot::Wall { line, at } => row_of_wall(lots, ends, left, right, line, at),
    }
}

// Of a cell: the walls between the marks of its two spans.
fn row_of_cell(
    lots: &[Lot],
    ends: &[Vec<(u32, u32)>],
    left: u32,
    right: u32,
    slab: u32,
    at: u32,
) -> Row
    requires { (σ : Slabs) × AreTabled σ (map lot_seen lots.now) (map (λ v. v.items) ends.now) × IsLot σ (spec.cell slab at) }
    ensures { (σ : Slabs) → AreTabled σ (map lot_seen lots.now) (map (λ v. v.items) ends.now) → IsLot σ (spec.cell slab at) → IsRowOf σ (map lot_seen lots.now) (spec.cell slab at) result }
{
    let row = &ends[slab as usize];
    let low = row[at as usize];
    let high = row[at as usize + 1];
    Row {
        left: walls(lots, left, slab, low.0, high.0),
        right: walls(lots, right, slab + 1, low.1, high.1),
    }
}

// Of a wall: the cells that have it between the marks of their two spans.
fn row_of_wall(
    lots: &[Lot],
    ends: &[Vec<(u32, u32)>],
    left: u32,
    right: u32,
    line: u32,
    at: u32,
) -> Row
    requires { (σ : Slabs) × AreTabled σ (map lot_seen lots.now) (map (λ v. v.items) ends.now) }
    ensures { (σ : Slabs) → AreTabled σ (map lot_seen lots.now) (map (λ v. v.items) ends.now) → IsRowOf σ (map lot_seen lots.now) (spec.wall line at) result }
{
    Row {
        left: cell_on_left(lots, ends, left, line, at),
        right: cell_on_right(lots, ends, right, line, at),
    }
}

// The cell in whose right side the wall is.
fn cell_on_left(lots: &[Lot], ends: &[Vec<(u32, u32)>], near: u32, line: u32, at: u32) -> Range<u32>
    requires { (σ : Slabs) × AreTabled σ (map lot_seen lots.now) (map (λ v. v.items) ends.now) }
    ensures { (σ : Slabs) → AreTabled σ (map lot_seen lots.now) (map (λ v. v.items) ends.now) → AreInRightOf σ (map lot_seen lots.now) (spec.wall line at) result.start result.end }
{
    if line == 0 {
        return 0..0;
    }
    if line as usize > ends.len() {
        return 0..0;
    }
    let past = past_on_right(&ends[line as usize - 1], at);
    cell_before(lots, near, line - 1, past)
}

// The cell in whose left side the wall is.
fn cell_on_right(
    lots: &[Lot],
    ends: &[Vec<(u32, u32)>],
    near: u32,
    line: u32,
    at: u32,
) -> Range<u32>
    requires { (σ : Slabs) × AreTabled σ (map lot_seen lots.now) (map (λ v. v.items) ends.now) }
    ensures { (σ : Slabs) → AreTabled σ (map lot_seen lots.now) (map (λ v. v.items) ends.now) → AreInLeftOf σ (map lot_seen lots.now) (spec.wall line at) result.start result.end }
{
    if line as usize >= ends.len() {
        return 0..0;
    }
    let past = past_on_left(&ends[line as usize], at);
    cell_before(lots, near, line, past)
}

// How many spans of a slab meet the line on its left in that mark or a lower one.
fn past_on_left(row: &[(u32, u32)], mark: u32) -> u32
    requires few { length row.now ≤ 131072 }
    requires rising { IsNonDecreasingBy (λ e. e.0) row.now }
    ensures { IsPast (λ e. e.0) row.now mark result }
{
    row.partition_point(|end: &(u32, u32)| end.0 <= mark) as u32
}

// How many spans of a slab meet the line on its right in that mark or a lower one.
fn past_on_right(row: &[(u32, u32)], mark: u32) -> u32
    requires few { length row.now ≤ 131072 }
    requires rising { IsNonDecreasingBy (λ e. e.1) row.now }
    ensures { IsPast (λ e. e.1) row.now mark result }
{
    row.partition_point(|end: &(u32, u32)| end.1 <= mark) as u32
}

// The cell between the span before that number and the span of that number.
fn cell_before(lots: &[Lot], near: u32, slab: u32, span: u32) -> Range<u32>
    requires few { length lots.now ≤ 131072 }
    requires rising { IsNonDecreasingBy (λ lot. key (lot_seen lot)) lots.now }
    ensures { AreBetween (map lot_seen lots.now) (key (spec.cell slab (span - 1))) (key (spec.cell slab span)) result.start result.end }
{
    let from = span.saturating_sub(1);
    between(
        lots,
        near,
        Lot::Cell { slab, at: from },
        Lot::Cell { slab, at: span },
    )
}

// The walls of a line from one mark on and below another.
fn walls(lots: &[Lot], near: u32, line: u32, low: u32, high: u32) -> Range<u32>
    requires few { length lots.now ≤ 131072 }
    requires rising { IsNonDecreasingBy (λ lot. key (lot_seen lot)) lots.now }
    ensures { AreBetween (map lot_seen lots.now) (key (spec.wall line low)) (key (spec.wall line high)) result.start result.end }
{
    between(
        lots,
        near,
        Lot::Wall { line, at: low },
        Lot::Wall { line, at: high },
    )
}

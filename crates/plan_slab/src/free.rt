ghost use Rattle.std.specs.Prelude.{◌≡◌, ◌+◌, ◌-◌, ◌<◌, ◌≤◌, ◌^◌, All, IfOk, length, map};
ghost use Rattle.std.specs.List.{AllZip, range_with_len};
ghost use Rattle.plan_spec.specs.Regions as spec;
ghost use Rattle.plan_spec.specs.Vector.{Same, SameX};
ghost use Rattle.plan_grid.specs.Bounds.{IsBounded};
ghost use Rattle.plan_grid.specs.Fraction.{point_at};
ghost use Rattle.plan_grid.specs.Frame.{frame_seen};
ghost use Rattle.plan_convex.specs.Piece.{sums_seen};
ghost use Rattle.plan_slab.specs.EventLines.{IsLine};
ghost use Rattle.plan_slab.specs.FreeLots.{IsFreeCell, IsFreeWall, AreFreeOf, AreRows};
ghost use Rattle.plan_slab.specs.Heights.{IsOver, IsHeight};
ghost use Rattle.plan_slab.specs.Near.{AreBoxes, AreWithin};
ghost use Rattle.plan_slab.specs.Seen.{strand_seen, marks_seen, lot_seen, line_seen};
ghost use Rattle.plan_slab.specs.SlabsSeen.{slabs_seen};

use crate::feet::{between, foot, halfway, mediant_of};
use crate::lot::Lot;
use crate::near::{is_clear, near};
use crate::numbers::{den, num};
use crate::strand::Strand;
use plan_convex::{Convex, Triple};
use plan_exact::Whole;
use plan_grid::{Frame, Ratio};
use rayon::prelude::*;
use std::alloc::{AllocError, Global};
use std::thread::Threads;

// The fewest slabs that are worth a thread.
const LEAST_SLABS: usize = 16;

/// The free cells and walls: of each slab the cells from below, then the walls of the line on its right from below. At most
/// `workers` threads share the slabs.
pub fn free_lots(
    rt: &(impl Threads + Sync),
    alloc: Global,
    sums: &[Convex],
    boxes: &[Frame],
    room: Frame,
    lines: &[Ratio],
    spans: &[Vec<Strand>],
    marks: &[Vec<Ratio>],
    workers: u8,
) -> Result<Vec<Vec<Lot>>, AllocError>
    requires boxes { AreBoxes sums.now boxes.now }
    requires room { AreWithin room }
    requires rows { AreRows lines.now (map (λ v. v.items) spans.now) (map (λ v. v.items) marks.now) }
    ensures { IfOk result (λ v. AllZip
        (λ k found. AreFreeOf (sums_seen sums.now) (frame_seen room)
        (slabs_seen lines.now (map (λ v. v.items) spans.now) (map (λ v. v.items) marks.now)) k (map lot_seen found.items))
        (range_with_len 0 (length spans.now)) v.items) }
{
    let count = spans.len();
    let least = (count / (workers as usize + 1) + 1).max(LEAST_SLABS);
    (0..count)
        .into_par_iter()
        .with_min_len(least)
        .map(
            |k: usize| -> Result<Vec<Lot>, AllocError>
                requires slab { k < length spans.now }
                requires boxes { AreBoxes sums.now boxes.now }
                requires room { AreWithin room }
                requires rows { AreRows lines.now (map (λ v. v.items) spans.now) (map (λ v. v.items) marks.now) }
                ensures { IfOk result (λ v. AreFreeOf (sums_seen sums.entry.now) (frame_seen room)
                    (slabs_seen lines.entry.now (map (λ v. v.items) spans.entry.now) (map (λ v. v.items) marks.entry.now)) k
                    (map lot_seen v.items)) }
            { free_of_slab(alloc, sums, boxes, room, lines, spans, marks, k) },
        )
        .collect::<Result<Vec<Vec<Lot>>, AllocError>>(rt, alloc)?
}

// The free cells of the slab, then the free walls of the line on its right.
fn free_of_slab(
    alloc: Global,
    sums: &[Convex],
    boxes: &[Frame],
    room: Frame,
    lines: &[Ratio],
    spans: &[Vec<Strand>],
    marks: &[Vec<Ratio>],
    k: usize,
) -> Result<Vec<Lot>, AllocError>
    requires slab { k < length spans.now }
    requires boxes { AreBoxes sums.now boxes.now }
    requires room { AreWithin room }
    requires rows { AreRows lines.now (map (λ v. v.items) spans.now) (map (λ v. v.items) marks.now) }
    ensures { IfOk result (λ v. AreFreeOf (sums_seen sums.now) (frame_seen room)
        (slabs_seen lines.now (map (λ v. v.items) spans.now) (map (λ v. v.items) marks.now)) k (map lot_seen v.items)) }
{
    let x = mediant_of(lines[k], lines[k + 1]);
    let mut found = free_cells(alloc, sums, boxes, room, k as u32, x, &spans[k])?;
    let walls = free_walls(
        alloc,
        sums,
        boxes,
        room,
        k as u32 + 1,
        lines[k + 1],
        &marks[k + 1],
    )?;
    found.extend_from_slice(&walls)?;
    Ok(found)
}

// The free cells of a slab, between spans that go across the x of `x`.
fn free_cells(
    alloc: Global,
    sums: &[Convex],
    boxes: &[Frame],
    room: Frame,
    slab: u32,
    x: Triple,
    spans: &[Strand],
) -> Result<Vec<Lot>, AllocError>
    requires boxes { AreBoxes sums.now boxes.now }
    requires room { AreWithin room }
    requires bounded { IsBounded (2 ^ 26) x }
    requires over { All (λ s. IsOver s x) spans.now }
    requires few { length spans.now ≤ 131072 }
    ensures { IfOk result (λ v. spec.Kept (IsFreeCell (sums_seen sums.now) (frame_seen room) x (map strand_seen spans.now))
        (map (spec.cell slab) (range_with_len 0 (length (map strand_seen spans.now) - 1))) (map lot_seen v.items)) }
{
    let near = near(alloc, boxes, x)?;
    let mut found = Vec::new(alloc);
    let count = spans.len().saturating_sub(1);
    for i in 0..count {
        let z = cell_point(spans[i], spans[i + 1], x);
        if is_clear(sums, boxes, &near, room, z) {
            found.push(Lot::Cell { slab, at: i as u32 })?;
        }
    }
    Ok(found)
}

// The point between two spans at the x of `x`.
fn cell_point(low: Strand, high: Strand, x: Triple) -> Triple
    requires low { IsOver low x }
    requires high { IsOver high x }
    requires bounded { IsBounded (2 ^ 26) x }
    ensures value { result ≡ spec.halfway (spec.foot (strand_seen low) x) (spec.foot (strand_seen high) x) }
    ensures bounded { IsBounded (2 ^ 100) result }
    ensures same_x { SameX x result }
{
    halfway(foot(low, x), foot(high, x))
}

// The free walls of a line.
fn free_walls(
    alloc: Global,
    sums: &[Convex],
    boxes: &[Frame],
    room: Frame,
    line: u32,
    x: Ratio,
    marks: &[Ratio],
) -> Result<Vec<Lot>, AllocError>
    requires boxes { AreBoxes sums.now boxes.now }
    requires room { AreWithin room }
    requires x { IsLine x }
    requires heights { All IsHeight marks.now }
    requires few { length marks.now ≤ 131072 }
    ensures { IfOk result (λ v. spec.Kept (IsFreeWall (sums_seen sums.now) (frame_seen room) (marks_seen x marks.now))
        (map (spec.wall line) (range_with_len 0 (length (marks_seen x marks.now) - 1))) (map lot_seen v.items)) }
{
    let near = near(alloc, boxes, on_axis(x))?;
    let mut found = Vec::new(alloc);
    let count = marks.len().saturating_sub(1);
    for i in 0..count {
        let z = wall_point(x, marks[i], marks[i + 1]);
        if is_clear(sums, boxes, &near, room, z) {
            found.push(Lot::Wall { line, at: i as u32 })?;
        }
    }
    Ok(found)
}

// The point between two marks of a line.
fn wall_point(line: Ratio, low: Ratio, high: Ratio) -> Triple
    requires line { IsLine line }
    requires low { IsHeight low }
    requires high { IsHeight high }
    ensures same { Same result (spec.halfway (point_at line low) (point_at line high)) }
    ensures bounded { IsBounded (2 ^ 100) result }
    ensures same_x { SameX (line_seen line) result }
{
    between(line, low, high)
}

// The point of the line on the x-axis.
fn on_axis(line: Ratio) -> Triple
    requires { IsLine line }
    ensures value { result ≡ line_seen line }
    ensures bounded { IsBounded (2 ^ 100) result }
{
    Triple {
        x: num(line),
        y: Whole::from(0),
        w: den(line),
    }
}

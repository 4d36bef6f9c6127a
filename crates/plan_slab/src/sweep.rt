ghost use Rattle.std.specs.Prelude.{◌≡◌, ◌+◌, ◌<◌, ◌≤◌, ◌^◌, [], ◌∷◌, ◌++◌, List, get_or, IfOk, IfErr, MatchResult, length, map};
ghost use Rattle.plan_spec.specs.Slabs.{AreSlabs, size};
ghost use Rattle.plan_grid.specs.Frame.{frame_seen};
ghost use Rattle.plan_grid.specs.Spot.{IsWithin};
ghost use Rattle.plan_convex.specs.Piece.{sums_seen};
ghost use Rattle.plan_spec.specs.Pieces.{IsBoundaryOf};
ghost use Rattle.plan_plane.proofs.Boundary.Floor.{IsFloor};
ghost use Rattle.plan_slab.specs.SlabsSeen.{slabs_seen};
ghost use Rattle.plan_slab.specs.EventLines.{AreEventLines};
ghost use Rattle.plan_slab.specs.FreeLots.{AreRows};
ghost use Rattle.plan_slab.specs.Sweeps.{AreEntered, AreKept, BeginsBy, AreTooMany};
ghost use Rattle.plan_slab.specs.declared.bar.Bar as spec;
ghost use Rattle.plan_slab.specs.declared.fault.SlabFault.TheVariants.{TooManyRegions};

use crate::bar::{Bar, bars_of, begins_by, lasts_to};
use crate::fault::SlabFault;
use crate::marks::marks_at;
use crate::spans::spans_between;
use crate::strand::Strand;
use plan_convex::{Convex, Piece};
use plan_grid::{Frame, MOST_COORDINATE, Ratio};
use std::alloc::{AllocError, Global};

/// The greatest number of spans and marks.
pub const MOST_SIZE: usize = 131_072;

/// The spans of each slab and the marks of each line, and how many there are.
#[derive(Drop)]
pub struct Rows {
    pub spans: Vec<Vec<Strand>>,
    pub marks: Vec<Vec<Ratio>>,
    pub size: usize,
}

// Adds the bars from `next` on that begin on the line or on its left; the answer is the number of the first that does
// not.
fn enter(bars: &[Bar], next: usize, line: Ratio, active: &mut Vec<Bar>) -> Result<usize, AllocError>
    requires next { next ≤ length bars.now }
    ensures upto { IfOk result (λ n. n ≤ length bars.now) }
    ensures from { IfOk result (λ n. next ≤ n) }
    ensures entered { IfOk result (λ n. AreEntered bars.now next n line active.old.items active.new.items) }
    ensures later { IfOk result (λ n. (d : spec.Bar) → n < length bars.now → ¬ (BeginsBy line (get_or bars.now n d))) }
{
    for i in next..bars.len() {
        let bar = bars[i];
        if !begins_by(&bar.piece, line) {
            return Ok(i);
        }
        active.push(bar)?;
    }
    Ok(bars.len())
}

// Keeps the bars that end on the line or on its right.
fn keep(active: &mut Vec<Bar>, line: Ratio)
    ensures { AreKept line active.old.items active.new.items }
{
    active.retain(|bar: &Bar| lasts_to(&bar.piece, line));
}

// The size with so many more.
fn counted(size: usize, more: usize) -> Result<usize, SlabFault>
    requires { size ≤ 131072 }
    ensures { MatchResult result (λ n. (n ≡ size + more) × (n ≤ 131072)) (λ e. (e ≡ TooManyRegions) × (131072 < size + more)) }
{
    if MOST_SIZE - size < more {
        return Err(SlabFault::TooManyRegions);
    }
    Ok(size + more)
}

// Adds the bars that begin on the line or on its left, and keeps those that end on it or on its right; the answer is
// the number of the first that begins on its right.
fn take_up(
    bars: &[Bar],
    next: usize,
    line: Ratio,
    active: &mut Vec<Bar>,
) -> Result<usize, AllocError>
    requires next { next ≤ length bars.now }
    ensures upto { IfOk result (λ n. n ≤ length bars.now) }
    ensures held { IfOk result (λ n. (bs : List spec.Bar) × AreEntered bars.now next n line active.old.items bs × AreKept line bs active.new.items) }
    ensures later { IfOk result (λ n. (d : spec.Bar) → n < length bars.now → ¬ (BeginsBy line (get_or bars.now n d))) }
{
    let upto = enter(bars, next, line, active)?;
    keep(active, line);
    Ok(upto)
}

impl Rows {
    // Adds the marks of a line.
    fn add_marks(&mut self, row: Vec<Ratio>) -> Result<(), SlabFault>
        requires { self.old.size ≤ 131072 }
        ensures marks { IfOk result (λ _. map (λ v. v.items) self.new.marks.items ≡ map (λ v. v.items) self.old.marks.items ++ row.items ∷ []) }
        ensures spans { IfOk result (λ _. map (λ v. v.items) self.new.spans.items ≡ map (λ v. v.items) self.old.spans.items) }
        ensures size { IfOk result (λ _. self.new.size ≡ self.old.size + length row.items) }
        ensures most { IfOk result (λ _. self.new.size ≤ 131072) }
        ensures many { IfErr result (λ e. e ≡ TooManyRegions → 131072 < self.old.size + length row.items) }
    {
        self.size = counted(self.size, row.len())?;
        self.marks.push(row).map_err(|_| SlabFault::NoMemory)?;
        Ok(())
    }

    // Adds the spans of a slab.
    fn add_spans(&mut self, row: Vec<Strand>) -> Result<(), SlabFault>
        requires { self.old.size ≤ 131072 }
        ensures spans { IfOk result (λ _. map (λ v. v.items) self.new.spans.items ≡ map (λ v. v.items) self.old.spans.items ++ row.items ∷ []) }
        ensures marks { IfOk result (λ _. map (λ v. v.items) self.new.marks.items ≡ map (λ v. v.items) self.old.marks.items) }
        ensures size { IfOk result (λ _. self.new.size ≡ self.old.size + length row.items) }
        ensures most { IfOk result (λ _. self.new.size ≤ 131072) }
        ensures many { IfErr result (λ e. e ≡ TooManyRegions → 131072 < self.old.size + length row.items) }
    {
        self.size = counted(self.size, row.len())?;
        self.spans.push(row).map_err(|_| SlabFault::NoMemory)?;
        Ok(())
    }
}

/// The spans of the slabs between the event lines, and the marks of these lines. The pieces are those of the boundary of
/// the sums and the room. An error where they have more than 131,072 spans and marks, or where memory ends.
pub fn sweep(
    alloc: Global,
    pieces: &[Piece],
    sums: &[Convex],
    room: Frame,
    lines: &[Ratio],
) -> Result<Rows, SlabFault>
    requires count { length pieces.now < 2 ^ 32 }
    requires low { IsWithin MOST_COORDINATE room.low }
    requires high { IsWithin MOST_COORDINATE room.high }
    requires floor { IsFloor (sums_seen sums.now) (frame_seen room) }
    requires bound { IsBoundaryOf (sums_seen sums.now) (frame_seen room) pieces.now }
    requires lines { AreEventLines pieces.now lines.now }
    ensures slabs { IfOk result (λ r. AreSlabs (sums_seen sums.now) (frame_seen room) pieces.now
        (slabs_seen lines.now (map (λ v. v.items) r.spans.items) (map (λ v. v.items) r.marks.items))) }
    ensures size { IfOk result (λ r. r.size ≡ size (slabs_seen lines.now (map (λ v. v.items) r.spans.items) (map (λ v. v.items) r.marks.items))) }
    ensures most { IfOk result (λ r. r.size ≤ 131072) }
    ensures rows { IfOk result (λ r. AreRows lines.now (map (λ v. v.items) r.spans.items) (map (λ v. v.items) r.marks.items)) }
    ensures many { IfErr result (λ e. e ≡ TooManyRegions → AreTooMany (sums_seen sums.now) (frame_seen room) pieces.now) }
{
    let bars = bars_of(alloc, pieces, sums, room)?;
    let mut rows = Rows {
        spans: Vec::new(alloc),
        marks: Vec::new(alloc),
        size: 0,
    };
    let Some(last) = lines.len().checked_sub(1) else {
        return Ok(rows);
    };
    let mut next = 0;
    let mut active = Vec::new(alloc);
    for k in 0..last {
        let left = lines[k];
        let right = lines[k + 1];
        next = take_up(&bars, next, left, &mut active)?;
        let marks = marks_at(alloc, &active, left)?;
        rows.add_marks(marks)?;
        keep(&mut active, right);
        let spans = spans_between(alloc, &active, left, right)?;
        rows.add_spans(spans)?;
    }
    let line = lines[last];
    take_up(&bars, next, line, &mut active)?;
    let marks = marks_at(alloc, &active, line)?;
    rows.add_marks(marks)?;
    Ok(rows)
}

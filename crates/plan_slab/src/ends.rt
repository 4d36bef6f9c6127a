ghost use Rattle.std.specs.Prelude.{◌≡◌, pos, ◌<ℤ◌, ◌<◌, ◌≤◌, ◌^◌, ◌↔◌, All, IfOk, IsTrue, length, map};
ghost use Rattle.plan_spec.specs.Vector.{turn};
ghost use Rattle.plan_spec.specs.Neighbours.{meets};
ghost use Rattle.plan_grid.specs.Bounds.{IsBounded};
ghost use Rattle.plan_grid.specs.Fraction.{point_at};
ghost use Rattle.plan_slab.specs.Decomposition.{AreInOrder};
ghost use Rattle.plan_slab.specs.Ends.{IsSpotted, MeetInOrder, AreMeets, ArePairs, AreEndsOf, AreEnds};
ghost use Rattle.plan_slab.specs.EventLines.{IsLine};
ghost use Rattle.plan_slab.specs.FreeLots.{AreRows};
ghost use Rattle.plan_slab.specs.Heights.{IsHeight};
ghost use Rattle.plan_slab.specs.Seen.{marks_seen, strand_seen};
ghost use Rattle.plan_slab.specs.SlabsSeen.{slabs_seen};

use crate::numbers::{den, num};
use crate::strand::Strand;
use plan_convex::Triple;
use plan_grid::Ratio;
use std::alloc::{AllocError, Global};

/// Of each span of each slab the number of the mark in which it meets the line on its left, and of that on its right.
pub fn ends_of(
    alloc: Global,
    lines: &[Ratio],
    spans: &[Vec<Strand>],
    marks: &[Vec<Ratio>],
) -> Result<Vec<Vec<(u32, u32)>>, AllocError>
    requires rows { AreRows lines.now (map (λ v. v.items) spans.now) (map (λ v. v.items) marks.now) }
    requires order { AreInOrder (slabs_seen lines.now (map (λ v. v.items) spans.now) (map (λ v. v.items) marks.now)) }
    ensures { IfOk result (λ v. AreEnds (slabs_seen lines.now (map (λ v. v.items) spans.now) (map (λ v. v.items) marks.now))
        (map (λ v. v.items) v.items)) }
{
    let mut ends = Vec::new(alloc);
    for k in 0..spans.len() {
        let row = ends_of_slab(alloc, lines, spans, marks, k)?;
        ends.push(row)?;
    }
    Ok(ends)
}

// Of each span of the slab the number of the mark on its left, and of that on its right.
fn ends_of_slab(
    alloc: Global,
    lines: &[Ratio],
    spans: &[Vec<Strand>],
    marks: &[Vec<Ratio>],
    k: usize,
) -> Result<Vec<(u32, u32)>, AllocError>
    requires slab { k < length spans.now }
    requires rows { AreRows lines.now (map (λ v. v.items) spans.now) (map (λ v. v.items) marks.now) }
    requires order { AreInOrder (slabs_seen lines.now (map (λ v. v.items) spans.now) (map (λ v. v.items) marks.now)) }
    ensures { IfOk result (λ v. AreEndsOf (slabs_seen lines.now (map (λ v. v.items) spans.now) (map (λ v. v.items) marks.now)) k v.items) }
{
    let lefts = numbers_on(alloc, &spans[k], lines[k], &marks[k])?;
    let rights = numbers_on(alloc, &spans[k], lines[k + 1], &marks[k + 1])?;
    let ends = paired(alloc, &lefts, &rights)?;
    Ok(ends)
}

// Of each span of a slab the number of the mark in which it meets the line. Numbers never fall, so each search begins
// where the one before ended.
fn numbers_on(
    alloc: Global,
    spans: &[Strand],
    line: Ratio,
    marks: &[Ratio],
) -> Result<Vec<u32>, AllocError>
    requires spots { All IsSpotted spans.now }
    requires line { IsLine line }
    requires heights { All IsHeight marks.now }
    requires few { length marks.now ≤ 131072 }
    requires order { MeetInOrder (map strand_seen spans.now) (marks_seen line marks.now) }
    ensures { IfOk result (λ v. AreMeets (map strand_seen spans.now) (marks_seen line marks.now) v.items) }
{
    let mut numbers = Vec::new(alloc);
    let mut at = 0;
    for i in 0..spans.len() {
        at = number_on(spans[i], line, marks, at);
        numbers.push(at as u32)?;
    }
    Ok(numbers)
}

// The number of the mark in which the span meets the line, where it is not below `from`.
fn number_on(span: Strand, line: Ratio, marks: &[Ratio], from: usize) -> usize
    requires spots { IsSpotted span }
    requires line { IsLine line }
    requires heights { All IsHeight marks.now }
    requires from { from ≤ meets (strand_seen span) (marks_seen line marks.now) }
    ensures number { result ≡ meets (strand_seen span) (marks_seen line marks.now) }
    ensures within { result ≤ length marks.now }
{
    for at in from..marks.len() {
        if !is_below(line, marks[at], span) {
            return at;
        }
    }
    marks.len()
}

// Whether the point of the line at that height is below the span.
fn is_below(line: Ratio, height: Ratio, span: Strand) -> bool
    requires line { IsLine line }
    requires height { IsHeight height }
    requires spots { IsSpotted span }
    ensures { IsTrue result ↔ (turn (strand_seen span).a (strand_seen span).b (point_at line height) <ℤ pos 0) }
{
    point_of(line, height).is_right(span.a, span.b)
}

// The point of the line at that height.
fn point_of(line: Ratio, height: Ratio) -> Triple
    requires line { IsLine line }
    requires height { IsHeight height }
    ensures value { result ≡ point_at line height }
    ensures bounded { IsBounded (2 ^ 100) result }
{
    Triple {
        x: num(line).times(den(height)),
        y: num(height).times(den(line)),
        w: den(line).times(den(height)),
    }
}

// The pairs of numbers of one place.
fn paired(alloc: Global, lefts: &[u32], rights: &[u32]) -> Result<Vec<(u32, u32)>, AllocError>
    requires { length lefts.now ≡ length rights.now }
    ensures { IfOk result (λ v. ArePairs lefts.now rights.now v.items) }
{
    let mut pairs = Vec::new(alloc);
    for i in 0..lefts.len() {
        pairs.push((lefts[i], rights[i]))?;
    }
    Ok(pairs)
}

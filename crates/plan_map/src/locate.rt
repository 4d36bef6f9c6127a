//! Which region holds a spot: by the line, the mark or the span before it.

ghost use Rattle.std.specs.Prelude.{◌≡◌, ℕ, suc, ◌+◌, ◌<◌, ◌≤◌, pos, List, [], IfSome, MatchOption, length, get_or};
ghost use Rattle.std.specs.Ordering.{int_cmp};
ghost use Rattle.plan_spec.specs.Boundary.{IsClearOf};
ghost use Rattle.plan_spec.specs.Frame.{Frame};
ghost use Rattle.plan_spec.specs.Regions.{IsIn};
ghost use Rattle.plan_spec.specs.Slabs.{InSlab, line_at, marks_of, spans_of};
ghost use Rattle.plan_spec.specs.Vector.{Vector, SameX, turn};
ghost use Rattle.plan_grid.specs.Fraction.{IsRatio};
ghost use Rattle.plan_grid.specs.Spot.{spot_seen, IsWithin};
ghost use Rattle.plan_slab.specs.Decomposition.{IsDecomposition, IsPlaced, AreInOrder};
ghost use Rattle.plan_slab.specs.EventLines.{IsXOf};
ghost use Rattle.plan_slab.specs.LineMarks.{IsYOf};
ghost use Rattle.plan_slab.specs.Seen.{lot_seen, strand_seen};
ghost use Rattle.plan_slab.specs.Subdivision.{slabs_of, regions_of, IsNumberOf};
ghost use Rattle.plan_map.specs.Located.{IsThere, IsLotOf, IsBetween, IsMarkBelow, IsSpanBelow};

use crate::map::{Map, Region};
use plan_grid::{MOST_COORDINATE, Ratio, Spot, side};
use plan_slab::{Lot, Slabs, Strand};
use std::cmp::Ordering;

impl Map {
    /// The region that holds the spot; None exactly where it is not clear. Coordinates of at most 2046 in absolute value.
    pub fn locate(&self, spot: Spot) -> Option<Region>
        requires { IsWithin MOST_COORDINATE spot }
        ensures number { IfSome result (λ r. r.number < length (regions_of self.now)) }
        ensures located { (sums : List (List Vector)) (room : Frame) → IsDecomposition sums room (slabs_of self.now) (regions_of self.now)
            → MatchOption result (¬ (IsClearOf sums room (spot_seen spot))) (λ r. IsIn (slabs_of self.now) (regions_of self.now) (spot_seen spot) r.number) }
    {
        let lot = lot_at(self.slabs(), spot)?;
        let number = number_of(self.slabs(), lot)?;
        Some(Region { number })
    }
}

// The cell or wall that holds the spot, free or not; None where there is none.
fn lot_at(slabs: &Slabs, spot: Spot) -> Option<Lot>
    requires { IsWithin MOST_COORDINATE spot }
    ensures there { IfSome result (λ lot. IsThere (slabs_of slabs.now) (lot_seen lot)) }
    ensures holds { IsPlaced (slabs_of slabs.now) → AreInOrder (slabs_of slabs.now) → IsLotOf (slabs_of slabs.now) (spot_seen spot) result }
{
    let lines = slabs.lines();
    let found = lines.binary_search(&x_of(spot));
    if let Ok(line) = found {
        return wall_at(slabs, line as u32, spot);
    }
    let slab = between(found, lines.len())?;
    cell_at(slabs, slab, spot)
}

// The wall of the line that holds the spot, which is on the line.
fn wall_at(slabs: &Slabs, line: u32, spot: Spot) -> Option<Lot>
    requires line { line < length slabs.now.lines }
    requires spot { IsWithin MOST_COORDINATE spot }
    ensures there { IfSome result (λ lot. IsThere (slabs_of slabs.now) (lot_seen lot)) }
    ensures holds { IsPlaced (slabs_of slabs.now) → SameX (spot_seen spot) (line_at (slabs_of slabs.now) line) → IsLotOf (slabs_of slabs.now) (spot_seen spot) result }
{
    let at = mark_below(slabs, line, spot)?;
    Some(Lot::Wall { line, at })
}

// The cell of the slab that holds the spot, which is in the slab.
fn cell_at(slabs: &Slabs, slab: u32, spot: Spot) -> Option<Lot>
    requires { slab + 1 < length slabs.now.lines }
    ensures there { IfSome result (λ lot. IsThere (slabs_of slabs.now) (lot_seen lot)) }
    ensures holds { IsPlaced (slabs_of slabs.now) → AreInOrder (slabs_of slabs.now) → InSlab (line_at (slabs_of slabs.now) slab) (line_at (slabs_of slabs.now) (suc slab)) (spot_seen spot) → IsLotOf (slabs_of slabs.now) (spot_seen spot) result }
{
    let at = span_below(slabs, slab, spot)?;
    Some(Lot::Cell { slab, at })
}

// The mark of the line that is strictly below the spot while the next one is strictly above it.
fn mark_below(slabs: &Slabs, line: u32, spot: Spot) -> Option<u32>
    requires line { line < length slabs.now.lines }
    requires spot { IsWithin MOST_COORDINATE spot }
    ensures there { IfSome result (λ j. suc j < length (marks_of (slabs_of slabs.now) line)) }
    ensures below { IsPlaced (slabs_of slabs.now) → IsMarkBelow (slabs_of slabs.now) line (spot_seen spot) result }
{
    let marks = slabs.marks(line);
    between(marks.binary_search(&y_of(spot)), marks.len())
}

// The span of the slab that is strictly below the spot while the next one is strictly above it.
fn span_below(slabs: &Slabs, slab: u32, spot: Spot) -> Option<u32>
    requires { slab + 1 < length slabs.now.lines }
    ensures there { IfSome result (λ i. suc i < length (spans_of (slabs_of slabs.now) slab)) }
    ensures below { IsPlaced (slabs_of slabs.now) → AreInOrder (slabs_of slabs.now) → InSlab (line_at (slabs_of slabs.now) slab) (line_at (slabs_of slabs.now) (suc slab)) (spot_seen spot) → IsSpanBelow (slabs_of slabs.now) slab (spot_seen spot) result }
{
    let spans = slabs.spans(slab);
    let found = spans.binary_search_by(|span: &Strand| height_order(*span, spot));
    between(found, spans.len())
}

// The number of that cell or wall among the regions; None where it is not free.
fn number_of(slabs: &Slabs, lot: Lot) -> Option<u32>
    requires { IsThere (slabs_of slabs.now) (lot_seen lot) }
    ensures { IsNumberOf slabs.now (lot_seen lot) result }
{
    match lot {
        Lot::Cell { slab, at } => slabs.cell(slab, at),
        Lot::Wall { line, at } => slabs.wall(line, at),
    }
}

// The number before the place where something is to be inserted into `count` others; None where it was found, or is
// before all of them or after them all.
fn between(found: Result<usize, usize>, count: usize) -> Option<u32>
    requires { count ≤ 131072 }
    ensures { MatchOption result ((k : ℕ) → ¬ (IsBetween count found k)) (IsBetween count found) }
{
    let Err(after) = found else {
        return None;
    };
    if after == 0 || after >= count {
        return None;
    }
    Some((after - 1) as u32)
}

// Less where the span is strictly below the spot, Greater where it is strictly above it.
fn height_order(span: Strand, spot: Spot) -> Ordering
    ensures { result ≡ int_cmp (pos 0) (turn (strand_seen span).a (strand_seen span).b (spot_seen spot)) }
{
    0_i128.cmp(&side(span.a, span.b, spot))
}

fn x_of(spot: Spot) -> Ratio
    requires { IsWithin MOST_COORDINATE spot }
    ensures value { IsXOf (spot_seen spot) result }
    ensures in_range { IsRatio result }
{
    Ratio::new(i128::from(spot.x), 1)
}

fn y_of(spot: Spot) -> Ratio
    requires { IsWithin MOST_COORDINATE spot }
    ensures value { IsYOf (spot_seen spot) result }
    ensures in_range { IsRatio result }
{
    Ratio::new(i128::from(spot.y), 1)
}

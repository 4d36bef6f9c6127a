ghost use Rattle.std.specs.Prelude.{◌≡◌, ◌+◌, ◌-◌, ◌<◌, [], ◌≤◌, suc, length, get_or, All, AllPairs};
ghost use Rattle.plan_spec.specs.Regions as spec;
ghost use Rattle.plan_spec.specs.Regions.{mediant, IsLot};
ghost use Rattle.plan_spec.specs.Slabs.{size, line_at};
ghost use Rattle.plan_spec.specs.Neighbours.{on_left, on_right};
ghost use Rattle.plan_slab.specs.Ends.{AreNeighbourRows};
ghost use Rattle.plan_slab.specs.EventLines.{IsLine};
ghost use Rattle.plan_slab.specs.LotOrder.{Earlier};
ghost use Rattle.plan_slab.specs.Sides.{AreLeftOf, AreRightOf};
ghost use Rattle.plan_grid.specs.Fraction.{Fraction};
ghost use Rattle.plan_slab.specs.Decomposition.{IsPlaced, AreInOrder};
ghost use Rattle.plan_slab.specs.Heights.{IsHeightOn, IsOver};
ghost use Rattle.plan_slab.specs.LotOrder.{index};
ghost use Rattle.plan_slab.specs.LotsThere.{IsThere};
ghost use Rattle.plan_slab.specs.Seen.{lot_seen};
ghost use Rattle.plan_slab.specs.Subdivision.{slabs_of, regions_of, IsNumberOf};

use crate::lot::Lot;
use crate::row::Row;
use crate::search::first_from;
use crate::strand::Strand;
use plan_grid::Ratio;
use std::marker::Model;
use std::ops::Range;

/// Slabs: event lines, the spans between them and the marks on them, and the regions, which are the free cells and the
/// free walls.
#[derive(Drop)]
pub struct Slabs {
    pub(crate) lines: Vec<Ratio>,
    pub(crate) spans: Vec<Vec<Strand>>,
    pub(crate) marks: Vec<Vec<Ratio>>,
    pub(crate) lots: Vec<Lot>,
    pub(crate) size: u32,
    pub(crate) ends: Vec<Vec<(u32, u32)>>,
    pub(crate) rows: Vec<Row>,
}

impl Model for Slabs {
    ghost use Rattle.std.specs.Prelude.{map};
    ghost use Rattle.plan_slab.specs.Subdivision.{Subdivision, IsKept};

    ghost Value = { Subdivision };

    ghost view = { λ s. record {
      lines = s.lines.items;
      spans = map (λ v. v.items) s.spans.items;
      marks = map (λ v. v.items) s.marks.items;
      lots = s.lots.items;
      size = s.size;
    } };

    ghost invariant = { λ s. IsKept (record {
      lines = s.lines.items;
      spans = map (λ v. v.items) s.spans.items;
      marks = map (λ v. v.items) s.marks.items;
      lots = s.lots.items;
      size = s.size;
    }) (map (λ v. v.items) s.ends.items) s.rows.items };
}

impl Slabs {
    /// How many spans and marks there are.
    pub fn size(&self) -> u32
        ensures value { result ≡ self.now.size }
        ensures count { result ≡ size (slabs_of self.now) }
        ensures most { result ≤ 131072 }
    {
        self.size
    }

    /// How many regions there are.
    pub fn regions(&self) -> u32
        ensures { result ≡ length (regions_of self.now) }
    {
        self.lots.len() as u32
    }

    /// The event lines, rising. A slab has the number of the line on its left.
    pub fn lines(&self) -> &[Ratio]
        ensures value { result.now ≡ self.now.lines }
        ensures count { length result.now ≤ 131072 }
        ensures each { All IsLine result.now }
    {
        &self.lines
    }

    /// The spans of a slab, from below. Its number plus one must be below the number of lines.
    pub fn spans(&self, slab: u32) -> &[Strand]
        requires { slab + 1 < length self.now.lines }
        ensures value { result.now ≡ get_or self.now.spans slab [] }
        ensures count { length result.now ≤ 131072 }
        ensures across { All (λ s. IsOver s (mediant (line_at (slabs_of self.now) slab) (line_at (slabs_of self.now) (suc slab)))) result.now }
        ensures placed { IsPlaced (slabs_of self.now) × AreInOrder (slabs_of self.now) }
    {
        &self.spans[slab as usize]
    }

    /// The marks of a line, rising.
    pub fn marks(&self, line: u32) -> &[Ratio]
        requires { line < length self.now.lines }
        ensures value { result.now ≡ get_or self.now.marks line [] }
        ensures count { length result.now ≤ 131072 }
        ensures on_line { (d : Fraction) → All (IsHeightOn (get_or self.now.lines line d)) result.now }
    {
        &self.marks[line as usize]
    }

    /// The number of the region that is the cell between the spans `at` and `at + 1`; None where it is not free.
    pub fn cell(&self, slab: u32, at: u32) -> Option<u32>
        requires slab { slab + 1 < length self.now.lines }
        requires at { at + 1 < length (get_or self.now.spans slab []) }
        ensures { IsNumberOf self.now (spec.cell slab at) result }
    {
        prove!(self.size <= 131_072);
        self.number(Lot::Cell { slab, at })
    }

    /// The number of the region that is the wall between the marks `at` and `at + 1`; None where it is not free.
    pub fn wall(&self, line: u32, at: u32) -> Option<u32>
        requires line { line < length self.now.lines }
        requires at { at + 1 < length (get_or self.now.marks line []) }
        ensures { IsNumberOf self.now (spec.wall line at) result }
    {
        prove!(self.size <= 131_072);
        self.number(Lot::Wall { line, at })
    }

    /// The numbers of the marks in which the span `at` of a slab meets the line on its left and the line on its right.
    pub fn ends(&self, slab: u32, at: u32) -> (u32, u32)
        requires slab { slab + 1 < length self.now.lines }
        requires at { at < length (get_or self.now.spans slab []) }
        ensures left { result.0 ≡ on_left (slabs_of self.now) slab at }
        ensures right { result.1 ≡ on_right (slabs_of self.now) slab at }
        ensures left_mark { result.0 < length (get_or self.now.marks slab []) }
        ensures right_mark { result.1 < length (get_or self.now.marks (slab + 1) []) }
        ensures few_lines { length self.now.lines ≤ 131072 }
        ensures few_spans { length (get_or self.now.spans slab []) ≤ 131072 }
    {
        self.ends[slab as usize][at as usize]
    }

    /// The neighbours of all regions, by number.
    pub fn rows(&self) -> &[Row]
        ensures rows { AreNeighbourRows (slabs_of self.now) (regions_of self.now) result.now }
        ensures in_order { AllPairs Earlier (regions_of self.now) }
        ensures few { length (regions_of self.now) ≤ 131072 }
    {
        &self.rows
    }

    /// The neighbours of the region on its left: of a cell the free walls in its left side, of a wall the cell.
    pub fn left_of(&self, region: u32) -> Range<u32>
        requires { region < length (regions_of self.now) }
        ensures { AreLeftOf (slabs_of self.now) (regions_of self.now) region result.start result.end }
    {
        let row = &self.rows[region as usize];
        row.left.start..row.left.end
    }

    /// The neighbours of the region on its right.
    pub fn right_of(&self, region: u32) -> Range<u32>
        requires { region < length (regions_of self.now) }
        ensures { AreRightOf (slabs_of self.now) (regions_of self.now) region result.start result.end }
    {
        let row = &self.rows[region as usize];
        row.right.start..row.right.end
    }

    /// The cell or wall that is the region of that number.
    pub fn lot_of(&self, region: u32) -> Lot
        requires { region < length (regions_of self.now) }
        ensures value { lot_seen result ≡ spec.region_at (regions_of self.now) region }
        ensures lot { IsLot (slabs_of self.now) (lot_seen result) }
        ensures slab_count { length self.now.spans ≡ length self.now.lines - 1 }
        ensures there { IsThere self.now (lot_seen result) }
    {
        self.lots[region as usize]
    }

    // The number of the region that is this cell or wall, by a binary search; None where it is none.
    fn number(&self, lot: Lot) -> Option<u32>
        requires { index (lot_seen lot) < 131072 }
        ensures { IsNumberOf self.now (lot_seen lot) result }
    {
        let at = first_from(&self.lots, lot.key());
        if at < self.lots.len() && self.lots[at].is(lot) {
            return Some(at as u32);
        }
        None
    }
}

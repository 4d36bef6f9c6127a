//! The point of a region.

ghost use Rattle.std.specs.Prelude.{◌≡◌, pos, ◌+ℤ◌, ◌-ℤ◌, ◌*ℤ◌, ◌<◌, ◌≤◌, ◌^◌, length, unsigned_abs};
ghost use Rattle.plan_spec.specs.Regions as spec;
ghost use Rattle.plan_spec.specs.Vector.{Same};
ghost use Rattle.plan_grid.specs.Bounds.{IsBounded, IsInRange};
ghost use Rattle.plan_grid.specs.Fraction.{point_at};
ghost use Rattle.plan_slab.specs.EventLines.{IsLine};
ghost use Rattle.plan_slab.specs.Heights.{IsOver, IsHeightOn};
ghost use Rattle.plan_slab.specs.Seen.{line_seen, strand_seen};
ghost use Rattle.plan_slab.specs.Subdivision.{slabs_of, regions_of};

use crate::map::{Map, Region};
use plan_convex::Triple;
use plan_exact::Whole;
use plan_grid::{MOST_COORDINATE, MOST_WEIGHT, Point, Ratio, middle};
use plan_slab::{Lot, Strand, foot, mediant_of};

impl Map {
    /// The point of a region: of a cell halfway between its two spans at the mediant of its lines, of a wall halfway
    /// between its two marks. It must be a region of this map.
    pub fn spot_of(&self, region: Region) -> Point
        requires { region.number < length (regions_of self.now) }
        ensures same { Same result (spec.spot_of (slabs_of self.now) (spec.region_at (regions_of self.now) region.number)) }
        ensures in_range { IsInRange result }
    {
        let slabs = self.slabs();
        let lines = slabs.lines();
        match slabs.lot_of(region.number) {
            Lot::Cell { slab, at } => {
                let spans = slabs.spans(slab);
                cell_point(
                    lines[slab as usize],
                    lines[slab as usize + 1],
                    spans[at as usize],
                    spans[at as usize + 1],
                )
            }
            Lot::Wall { line, at } => {
                let marks = slabs.marks(line);
                wall_point(
                    lines[line as usize],
                    marks[at as usize],
                    marks[at as usize + 1],
                )
            }
        }
    }
}

// The point halfway between two spans at the mediant of two lines.
fn cell_point(left: Ratio, right: Ratio, low: Strand, high: Strand) -> Point
    requires left { IsLine left }
    requires right { IsLine right }
    requires low { IsOver low (spec.mediant (line_seen left) (line_seen right)) }
    requires high { IsOver high (spec.mediant (line_seen left) (line_seen right)) }
    ensures same { Same result (spec.cell_spot (line_seen left) (line_seen right) (strand_seen low) (strand_seen high)) }
    ensures in_range { IsInRange result }
{
    between(low, high, mediant_of(left, right))
}

// The point halfway between two marks of a line.
fn wall_point(line: Ratio, low: Ratio, high: Ratio) -> Point
    requires line { IsLine line }
    requires low { IsHeightOn line low }
    requires high { IsHeightOn line high }
    ensures same { Same result (spec.halfway (point_at line low) (point_at line high)) }
    ensures in_range { IsInRange result }
{
    Point::at(line, middle(low, high))
}

// The point halfway between two spans at the x of `z`.
fn between(low: Strand, high: Strand, z: Triple) -> Point
    requires low { IsOver low z }
    requires high { IsOver high z }
    requires bounded { IsBounded (2 ^ 26) z }
    ensures same { Same result (spec.halfway (spec.foot (strand_seen low) z) (spec.foot (strand_seen high) z)) }
    ensures in_range { IsInRange result }
{
    let p = run(low);
    let q = run(high);
    point(
        doubled(z.x, p, q),
        summed(foot(low, z).y, q, foot(high, z).y, p),
        doubled(z.w, p, q),
    )
}

// How far the span runs from left to right.
fn run(s: Strand) -> Whole
    requires a_bounded { unsigned_abs s.a.x ≤ MOST_COORDINATE }
    requires b_bounded { unsigned_abs s.b.x ≤ MOST_COORDINATE }
    ensures value { result ≡ s.b.x -ℤ s.a.x }
    ensures size { unsigned_abs result ≤ 4092 }
{
    Whole::from(s.b.x).minus(Whole::from(s.a.x))
}

// Twice the product.
fn doubled(a: Whole, p: Whole, q: Whole) -> Whole
    requires a { unsigned_abs a ≤ 2 ^ 37 }
    requires p { unsigned_abs p ≤ 4092 }
    requires q { unsigned_abs q ≤ 4092 }
    ensures { result ≡ pos 2 *ℤ (a *ℤ (p *ℤ q)) }
{
    Whole::from(2).times(a.times(p.times(q)))
}

// The sum of two products.
fn summed(u: Whole, q: Whole, v: Whole, p: Whole) -> Whole
    requires u { unsigned_abs u ≤ 2 ^ 49 }
    requires v { unsigned_abs v ≤ 2 ^ 49 }
    requires p { unsigned_abs p ≤ 4092 }
    requires q { unsigned_abs q ≤ 4092 }
    ensures { result ≡ u *ℤ q +ℤ v *ℤ p }
{
    u.times(q).plus(v.times(p))
}

// The point at (`x / w`, `y / w`).
fn point(x: Whole, y: Whole, w: Whole) -> Point
    requires { IsBounded MOST_WEIGHT (record { x = x; y = y; w = w }) }
    ensures same { Same result (record { x = x; y = y; w = w }) }
    ensures in_range { IsInRange result }
{
    Point::new(x.get() as i64, y.get() as i64, w.get() as i64).unwrap()
}

//! The ring of a component.

ghost use Rattle.std.specs.Prelude.{◌≡◌, ◌+◌, ◌-◌, ◌<◌, ◌≤◌, [], ◌∷◌, length, get_or, All, IfOk, OnOk};
ghost use Rattle.plan_spec.specs.Segment.{segment};
ghost use Rattle.plan_spec.specs.Vector.{Same};
ghost use Rattle.plan_grid.specs.Bounds.{IsInRange};
ghost use Rattle.plan_cross.specs.Segment.{segment_seen};
ghost use Rattle.plan_spec.specs.Regions.{region_at, cell};
ghost use Rattle.plan_spec.specs.Rings.{closed_parts, kept};
ghost use Rattle.plan_spec.specs.Slabs.{mark_at};
ghost use Rattle.plan_ring.specs.Grown.{IsLowestAt, HasAdded, IsRingOf, closed_part};
ghost use Rattle.plan_slab.specs.Subdivision.{slabs_of, regions_of};

use crate::no_memory::NoMemory;
use plan_cross::{Chain, Segment};
use plan_grid::Point;
use plan_map::{Map, Region};
use plan_slab::{Lot, Slabs};
use std::alloc::{AllocError, Global};

/// The ring of the component of a region: of each of its cells, by number, its lower side, the parts of its right side
/// that are no free walls, from below, its upper side, and those parts of its left side. Each segment is given with its
/// lesser end first. It must be a region of this map.
pub fn ring(alloc: Global, map: &Map, region: Region) -> Result<Chain, NoMemory>
    requires { region.number < length (regions_of map.now) }
    ensures ring { IfOk result (IsRingOf (slabs_of map.now) (regions_of map.now) region.number) }
    ensures in_range { IfOk result (λ chain. All (λ s. IsInRange s.a × IsInRange s.b) chain) }
{
    let component = map.component(alloc, region)?;
    let mut segments = Vec::new(alloc);
    for &number in &component {
        keep(&mut segments, map.slabs(), number)?;
    }
    Ok(Chain { segments })
}

// Adds what is kept of a region: of a cell its sides, of a wall nothing.
fn keep(segments: &mut Vec<Segment>, slabs: &Slabs, region: u32) -> Result<(), AllocError>
    requires { region < length (regions_of slabs.now) }
    ensures { OnOk result (HasAdded segments.old.items segments.new.items (kept (slabs_of slabs.now) (regions_of slabs.now) (region_at (regions_of slabs.now) region))) }
{
    match slabs.lot_of(region) {
        Lot::Cell { slab, at } => keep_cell(segments, slabs, slab, at),
        Lot::Wall { .. } => Ok(()),
    }
}

// Adds the lower side, the closed parts of the right side, the upper side, and the closed parts of the left side.
fn keep_cell(
    segments: &mut Vec<Segment>,
    slabs: &Slabs,
    slab: u32,
    at: u32,
) -> Result<(), AllocError>
    requires slab { slab + 1 < length slabs.now.lines }
    requires at { at + 1 < length (get_or slabs.now.spans slab []) }
    ensures { OnOk result (HasAdded segments.old.items segments.new.items (kept (slabs_of slabs.now) (regions_of slabs.now) (cell slab at))) }
{
    let (left, right) = slabs.ends(slab, at);
    let (upper_left, upper_right) = slabs.ends(slab, at + 1);
    segments.push(side(slabs, slab, left, right))?;
    keep_parts(segments, slabs, slab + 1, right, upper_right)?;
    segments.push(side(slabs, slab, upper_left, upper_right))?;
    keep_parts(segments, slabs, slab, left, upper_left)?;
    Ok(())
}

// From a mark of the line on the left of a slab to one of the line on its right.
fn side(slabs: &Slabs, slab: u32, left: u32, right: u32) -> Segment
    requires slab { slab + 1 < length slabs.now.lines }
    requires low { left < length (get_or slabs.now.marks slab []) }
    requires high { right < length (get_or slabs.now.marks (slab + 1) []) }
    ensures { IsLowestAt (segment_seen result) (segment (mark_at (slabs_of slabs.now) slab left) (mark_at (slabs_of slabs.now) (slab + 1) right)) }
{
    prove!(slabs.lines().len() <= 131_072);
    Segment {
        a: mark(slabs, slab, left),
        b: mark(slabs, slab + 1, right),
    }
}

// Adds the parts of a line from one mark to another that are no free walls.
fn keep_parts(
    segments: &mut Vec<Segment>,
    slabs: &Slabs,
    line: u32,
    from: u32,
    to: u32,
) -> Result<(), AllocError>
    requires line { line < length slabs.now.lines }
    requires to { to < length (get_or slabs.now.marks line []) }
    ensures { OnOk result (HasAdded segments.old.items segments.new.items (closed_parts (slabs_of slabs.now) (regions_of slabs.now) line from (to - from))) }
{
    for at in from..to {
        keep_part(segments, slabs, line, at)?;
    }
    Ok(())
}

// Adds the part of a line above a mark, unless it is a free wall.
fn keep_part(
    segments: &mut Vec<Segment>,
    slabs: &Slabs,
    line: u32,
    at: u32,
) -> Result<(), AllocError>
    requires line { line < length slabs.now.lines }
    requires at { at + 1 < length (get_or slabs.now.marks line []) }
    ensures { OnOk result (HasAdded segments.old.items segments.new.items (closed_part (slabs_of slabs.now) (regions_of slabs.now) line at)) }
{
    if let Some(_) = slabs.wall(line, at) {
        return Ok(());
    }
    prove!(slabs.marks(line).len() <= 131_072);
    let a = mark(slabs, line, at);
    let b = mark(slabs, line, at + 1);
    segments.push(Segment { a, b })?;
    Ok(())
}

// The point of a mark.
fn mark(slabs: &Slabs, line: u32, at: u32) -> Point
    requires line { line < length slabs.now.lines }
    requires at { at < length (get_or slabs.now.marks line []) }
    ensures same { Same result (mark_at (slabs_of slabs.now) line at) }
    ensures in_range { IsInRange result }
{
    let x = slabs.lines()[line as usize];
    let y = slabs.marks(line)[at as usize];
    Point::at(x, y)
}

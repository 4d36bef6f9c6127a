ghost use Rattle.std.specs.Prelude.{◌≡◌, ◌≤◌, length, map, IfOk, IfErr};
ghost use Rattle.std.specs.List.{flat_map};
ghost use Rattle.plan_spec.specs.Pieces.{IsBoundaryOf};
ghost use Rattle.plan_spec.specs.Regions.{AreRegions};
ghost use Rattle.plan_grid.specs.Frame.{frame_seen};
ghost use Rattle.plan_grid.specs.Spot.{IsWithin};
ghost use Rattle.plan_convex.specs.Piece.{sums_seen};
ghost use Rattle.plan_slab.specs.FreeLots.{AreRows};
ghost use Rattle.plan_slab.specs.Laws.{AreSlabsOf};
ghost use Rattle.plan_slab.specs.Near.{AreBoxes, AreWithin};
ghost use Rattle.plan_slab.specs.Seen.{lot_seen};
ghost use Rattle.plan_slab.specs.SlabsSeen.{slabs_seen};
ghost use Rattle.plan_slab.specs.Subdivision.{slabs_of, regions_of};
ghost use Rattle.plan_slab.specs.Sweeps.{AreTooMany};
ghost use Rattle.plan_slab.specs.declared.fault.SlabFault.TheVariants.{TooManyRegions};

use crate::ends::ends_of;
use crate::fault::SlabFault;
use crate::free::free_lots;
use crate::lines::lines_of;
use crate::lot::Lot;
use crate::near::boxes_of;
use crate::neighbours::rows_of;
use crate::slabs::Slabs;
use crate::strand::Strand;
use crate::sweep::sweep;
use plan_convex::{Convex, Pieces};
use plan_grid::{Frame, MOST_COORDINATE, Ratio};
use std::alloc::{AllocError, Global};
use std::thread::Threads;

// The most workers that share the tests of what is free.
const MOST_WORKERS: u8 = 16;

impl Slabs {
    /// The slabs and regions of the pieces that at most 512 sums and the room leave. Too many are more than 131,072 spans
    /// and marks.
    pub fn build(
        rt: &(impl Threads + Sync),
        alloc: Global,
        pieces: &Pieces,
        sums: &[Convex],
        room: Frame,
    ) -> Result<Slabs, SlabFault>
        requires sums { length sums.now ≤ 512 }
        requires low { IsWithin MOST_COORDINATE room.low }
        requires high { IsWithin MOST_COORDINATE room.high }
        requires bound { IsBoundaryOf (sums_seen sums.now) (frame_seen room) pieces.now }
        ensures slabs { IfOk result (λ s. AreSlabsOf (sums_seen sums.now) (frame_seen room) pieces.now (slabs_of s)) }
        ensures regions { IfOk result (λ s. AreRegions (sums_seen sums.now) (frame_seen room) (slabs_of s) (regions_of s)) }
        ensures many { IfErr result (λ e. e ≡ TooManyRegions → AreTooMany (sums_seen sums.now) (frame_seen room) pieces.now) }
    {
        Slabs::build_by(rt, alloc, pieces, sums, room, MOST_WORKERS)
    }

    /// The same, where at most `workers` threads share the tests of what is free.
    pub fn build_by(
        rt: &(impl Threads + Sync),
        alloc: Global,
        pieces: &Pieces,
        sums: &[Convex],
        room: Frame,
        workers: u8,
    ) -> Result<Slabs, SlabFault>
        requires sums { length sums.now ≤ 512 }
        requires low { IsWithin MOST_COORDINATE room.low }
        requires high { IsWithin MOST_COORDINATE room.high }
        requires bound { IsBoundaryOf (sums_seen sums.now) (frame_seen room) pieces.now }
        ensures slabs { IfOk result (λ s. AreSlabsOf (sums_seen sums.now) (frame_seen room) pieces.now (slabs_of s)) }
        ensures regions { IfOk result (λ s. AreRegions (sums_seen sums.now) (frame_seen room) (slabs_of s) (regions_of s)) }
        ensures many { IfErr result (λ e. e ≡ TooManyRegions → AreTooMany (sums_seen sums.now) (frame_seen room) pieces.now) }
    {
        if pieces.list.len() > u32::MAX as usize {
            return Err(SlabFault::NoMemory);
        }
        let boxes = boxes_of(alloc, sums)?;
        let lines = lines_of(alloc, &pieces.list)?;
        let rows = sweep(alloc, &pieces.list, sums, room, &lines)?;
        let lots = free_regions(
            rt,
            alloc,
            sums,
            &boxes,
            room,
            &lines,
            &rows.spans,
            &rows.marks,
            workers,
        )?;
        let ends = ends_of(alloc, &lines, &rows.spans, &rows.marks)?;
        let beside = rows_of(alloc, &lots, &ends)?;
        Ok(Slabs {
            lines,
            spans: rows.spans,
            marks: rows.marks,
            lots,
            size: rows.size as u32,
            ends,
            rows: beside,
        })
    }
}

// The regions by number.
fn free_regions(
    rt: &(impl Threads + Sync),
    alloc: Global,
    sums: &[Convex],
    boxes: &[Frame],
    room: Frame,
    lines: &[Ratio],
    spans: &[Vec<Strand>],
    marks: &[Vec<Ratio>],
    workers: u8,
) -> Result<Vec<Lot>, AllocError>
    requires boxes { AreBoxes sums.now boxes.now }
    requires room { AreWithin room }
    requires rows { AreRows lines.now (map (λ v. v.items) spans.now) (map (λ v. v.items) marks.now) }
    ensures { IfOk result (λ v. AreRegions (sums_seen sums.now) (frame_seen room)
        (slabs_seen lines.now (map (λ w. w.items) spans.now) (map (λ w. w.items) marks.now)) (map lot_seen v.items)) }
{
    let lists = free_lots(rt, alloc, sums, boxes, room, lines, spans, marks, workers)?;
    let regions = joined(alloc, &lists)?;
    Ok(regions)
}

// The lists one after another.
fn joined(alloc: Global, lists: &[Vec<Lot>]) -> Result<Vec<Lot>, AllocError>
    ensures { IfOk result (λ v. v.items ≡ flat_map (λ w. w.items) lists.now) }
{
    let mut all = Vec::new(alloc);
    for i in 0..lists.len() {
        all.extend_from_slice(&lists[i])?;
    }
    Ok(all)
}

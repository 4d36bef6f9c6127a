ghost use Rattle.std.specs.Prelude.{◌≡◌, ◌<◌, ◌≤◌, ◌^◌, length, IfOk};
ghost use Rattle.std.specs.List.{AllZip, flat_map, range_with_len};
ghost use Rattle.plan_spec.specs.Boundary.{boundary};
ghost use Rattle.plan_spec.specs.Pieces.{IsBoundaryOf};
ghost use Rattle.plan_grid.specs.Frame.{frame_seen};
ghost use Rattle.plan_grid.specs.Spot.{IsWithin};
ghost use Rattle.plan_convex.specs.Piece.{sums_seen};
ghost use Rattle.plan_bound.specs.Cover.{AreBoxes};
ghost use Rattle.plan_bound.specs.Pieces.{ArePiecesOf};

use crate::boxes::boxes_of;
use crate::edge_pieces::pieces_of;
use crate::no_memory::NoMemory;
use plan_convex::{Convex, Piece, Pieces, edge_count};
use plan_grid::{Frame, MOST_COORDINATE};
use plan_watch::Gate;
use rayon::prelude::*;
use std::alloc::{AllocError, Global};
use std::thread::Threads;

/// The uncovered pieces of the edges of the sums and of the sides of the room, by the number of the edge, then along
/// it: for at most 512 sums. A room without width or without height has none. At most `workers` threads, 1 to 16, share
/// the edges; the list does not depend on them. The gate is not passed yet: no edge is drawn. Each edge is clipped at
/// each sum whose box it meets, and what they cover of it is sorted.
pub fn uncovered(
    rt: &(impl Threads + Sync),
    alloc: Global,
    sums: &[Convex],
    room: Frame,
    workers: u8,
    _gate: &impl Gate,
) -> Result<Pieces, NoMemory>
    requires sums { length sums.now ≤ 512 }
    requires low { IsWithin MOST_COORDINATE room.low }
    requires high { IsWithin MOST_COORDINATE room.high }
    requires at_least_one { 1 ≤ workers }
    requires at_most_16 { workers ≤ 16 }
    ensures { IfOk result (λ p. IsBoundaryOf (sums_seen sums.now) (frame_seen room) p) }
{
    let boxes = boxes_of(alloc, sums)?;
    let count = edge_count(sums);
    let least = (count / (workers as u32 + 1)) as usize + 1;
    let lists = by_edge(rt, alloc, sums, &boxes, room, count, least)?;
    let list = joined(alloc, &lists)?;
    Ok(Pieces { list })
}

// The pieces of each edge, where a thread takes at least that many edges.
fn by_edge(
    rt: &(impl Threads + Sync),
    alloc: Global,
    sums: &[Convex],
    boxes: &[Frame],
    room: Frame,
    count: u32,
    least: usize,
) -> Result<Vec<Vec<Piece>>, AllocError>
    requires count { count ≡ length (boundary (sums_seen sums.now) (frame_seen room)) }
    requires low { IsWithin MOST_COORDINATE room.low }
    requires high { IsWithin MOST_COORDINATE room.high }
    requires boxes { AreBoxes sums.now boxes.now }
    ensures { IfOk result (λ v. AllZip (λ edge ps. ArePiecesOf (sums_seen sums.now) (frame_seen room) edge ps.items)
        (range_with_len 0 count) v.items) }
{
    (0..count)
        .into_par_iter()
        .with_min_len(least)
        .map(
            |edge: u32| -> Result<Vec<Piece>, AllocError>
                requires edge { edge < length (boundary (sums_seen sums.now) (frame_seen room)) }
                requires low { IsWithin MOST_COORDINATE room.low }
                requires high { IsWithin MOST_COORDINATE room.high }
                requires boxes { AreBoxes sums.now boxes.now }
                ensures { IfOk result (λ v. ArePiecesOf (sums_seen sums.entry.now) (frame_seen room) edge v.items) }
            { pieces_of(alloc, sums, boxes, room, edge) },
        )
        .collect::<Result<Vec<Vec<Piece>>, AllocError>>(rt, alloc)?
}

// The lists one after another.
fn joined(alloc: Global, lists: &[Vec<Piece>]) -> Result<Vec<Piece>, AllocError>
    ensures { IfOk result (λ v. v.items ≡ flat_map (λ l. l.items) lists.now) }
{
    let mut all = Vec::new(alloc);
    for list in lists {
        all.extend_from_slice(list)?;
    }
    Ok(all)
}

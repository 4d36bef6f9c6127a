ghost use Rattle.std.specs.Prelude.{◌<◌, ◌^◌, ◌↔◌, length, map, All, IfOk, MatchOption, IsTrue};
ghost use Rattle.plan_spec.specs.Vector.{Vector};
ghost use Rattle.plan_spec.specs.Segment.{HasPoints};
ghost use Rattle.plan_spec.specs.Placement.{Scene};
ghost use Rattle.plan_spec.specs.Reply.{IsFlat, IsTight, IsFirstChainFault};
ghost use Rattle.plan_grid.specs.Frame.{frame_seen};
ghost use Rattle.plan_grid.specs.Spot.{spot_seen, IsWithin};
ghost use Rattle.plan_cross.specs.Segment.{segment_seen};
ghost use Rattle.plan_convex.specs.Piece.{sums_seen};
ghost use Rattle.plan_check.specs.Boxes.{AreBoxes};
ghost use Rattle.plan_check.specs.Fault.{fault_seen};
ghost use Rattle.plan_check.specs.Touching.{IsToldBy, IsProperAndTight};
ghost use Rattle.plan_check.specs.Verdict.{IsChainVerdict, BlocksWhereValid};

use crate::fault::CheckFault;
use crate::no_memory::NoMemory;
use crate::room::are_beyond_one_side;
use crate::sums::one_holds;
use crate::verdict::Verdict;
use plan_convex::Convex;
use plan_cross::{Chain, Query, Segment, first_unclosed, parity};
use plan_grid::{Frame, MOST_COORDINATE};
use std::alloc::Global;

/// Whether the chain is closed, odd at the start and even at the goal, and each of its segments has two different ends
/// in one of the sums, or on or beyond one side of the room; else its first fault. Where the sums and the room tell what
/// touches, a valid chain blocks the start from the goal. Start and goal have coordinates of at most 2046, and the chain
/// has fewer than 2^32 segments. Beside the sums it takes n log n steps for n segments.
pub fn check_chain(
    alloc: Global,
    sums: &[Convex],
    boxes: &[Frame],
    room: Frame,
    query: Query,
    chain: &Chain,
) -> Result<Verdict, NoMemory>
    requires boxes { AreBoxes sums.now boxes.now }
    requires start { IsWithin MOST_COORDINATE query.start }
    requires goal { IsWithin MOST_COORDINATE query.goal }
    requires few { length chain.now < 2 ^ 32 }
    ensures points { IfOk result (λ _. All HasPoints chain.now) }
    ensures verdict { IfOk result (IsChainVerdict (IsTight (sums_seen sums.now) (frame_seen room))
        (spot_seen query.start) (spot_seen query.goal) chain.now) }
    ensures blocks { (scene : Scene) → IsToldBy scene (sums_seen sums.now) (frame_seen room)
        → IfOk result (BlocksWhereValid scene (spot_seen query.start) (spot_seen query.goal) chain.now) }
{
    let unclosed = first_unclosed(alloc, chain)?;
    if let Some(fault) = first_unsound(sums, boxes, room, chain.segments.as_slice()) {
        return Ok(Verdict::Invalid(fault));
    }
    if let Some(k) = unclosed {
        return Ok(Verdict::Invalid(CheckFault::Unclosed(k)));
    }
    if !parity(chain.segments.as_slice(), query.start) {
        return Ok(Verdict::Invalid(CheckFault::StartEven));
    }
    if parity(chain.segments.as_slice(), query.goal) {
        return Ok(Verdict::Invalid(CheckFault::GoalOdd));
    }
    Ok(Verdict::Valid)
}

// The fault of the first segment that is flat or loose.
fn first_unsound(
    sums: &[Convex],
    boxes: &[Frame],
    room: Frame,
    segments: &[Segment],
) -> Option<CheckFault>
    requires boxes { AreBoxes sums.now boxes.now }
    requires few { length segments.now < 2 ^ 32 }
    ensures { (s g : Vector) → MatchOption result
        (All (IsProperAndTight (sums_seen sums.now) (frame_seen room)) (map segment_seen segments.now))
        (λ fault. IsFirstChainFault (IsTight (sums_seen sums.now) (frame_seen room)) s g
        (map segment_seen segments.now) (fault_seen fault)) }
{
    for k in 0..segments.len() {
        let segment = &segments[k];
        if is_flat(segment) {
            return Some(CheckFault::Flat(k as u32));
        }
        if !is_tight(sums, boxes, room, segment) {
            return Some(CheckFault::Loose(k as u32));
        }
    }
    None
}

// Whether the ends are one point.
fn is_flat(segment: &Segment) -> bool
    ensures flat { IsTrue result ↔ IsFlat (segment_seen segment.now) }
    ensures points { HasPoints (segment_seen segment.now) }
{
    prove!(segment.a.w() > 0);
    prove!(segment.b.w() > 0);
    segment.a == segment.b
}

// Whether both ends are in one sum, or on or beyond one side of the room.
fn is_tight(sums: &[Convex], boxes: &[Frame], room: Frame, segment: &Segment) -> bool
    requires { AreBoxes sums.now boxes.now }
    ensures { IsTrue result
        ↔ IsTight (sums_seen sums.now) (frame_seen room) (segment_seen segment.now) }
{
    if are_beyond_one_side(room, &segment.a, &segment.b) {
        return true;
    }
    one_holds(sums, boxes, &segment.a, &segment.b)
}

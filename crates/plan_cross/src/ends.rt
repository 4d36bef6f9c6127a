ghost use Rattle.std.specs.Prelude.{◌≡◌, ◌↔◌, IsTrue, IfOk, All, AllPairs, Any, [], ◌∷◌, ◌++◌, map, true};
ghost use Rattle.plan_spec.specs.Vector.{Vector, IsPoint, Same};
ghost use Rattle.plan_spec.specs.Segment.{HasPoints};
ghost use Rattle.plan_spec.specs.Chain.{odd_end};
ghost use Rattle.plan_cross.specs.Segment.{segment_seen};
ghost use Rattle.plan_cross.specs.Ends.{ends, unpaired, Rises, AreOddEnds};

use crate::segment::Segment;
use plan_grid::Point;
use std::alloc::{AllocError, Global};

/// The points that are ends of the segments an odd number of times, rising, each once.
pub fn odd_ends(alloc: Global, segments: &[Segment]) -> Result<Vec<Point>, AllocError>
    ensures { IfOk result (λ found. AreOddEnds (map segment_seen segments.now) found.items) }
{
    let mut ends = ends_of(alloc, segments)?;
    ends.sort_unstable();
    unpaired(alloc, &ends)
}

/// Whether the point stands in the list, which rises.
pub fn stands_in(points: &[Point], p: &Point) -> bool
    requires rises { Rises points.now }
    requires points { All IsPoint points.now }
    ensures { IsTrue result ↔ Any (λ q. Same q p.now) points.now }
{
    prove!(p.w() > 0);
    points.binary_search(p).is_ok()
}

// The two ends of each segment, in the order of the segments.
fn ends_of(alloc: Global, segments: &[Segment]) -> Result<Vec<Point>, AllocError>
    ensures value { IfOk result (λ found. found.items ≡ ends (map segment_seen segments.now)) }
    ensures points { IfOk result (λ found. All IsPoint found.items) }
{
    let mut found = Vec::with_capacity(alloc, 2 * segments.len())?;
    for segment in segments {
        push_ends(&mut found, segment)?;
    }
    Ok(found)
}

// Puts the two ends of the segment behind the points.
fn push_ends(found: &mut Vec<Point>, segment: &Segment) -> Result<(), AllocError>
    ensures value { IfOk result (λ _. found.new.items ≡ (found.old.items ++ segment.now.a ∷ []) ++ segment.now.b ∷ []) }
    ensures points { IfOk result (λ _. HasPoints (segment_seen segment.now)) }
{
    prove!(segment.a.w() > 0);
    prove!(segment.b.w() > 0);
    found.push(segment.a)?;
    found.push(segment.b)?;
    Ok(())
}

// What is left of a sorted list when pairs of one position are taken out.
fn unpaired(alloc: Global, ends: &[Point]) -> Result<Vec<Point>, AllocError>
    ensures { IfOk result (λ found. found.items ≡ unpaired ends.now) }
{
    let mut found = Vec::new(alloc);
    let mut left = ends;
    while let [a, b, rest @ ..] = left {
        if a == b {
            left = rest;
        } else {
            found.push(*a)?;
            left = &left[1..];
        }
    }
    found.extend_from_slice(left)?;
    Ok(found)
}

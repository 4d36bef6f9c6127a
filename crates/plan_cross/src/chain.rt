ghost use Rattle.std.specs.Prelude.{◌↔◌, ◌<◌, ◌^◌, length, map, All, IsTrue, IfOk, MatchOption};
ghost use Rattle.plan_spec.specs.Vector.{IsPoint};
ghost use Rattle.plan_spec.specs.Segment.{HasPoints};
ghost use Rattle.plan_spec.specs.Chain.{IsClosed};
ghost use Rattle.plan_spec.specs.Reply.{HasOddEnd, IsFirst};
ghost use Rattle.plan_cross.specs.Segment.{segment_seen};
ghost use Rattle.plan_cross.specs.Ends.{EndsIn, Rises};

use crate::ends::{odd_ends, stands_in};
use crate::no_memory::NoMemory;
use crate::segment::Segment;
use plan_grid::Point;
use std::alloc::Global;
use std::marker::Model;

/// A list of segments, which need not be one loop.
///
/// Contracts see a chain as the list of its segments, each by its two ends, and so compare it with a list that a
/// definition gives: a plain struct would be seen with its vector's capacity.
#[derive(Debug, Drop)]
pub struct Chain {
    pub segments: Vec<Segment>,
}

impl Model for Chain {
    ghost use Rattle.std.specs.Prelude.{List, map};
    ghost use Rattle.plan_spec.specs.Segment as spec;
    ghost use Rattle.plan_cross.specs.Segment.{segment_seen};

    ghost Value = { List spec.Segment };

    ghost view = { λ c. map segment_seen c.segments.items };
}

/// Whether every point is an end of the chain's segments an even number of times. Takes n log n steps for n segments,
/// and memory for the list of their ends.
pub fn closed(alloc: Global, chain: &Chain) -> Result<bool, NoMemory>
    ensures { IfOk result (λ b. IsTrue b ↔ IsClosed chain.now) }
{
    let odd = odd_ends(alloc, &chain.segments)?;
    Ok(odd.is_empty())
}

/// The number of the first segment with an end that is an end of the chain's segments an odd number of times; None
/// exactly where the chain is closed. The chain has fewer than 2^32 segments. Takes n log n steps for n segments, and
/// memory for the list of their ends.
pub fn first_unclosed(alloc: Global, chain: &Chain) -> Result<Option<u32>, NoMemory>
    requires { length chain.now < 2 ^ 32 }
    ensures first { IfOk result (λ first. MatchOption first (IsClosed chain.now)
        (IsFirst (HasOddEnd chain.now) (λ s. ¬ (HasOddEnd chain.now s)) chain.now)) }
    ensures points { IfOk result (λ _. All HasPoints chain.now) }
{
    let odd = odd_ends(alloc, &chain.segments)?;
    Ok(first_ending_in(&odd, &chain.segments))
}

// The number of the first segment with an end in the list, which rises.
fn first_ending_in(points: &[Point], segments: &[Segment]) -> Option<u32>
    requires few { length segments.now < 2 ^ 32 }
    requires rises { Rises points.now }
    requires points { All IsPoint points.now }
    ensures { MatchOption result (All (λ s. ¬ (EndsIn points.now s)) (map segment_seen segments.now))
        (IsFirst (EndsIn points.now) (λ s. ¬ (EndsIn points.now s)) (map segment_seen segments.now)) }
{
    for k in 0..segments.len() {
        if ends_in(points, &segments[k]) {
            return Some(k as u32);
        }
    }
    None
}

// Whether the segment has an end in the list, which rises.
fn ends_in(points: &[Point], segment: &Segment) -> bool
    requires rises { Rises points.now }
    requires points { All IsPoint points.now }
    ensures { IsTrue result ↔ EndsIn points.now (segment_seen segment.now) }
{
    stands_in(points, &segment.a) || stands_in(points, &segment.b)
}

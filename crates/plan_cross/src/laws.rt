//! The parity laws of closed chains. Each function does nothing: its contract is the law.

ghost use Rattle.plan_cross.specs.Laws.{TwoSegments, OneSegment, ClosedChain, RouteBetween, Blocked};

/// Two segments without a common point do not change places.
pub fn two_segments()
    ensures { TwoSegments }
{}

/// Along a segment, parity changes by the ends of the others that lie above it.
pub fn one_segment()
    ensures { OneSegment }
{}

/// Along a segment that misses a closed chain, parity does not change.
pub fn closed_chain()
    ensures { ClosedChain }
{}

/// A route between points of different parity has a point of the closed chain.
pub fn route()
    ensures { RouteBetween }
{}

/// A closed chain that is held, odd at the start and even at the goal, leaves no clear polyline between the two.
pub fn blocked()
    ensures { Blocked }
{}

//! The laws of replies. The functions do nothing: their contracts are the laws.

ghost use Rattle.plan_reply.specs.Laws.{OneKind, SameRing};

/// Of clear start and goal exactly one of a clear polyline and a blocking chain exists, in each scene with a map.
pub fn one_kind()
    ensures { OneKind }
{}

/// A chain that is given for a start is given for each other start of its component, whatever the goal outside it.
pub fn same_ring()
    ensures { SameRing }
{}

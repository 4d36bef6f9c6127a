//! The laws of checked certificates. Each function does nothing: its contract is the law.

ghost use Rattle.plan_check.specs.Laws.{AcceptedBlocks, NotBoth, OneFirstFault, AcceptedOrFault};

/// An accepted chain blocks the start from the goal: every route between the two has a point of it, and no clear
/// polyline leads from the one to the other.
pub fn accepted_blocks()
    ensures { AcceptedBlocks }
{}

/// No chain and no path are both accepted for one query.
pub fn not_both()
    ensures { NotBoth }
{}

/// No path has two first faults, and no chain has.
pub fn one_first_fault()
    ensures { OneFirstFault }
{}

/// No accepted path and no accepted chain has a fault.
pub fn accepted_or_fault()
    ensures { AcceptedOrFault }
{}

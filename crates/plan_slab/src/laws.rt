//! The laws of slabs and regions. The functions do nothing: their contracts are the laws.

ghost use Rattle.plan_slab.specs.Laws.{OneOrder, SlabsExist, OneSize, OneKind, ExactlyOne, OthersTouch, InOrder, InnerWalls, ProperRoom, SpansMeet, SpansTight, MarkRule, Decompose};

/// Of two pieces that go across a slab the one is below the other throughout, or they lie on one line, and their heights
/// at any one point of the slab tell which.
pub fn one_order()
    ensures { OneOrder }
{}

/// Each list of pieces has slabs, and these have regions, so what is said of all slabs of some pieces is said of some.
pub fn slabs_exist()
    ensures { SlabsExist }
{}

/// All slabs of the same pieces have one size.
pub fn one_size()
    ensures { OneSize }
{}

/// Each cell and each wall is clear at each of its points or at none, so the one point by which it is tested decides.
pub fn one_kind()
    ensures { OneKind }
{}

/// A point is clear exactly where it is in exactly one region.
pub fn exactly_one()
    ensures { ExactlyOne }
{}

/// A cell or wall that is no region is clear nowhere.
pub fn others_touch()
    ensures { OthersTouch }
{}

/// Regions are numbered from left to right, and in a slab or on a line from below.
pub fn in_order()
    ensures { InOrder }
{}

/// The first line and the last one have no free wall.
pub fn inner_walls()
    ensures { InnerWalls }
{}

/// A room without width or without height has no region.
pub fn proper_room()
    ensures { ProperRoom }
{}

/// Each span meets both lines of its slab in a mark, and of two neighbours the lower one in no higher mark.
pub fn spans_meet()
    ensures { SpansMeet }
{}

/// Each span goes across its slab from left to right, and touches everywhere.
pub fn spans_tight()
    ensures { SpansTight }
{}

/// What no sum covers of an edge that is not upright is a mark where it meets a line.
pub fn mark_rule()
    ensures { MarkRule }
{}

/// Slabs and their regions have, by number, all that walks and rings take of them.
pub fn decompose()
    ensures { Decompose }
{}

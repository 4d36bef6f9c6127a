//! What the definitions of polygons say together. The function does nothing: its contract is the law.

ghost use Rattle.plan_poly.specs.Laws.{ThreeSides};

/// A triangle that is not flat, whichever way its vertices are given, has the same points by its three sides and by the
/// even-odd rule.
pub fn three_sides()
    ensures { ThreeSides }
{}

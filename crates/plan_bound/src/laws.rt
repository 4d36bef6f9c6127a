//! The law of the pieces of one edge. The function does nothing: its contract is the law.

ghost use Rattle.plan_bound.specs.Laws.{PiecesAreMaximal};

/// What is uncovered of an edge without a gap is in one piece: the pieces of an edge are its maximal uncovered parts.
pub fn pieces_are_maximal()
    ensures { PiecesAreMaximal }
{}

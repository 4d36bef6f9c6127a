use crate::chain::Chain;
use crate::polyline::Polyline;
use plan_grid::Spot;

/// What shows that an answer is right: a path from start to goal, or a chain that blocks every path.
#[derive(Debug, Drop)]
pub enum Certificate {
    Path(Polyline),
    Blocked(Chain),
}

/// The spots between which a path is asked for.
#[derive(Clone, Copy, Debug, PartialEq, Eq)]
pub struct Query {
    pub start: Spot,
    pub goal: Spot,
}

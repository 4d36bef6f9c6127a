use plan_grid::Point;
use std::marker::Model;

/// A list of points, each joined to the next.
///
/// Contracts see a polyline as the list of its points, and so compare it with a list that a definition gives: a plain
/// struct would be seen with its vector's capacity.
#[derive(Debug, Drop)]
pub struct Polyline {
    pub points: Vec<Point>,
}

impl Model for Polyline {
    ghost use Rattle.std.specs.Prelude.{List};
    ghost use Rattle.plan_spec.specs.Vector.{Vector};

    ghost Value = { List Vector };

    ghost view = { λ p. p.points.items };
}

use plan_grid::Spot;
use std::marker::Model;

/// A triangle by its corners. Those of a polygon are counterclockwise from the least corner (by x, then by y), and not
/// flat.
#[derive(Clone, Copy, Debug, PartialEq, Eq)]
pub struct Triangle {
    pub a: Spot,
    pub b: Spot,
    pub c: Spot,
}

/// A list of triangles.
///
/// Contracts see the list of the triangles, and so compare it with a list that a definition gives: a plain struct would
/// be seen with its vector's capacity.
#[derive(Debug, Drop)]
pub struct Triangles {
    pub list: Vec<Triangle>,
}

impl Model for Triangles {
    ghost use Rattle.std.specs.Prelude.{List};
    ghost use Rattle.plan_tri.specs.declared.triangle.Triangle.{Triangle};

    ghost Value = { List Triangle };

    ghost view = { λ t. t.list.items };
}

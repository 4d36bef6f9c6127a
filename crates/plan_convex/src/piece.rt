use plan_grid::Point;
use std::marker::Model;

/// A part of an edge that no sum covers, by the number of the edge: from its lesser end `a` to `b`, which may be one
/// point. The weights of both are below 2^25.
#[derive(Clone, Copy, Debug)]
pub struct Piece {
    pub edge: u32,
    pub a: Point,
    pub b: Point,
}

impl Model for Piece {
    ghost use Rattle.plan_spec.specs.Pieces as spec;
    ghost use Rattle.plan_spec.specs.Segment.{segment};
    ghost use Rattle.plan_convex.specs.Piece.{IsPieceInRange};

    ghost Value = { spec.Piece };

    ghost view = { λ p. spec.piece p.edge (segment p.a p.b) };

    ghost invariant = { λ p. IsPieceInRange (spec.piece p.edge (segment p.a p.b)) };

    ghost inverse = { λ p. record { edge = p.edge; a = p.part.a; b = p.part.b } };
}

/// Pieces, by the number of the edge, then along it.
///
/// Contracts see the list of the pieces.
#[derive(Debug, Drop)]
pub struct Pieces {
    pub list: Vec<Piece>,
}

impl Model for Pieces {
    ghost use Rattle.std.specs.Prelude.{List};
    ghost use Rattle.plan_spec.specs.Pieces as spec;

    ghost Value = { List spec.Piece };

    ghost view = { λ p. p.list.items };
}

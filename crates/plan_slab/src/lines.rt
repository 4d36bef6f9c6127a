ghost use Rattle.std.specs.Prelude.{pos, ◌≤ℤ◌, ◌≤◌, All, IfOk, unsigned_abs};
ghost use Rattle.plan_spec.specs.Segment.{HasPoints};
ghost use Rattle.plan_grid.specs.Fraction.{IsRatio};
ghost use Rattle.plan_convex.specs.Piece.{IsPieceInRange};
ghost use Rattle.plan_slab.specs.EventLines.{IsXOf, IsLine, AreEventLines};

use crate::rising::make_rising;
use plan_convex::Piece;
use plan_grid::{Point, Ratio};
use std::alloc::{AllocError, Global};

/// The event lines: the x of the ends of pieces, rising.
pub fn lines_of(alloc: Global, pieces: &[Piece]) -> Result<Vec<Ratio>, AllocError>
    requires { All (λ p. HasPoints p.part) pieces.now }
    ensures lines { IfOk result (λ v. AreEventLines pieces.now v.items) }
    ensures in_range { IfOk result (λ _. All IsPieceInRange pieces.now) }
{
    let mut lines = Vec::new(alloc);
    for piece in pieces {
        let (from, to) = ends_of(piece);
        lines.push(from)?;
        lines.push(to)?;
    }
    make_rising(&mut lines);
    Ok(lines)
}

// The x of the ends of a piece.
fn ends_of(piece: &Piece) -> (Ratio, Ratio)
    ensures first { IsXOf piece.now.part.a result.0 }
    ensures last { IsXOf piece.now.part.b result.1 }
    ensures first_line { IsLine result.0 }
    ensures last_line { IsLine result.1 }
    ensures in_range { IsPieceInRange piece.now }
{
    (x_of(piece.a), x_of(piece.b))
}

// The x of a point.
fn x_of(p: Point) -> Ratio
    ensures x { IsXOf p result }
    ensures bounded { unsigned_abs result.den ≤ unsigned_abs p.w }
    ensures weight { pos 1 ≤ℤ p.w }
    ensures in_range { IsRatio result }
{
    Ratio::new(i128::from(p.x()), i128::from(p.w()))
}

ghost use Rattle.std.specs.Prelude.{◌≡◌, pos, ◌≤ℤ◌, ◌≤◌, ◌++◌, All, IfOk, List, unsigned_abs};
ghost use Rattle.plan_spec.specs.Frame.{Frame};
ghost use Rattle.plan_spec.specs.Slabs.{AreMarks};
ghost use Rattle.plan_spec.specs.Vector.{Vector, Same, SameX, turn};
ghost use Rattle.plan_spec.specs.Pieces.{Piece, IsBoundaryOf};
ghost use Rattle.plan_plane.proofs.Boundary.Floor.{IsFloor};
ghost use Rattle.plan_slab.specs.Sweeps.{AreAcross};
ghost use Rattle.plan_grid.specs.Fraction.{Fraction, IsRatio, point_at};
ghost use Rattle.plan_slab.specs.EventLines.{IsLine};
ghost use Rattle.plan_slab.specs.Heights.{IsHeight, IsOver};
ghost use Rattle.plan_slab.specs.LineMarks.{Meets, IsYOf, AreHeightsOf, AreHeightsAt};
ghost use Rattle.plan_slab.specs.Seen.{line_seen, marks_seen, strand_seen};

use crate::bar::{Bar, is_upright};
use crate::rising::make_rising;
use crate::strand::Strand;
use plan_convex::Piece;
use plan_grid::{Point, Ratio, height};
use std::alloc::{AllocError, Global};

/// The marks of a line, from below, where the bars are those that meet it.
pub fn marks_at(alloc: Global, bars: &[Bar], line: Ratio) -> Result<Vec<Ratio>, AllocError>
    requires line { IsLine line }
    requires bars { All (Meets line) bars.now }
    ensures marks { (sums : List (List Vector)) (room : Frame) (pieces : List Piece) → IsFloor sums room → IsBoundaryOf sums room pieces
        → AreAcross sums room pieces line line bars.now → IfOk result (λ v. AreMarks pieces (line_seen line) (marks_seen line v.items)) }
    ensures heights { IfOk result (λ v. AreHeightsAt line bars.now v.items) }
{
    let mut marks = Vec::new(alloc);
    for bar in bars {
        add_marks(*bar, line, &mut marks)?;
    }
    make_rising(&mut marks);
    Ok(marks)
}

// Adds the heights at which the bar meets the line.
fn add_marks(bar: Bar, line: Ratio, marks: &mut Vec<Ratio>) -> Result<(), AllocError>
    requires line { IsLine line }
    requires meets { Meets line bar }
    ensures { IfOk result (λ _. (fs : List Fraction) × (marks.new.items ≡ marks.old.items ++ fs) × All IsHeight fs × AreHeightsOf line bar fs) }
{
    if is_upright(&bar.piece) {
        let (low, high) = heights_of_ends(&bar.piece, line);
        marks.push(low)?;
        marks.push(high)?;
    } else {
        marks.push(height_of(bar.strand, line))?;
    }
    Ok(())
}

// The heights of both ends of an upright piece on the line.
fn heights_of_ends(piece: &Piece, line: Ratio) -> (Ratio, Ratio)
    requires line { IsLine line }
    requires first { SameX (line_seen line) piece.now.part.a }
    requires second { SameX (line_seen line) piece.now.part.b }
    ensures low { Same (point_at line result.0) piece.now.part.a }
    ensures high { Same (point_at line result.1) piece.now.part.b }
    ensures low_bounded { IsHeight result.0 }
    ensures high_bounded { IsHeight result.1 }
{
    (y_of(piece.a), y_of(piece.b))
}

// The height of the strand at the line.
fn height_of(strand: Strand, line: Ratio) -> Ratio
    requires line { IsLine line }
    requires over { IsOver strand (line_seen line) }
    ensures in_line { turn (strand_seen strand).a (strand_seen strand).b (point_at line result) ≡ pos 0 }
    ensures bounded { IsHeight result }
{
    height(strand.a, strand.b, line)
}

// The y of a point.
fn y_of(p: Point) -> Ratio
    ensures y { IsYOf p result }
    ensures bounded { unsigned_abs result.den ≤ unsigned_abs p.w }
    ensures weight { pos 1 ≤ℤ p.w }
    ensures in_range { IsRatio result }
{
    Ratio::new(i128::from(p.y()), i128::from(p.w()))
}

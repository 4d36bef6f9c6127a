ghost use Rattle.std.specs.Prelude.{◌≡◌, List, All, IfOk, map};
ghost use Rattle.plan_spec.specs.Frame.{Frame};
ghost use Rattle.plan_spec.specs.Regions.{mediant};
ghost use Rattle.plan_spec.specs.Slabs.{AreSpans};
ghost use Rattle.plan_spec.specs.Vector.{Vector, LtX};
ghost use Rattle.plan_spec.specs.Pieces.{Piece, IsBoundaryOf};
ghost use Rattle.plan_plane.proofs.Boundary.Floor.{IsFloor};
ghost use Rattle.plan_slab.specs.Sweeps.{AreAcross};
ghost use Rattle.plan_slab.specs.declared.rungs.Rung as spec;
ghost use Rattle.plan_slab.specs.EventLines.{IsLine};
ghost use Rattle.plan_slab.specs.Heights.{IsOver};
ghost use Rattle.plan_slab.specs.Rungs.{AreFirstOf};
ghost use Rattle.plan_slab.specs.Seen.{line_seen, strand_seen};

use crate::bar::Bar;
use crate::feet::mediant_of;
use crate::rungs::{Rung, rungs_at};
use crate::strand::Strand;
use plan_grid::Ratio;
use std::alloc::{AllocError, Global};

/// The spans of the slab between two lines, from below, where the bars are those that go across.
pub fn spans_between(
    alloc: Global,
    bars: &[Bar],
    left: Ratio,
    right: Ratio,
) -> Result<Vec<Strand>, AllocError>
    requires left { IsLine left }
    requires right { IsLine right }
    requires over { All (λ b. IsOver b.strand (mediant (line_seen left) (line_seen right))) bars.now }
    ensures spans { (sums : List (List Vector)) (room : Frame) (pieces : List Piece) → IsFloor sums room → IsBoundaryOf sums room pieces
        → LtX (line_seen left) (line_seen right) → AreAcross sums room pieces left right bars.now
        → IfOk result (λ v. AreSpans sums room pieces (line_seen left) (line_seen right) (map strand_seen v.items)) }
    ensures first { IfOk result (λ v. (gs : List spec.Rung) × AreFirstOf (mediant (line_seen left) (line_seen right)) bars.now gs × (v.items ≡ map (λ g. g.strand) gs)) }
{
    let x = mediant_of(left, right);
    let rungs = rungs_at(alloc, bars, x)?;
    let strands = strands_of(alloc, &rungs)?;
    Ok(strands)
}

// The strands of rungs.
fn strands_of(alloc: Global, rungs: &[Rung]) -> Result<Vec<Strand>, AllocError>
    ensures { IfOk result (λ v. v.items ≡ map (λ g. g.strand) rungs.now) }
{
    rungs.iter().map(|rung: &Rung| rung.strand).collect(alloc)
}

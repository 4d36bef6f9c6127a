ghost use Rattle.std.specs.Prelude.{IfOk};
ghost use Rattle.plan_check.specs.Boxes.{AreBoxes};

use plan_convex::{Convex, bounds};
use plan_grid::Frame;
use std::alloc::{AllocError, Global};

/// The bounding box of each sum.
pub fn boxes_of(alloc: Global, sums: &[Convex]) -> Result<Vec<Frame>, AllocError>
    ensures { IfOk result (λ boxes. AreBoxes sums.now boxes.items) }
{
    let mut boxes = Vec::with_capacity(alloc, sums.len())?;
    for sum in sums {
        boxes.push(bounds(sum.spots()))?;
    }
    Ok(boxes)
}

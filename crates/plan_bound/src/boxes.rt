ghost use Rattle.std.specs.Prelude.{IfOk};
ghost use Rattle.plan_bound.specs.Cover.{AreBoxes};

use plan_convex::{Convex, bounds};
use plan_grid::Frame;
use std::alloc::{AllocError, Global};

/// The bounding box of each sum.
pub fn boxes_of(alloc: Global, sums: &[Convex]) -> Result<Vec<Frame>, AllocError>
    ensures { IfOk result (λ v. AreBoxes sums.now v.items) }
{
    let mut boxes = Vec::new(alloc);
    for sum in sums {
        let spots = sum.spots();
        boxes.push(bounds(spots))?;
    }
    Ok(boxes)
}

ghost use Rattle.std.specs.Prelude.{◌≡◌, ◌*ℤ◌, ◌≤ℤ◌, ◌<ℤ◌, ◌≤◌, ◌^◌, ◌↔◌, All, IfOk, IsTrue, unsigned_abs};
ghost use Rattle.plan_spec.specs.Boundary.{IsClearOf};
ghost use Rattle.plan_spec.specs.Polygon.{Inside};
ghost use Rattle.plan_grid.specs.Bounds.{IsBounded};
ghost use Rattle.plan_grid.specs.Frame.{frame_seen};
ghost use Rattle.plan_grid.specs.Spot.{spots_seen};
ghost use Rattle.plan_convex.specs.Piece.{sums_seen};
ghost use Rattle.plan_slab.specs.Near.{AreBoxes, AreWithin, AreNear, HasX, HasY, IsWithinRoom};

use plan_convex::{Convex, Triple, bounds, x_of, y_of};
use plan_exact::Whole;
use plan_grid::{Frame, MOST_COORDINATE};
use std::alloc::{AllocError, Global};

/// The bounding box of each sum.
pub fn boxes_of(alloc: Global, sums: &[Convex]) -> Result<Vec<Frame>, AllocError>
    ensures { IfOk result (λ v. AreBoxes sums.now v.items) }
{
    let mut boxes = Vec::new(alloc);
    for sum in sums {
        let spots = sum.spots();
        boxes.push(bounds(spots))?;
    }
    Ok(boxes)
}

/// The numbers of the boxes that have the x of `z`.
pub fn near(alloc: Global, boxes: &[Frame], z: Triple) -> Result<Vec<usize>, AllocError>
    requires boxes { All AreWithin boxes.now }
    requires bounded { IsBounded (2 ^ 100) z }
    ensures { IfOk result (λ v. AreNear boxes.now z v.items) }
{
    let mut numbers = Vec::new(alloc);
    for i in 0..boxes.len() {
        if has_x(boxes[i], z) {
            numbers.push(i)?;
        }
    }
    Ok(numbers)
}

/// Whether `z` is strictly in the room, and in none of the sums, where the numbers of those that may have its x are
/// given.
pub fn is_clear(sums: &[Convex], boxes: &[Frame], near: &[usize], room: Frame, z: Triple) -> bool
    requires boxes { AreBoxes sums.now boxes.now }
    requires near { AreNear boxes.now z near.now }
    requires room { AreWithin room }
    requires bounded { IsBounded (2 ^ 100) z }
    ensures { IsTrue result ↔ IsClearOf (sums_seen sums.now) (frame_seen room) z }
{
    if !is_within(room, z) {
        return false;
    }
    for i in near {
        if is_held(&sums[*i], boxes[*i], z) {
            return false;
        }
    }
    true
}

// Whether the sum, which has this box, holds `z`.
fn is_held(sum: &Convex, bounds: Frame, z: Triple) -> bool
    requires bounds { AreWithin bounds }
    requires bounded { IsBounded (2 ^ 100) z }
    ensures { IsTrue result ↔ (HasY bounds z × Inside (spots_seen sum.now) z) }
{
    has_y(bounds, z) && sum.holds_at(z)
}

// Whether the box has the x of `z`.
fn has_x(bounds: Frame, z: Triple) -> bool
    requires bounds { AreWithin bounds }
    requires bounded { IsBounded (2 ^ 100) z }
    ensures { IsTrue result ↔ HasX bounds z }
{
    is_between(x_of(bounds.low), z.x, x_of(bounds.high), z.w)
}

// Whether the box has the y of `z`.
fn has_y(bounds: Frame, z: Triple) -> bool
    requires bounds { AreWithin bounds }
    requires bounded { IsBounded (2 ^ 100) z }
    ensures { IsTrue result ↔ HasY bounds z }
{
    is_between(y_of(bounds.low), z.y, y_of(bounds.high), z.w)
}

// Whether `low <= a / w <= high`.
fn is_between(low: Whole, a: Whole, high: Whole, w: Whole) -> bool
    requires low { unsigned_abs low ≤ MOST_COORDINATE }
    requires high { unsigned_abs high ≤ MOST_COORDINATE }
    requires weight { unsigned_abs w ≤ 2 ^ 100 }
    ensures { IsTrue result ↔ (((low *ℤ w) ≤ℤ a) × (a ≤ℤ (high *ℤ w))) }
{
    low.times(w).is_at_most(a) && a.is_at_most(high.times(w))
}

// Whether `z` is strictly in the room.
fn is_within(room: Frame, z: Triple) -> bool
    requires room { AreWithin room }
    requires bounded { IsBounded (2 ^ 100) z }
    ensures { IsTrue result ↔ IsWithinRoom room z }
{
    is_within_width(room, z) && is_within_height(room, z)
}

// Whether the x of `z` is strictly within that of the room.
fn is_within_width(room: Frame, z: Triple) -> bool
    requires room { AreWithin room }
    requires bounded { IsBounded (2 ^ 100) z }
    ensures { IsTrue result ↔ (((room.low.x *ℤ z.w) <ℤ z.x) × (z.x <ℤ (room.high.x *ℤ z.w))) }
{
    is_inside(x_of(room.low), z.x, x_of(room.high), z.w)
}

// Whether the y of `z` is strictly within that of the room.
fn is_within_height(room: Frame, z: Triple) -> bool
    requires room { AreWithin room }
    requires bounded { IsBounded (2 ^ 100) z }
    ensures { IsTrue result ↔ (((room.low.y *ℤ z.w) <ℤ z.y) × (z.y <ℤ (room.high.y *ℤ z.w))) }
{
    is_inside(y_of(room.low), z.y, y_of(room.high), z.w)
}

// Whether `low < a / w < high`.
fn is_inside(low: Whole, a: Whole, high: Whole, w: Whole) -> bool
    requires low { unsigned_abs low ≤ MOST_COORDINATE }
    requires high { unsigned_abs high ≤ MOST_COORDINATE }
    requires weight { unsigned_abs w ≤ 2 ^ 100 }
    ensures { IsTrue result ↔ (((low *ℤ w) <ℤ a) × (a <ℤ (high *ℤ w))) }
{
    low.times(w).is_below(a) && a.is_below(high.times(w))
}

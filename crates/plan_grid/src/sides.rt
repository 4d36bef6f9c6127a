ghost use Rattle.std.specs.Prelude.{◌≡◌, ◌-ℤ◌, ◌*ℤ◌, ◌+◌, ◌*◌, ◌<◌, ◌≤◌, ◌^◌, unsigned_abs};
ghost use Rattle.plan_spec.specs.Vector.{turn};
ghost use Rattle.plan_grid.specs.Order.{IsSign};
ghost use Rattle.plan_grid.specs.Spot.{spot_seen, IsWithin};

use crate::bounds::{MOST_COORDINATE, MOST_WEIGHT};
use crate::order::sign;
use crate::point::Point;
use crate::spot::Spot;
use plan_exact::Whole;
use std::cmp::Ordering;

/// On which side of the line from `a` to `b` the spot `c` lies: Greater is left of it, Equal on it and Less right of
/// it; Equal where `a` is `b`. The spots may be any.
pub fn orientation(a: Spot, b: Spot, c: Spot) -> Ordering
    ensures { IsSign result (turn (spot_seen a) (spot_seen b) (spot_seen c)) }
{
    sign(turn(a, b, c))
}

/// The same of a rational point `z`.
pub fn orientation_at(a: Spot, b: Spot, z: &Point) -> Ordering
    ensures { IsSign result (turn (spot_seen a) (spot_seen b) z.now) }
{
    sign(turn_at(a, b, z))
}

/// The cross product of `b - a` and `c - a`, twice the signed area of the triangle: positive where `c` is left of the
/// line from `a` to `b`. The spots may be any.
pub fn side(a: Spot, b: Spot, c: Spot) -> i128
    ensures { result ≡ turn (spot_seen a) (spot_seen b) (spot_seen c) }
{
    turn(a, b, c).get()
}

/// On which side of the line from `a` to `b`, two rational points, the spot `c` lies: Greater is left of it, Equal on
/// it and Less right of it. The coordinates of `c` must be at most 2046 in absolute value.
pub fn side_of(a: &Point, b: &Point, c: Spot) -> Ordering
    requires { IsWithin MOST_COORDINATE c }
    ensures { IsSign result (turn a.now b.now (spot_seen c)) }
{
    let a_weight = Whole::from(a.w());
    let b_weight = Whole::from(b.w());
    let ax = weighted_step(c.x, a.x(), a_weight);
    let ay = weighted_step(c.y, a.y(), a_weight);
    let bx = weighted_step(c.x, b.x(), b_weight);
    let by = weighted_step(c.y, b.y(), b_weight);
    sign(crossed(ax, ay, bx, by))
}

// The cross product of `b - a` and `c - a`.
fn turn(a: Spot, b: Spot, c: Spot) -> Whole
    ensures { result ≡ turn (spot_seen a) (spot_seen b) (spot_seen c) }
{
    let bx = step(a.x, b.x);
    let by = step(a.y, b.y);
    let cx = step(a.x, c.x);
    let cy = step(a.y, c.y);
    crossed(bx, by, cx, cy)
}

// The cross product of `b - a` and `z - a`, times the weight of `z`.
fn turn_at(a: Spot, b: Spot, z: &Point) -> Whole
    ensures { result ≡ turn (spot_seen a) (spot_seen b) z.now }
{
    let w = Whole::from(z.w());
    let bx = step(a.x, b.x);
    let by = step(a.y, b.y);
    let zx = weighted_step(a.x, z.x(), w);
    let zy = weighted_step(a.y, z.y(), w);
    crossed(bx, by, zx, zy)
}

// The way from `a` to `b`.
fn step(a: i32, b: i32) -> Whole
    ensures value { result ≡ b -ℤ a }
    ensures size { unsigned_abs result ≤ 2 ^ 32 }
{
    Whole::from(b).minus(Whole::from(a))
}

// The way from `a` to `z / w`, times `w`.
fn weighted_step(a: i32, z: i64, w: Whole) -> Whole
    requires { unsigned_abs w ≤ MOST_WEIGHT }
    ensures value { result ≡ z -ℤ a *ℤ w }
    ensures size { unsigned_abs result ≤ unsigned_abs z + unsigned_abs a * unsigned_abs w }
    ensures bound { unsigned_abs result ≤ 2 ^ 83 }
{
    Whole::from(z).minus(Whole::from(a).times(w))
}

// The cross product of (`ux`, `uy`) and (`vx`, `vy`).
fn crossed(ux: Whole, uy: Whole, vx: Whole, vy: Whole) -> Whole
    requires { unsigned_abs ux * unsigned_abs vy + unsigned_abs uy * unsigned_abs vx < 2 ^ 127 }
    ensures { result ≡ ux *ℤ vy -ℤ uy *ℤ vx }
{
    ux.times(vy).minus(uy.times(vx))
}

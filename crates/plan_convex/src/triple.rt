ghost use Rattle.std.specs.Prelude.{◌≡◌, pos, ◌<ℤ◌, ◌≤◌, ◌^◌, ◌↔◌, IsTrue, unsigned_abs};
ghost use Rattle.plan_spec.specs.Vector.{turn};
ghost use Rattle.plan_grid.specs.Bounds.{IsBounded};
ghost use Rattle.plan_grid.specs.Spot.{spot_seen, IsWithin};

use plan_exact::Whole;
use plan_grid::{MOST_COORDINATE, Spot};
use std::marker::Model;

/// A rational point at the position `(x / w, y / w)` that need not be in lowest terms.
#[derive(Clone, Copy, Debug)]
pub struct Triple {
    pub x: Whole,
    pub y: Whole,
    pub w: Whole,
}

impl Model for Triple {
    ghost use Rattle.plan_exact.specs.Vectors.{Vector};

    ghost Value = { Vector };

    ghost view = { λ z. record { x = z.x; y = z.y; w = z.w } };

    ghost inverse = { λ v. record { x = v.x; y = v.y; w = v.w } };
}

impl Triple {
    /// Whether it is strictly right of the line from `a` to `b`. Its weight must be at most 2^100, and all coordinates
    /// at most 2046 in absolute value.
    pub fn is_right(self, a: Spot, b: Spot) -> bool
        requires bounded { IsBounded (2 ^ 100) self }
        requires a_bounded { IsWithin MOST_COORDINATE a }
        requires b_bounded { IsWithin MOST_COORDINATE b }
        ensures { IsTrue result ↔ (turn (spot_seen a) (spot_seen b) self <ℤ pos 0) }
    {
        let run = x_of(b).minus(x_of(a));
        let rise = y_of(b).minus(y_of(a));
        let right = self.x.minus(x_of(a).times(self.w));
        let up = self.y.minus(y_of(a).times(self.w));
        run.times(up).is_below(rise.times(right))
    }
}

/// The x of a spot.
pub fn x_of(s: Spot) -> Whole
    requires { IsWithin MOST_COORDINATE s }
    ensures value { result ≡ s.x }
    ensures size { unsigned_abs result ≤ MOST_COORDINATE }
{
    Whole::from(s.x)
}

/// The y of a spot.
pub fn y_of(s: Spot) -> Whole
    requires { IsWithin MOST_COORDINATE s }
    ensures value { result ≡ s.y }
    ensures size { unsigned_abs result ≤ MOST_COORDINATE }
{
    Whole::from(s.y)
}

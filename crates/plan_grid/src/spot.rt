ghost use Rattle.std.specs.Prelude.{◌≡◌, ◌↔◌, ◌^◌, ◌-◌, IsTrue};
ghost use Rattle.plan_spec.specs.Vector.{Before};
ghost use Rattle.plan_grid.specs.Spot as seen;
ghost use Rattle.plan_grid.specs.Spot.{spot_seen, IsWithin};

/// A point with whole-number coordinates, in any unit. As a type it takes every `i32`; each call says what coordinates
/// it asks for.
#[derive(Clone, Copy, Debug, PartialEq, Eq)]
pub struct Spot {
    pub x: i32,
    pub y: i32,
}

impl Spot {
    /// The sum, by coordinates, which must be within `i32`.
    pub fn plus(self, other: Spot) -> Spot
        requires { IsWithin (2 ^ 31 - 1) (seen.plus self other) }
        ensures { result ≡ seen.plus self other }
    {
        Spot {
            x: self.x + other.x,
            y: self.y + other.y,
        }
    }

    /// The difference, by coordinates, which must be within `i32`.
    pub fn minus(self, other: Spot) -> Spot
        requires { IsWithin (2 ^ 31 - 1) (seen.way other self) }
        ensures { result ≡ seen.way other self }
    {
        other.to(self)
    }

    /// The way to another spot: what is to be added to this one. Its coordinates must be within `i32`.
    pub fn to(self, other: Spot) -> Spot
        requires { IsWithin (2 ^ 31 - 1) (seen.way self other) }
        ensures { result ≡ seen.way self other }
    {
        Spot {
            x: other.x - self.x,
            y: other.y - self.y,
        }
    }

    /// The spot on the other side of the origin. No coordinate may be the least `i32`.
    pub fn opposite(self) -> Spot
        requires { IsWithin (2 ^ 31 - 1) self }
        ensures { result ≡ seen.opposite self }
    {
        Spot {
            x: -self.x,
            y: -self.y,
        }
    }

    /// Whether this spot comes before the other, by x, then by y.
    pub fn is_before(self, other: Spot) -> bool
        ensures { IsTrue result ↔ Before (spot_seen self) (spot_seen other) }
    {
        self.x < other.x || (self.x == other.x && self.y < other.y)
    }

    /// The lower left corner of the box of the two.
    pub fn least(self, other: Spot) -> Spot
        ensures { result ≡ seen.least self other }
    {
        Spot {
            x: self.x.min(other.x),
            y: self.y.min(other.y),
        }
    }

    /// The upper right corner of the box of the two.
    pub fn greatest(self, other: Spot) -> Spot
        ensures { result ≡ seen.greatest self other }
    {
        Spot {
            x: self.x.max(other.x),
            y: self.y.max(other.y),
        }
    }
}

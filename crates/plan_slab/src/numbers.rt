ghost use Rattle.std.specs.Prelude.{◌≡◌, pos, ◌≤ℤ◌, ◌≤◌, ◌*◌, ◌^◌, unsigned_abs};
ghost use Rattle.plan_grid.specs.Fraction.{IsRatio};
ghost use Rattle.plan_grid.specs.Bounds.{IsInRange};

use plan_exact::Whole;
use plan_grid::{Point, Ratio};

/// The numerator.
pub fn num(r: Ratio) -> Whole
    ensures value { result ≡ r.num }
    ensures in_range { IsRatio r }
{
    Whole::from(r.num() as i64)
}

/// The denominator.
pub fn den(r: Ratio) -> Whole
    ensures value { result ≡ r.den }
    ensures in_range { IsRatio r }
{
    Whole::from(r.den() as i64)
}

/// The numerator of the x of a point.
pub fn point_x(p: Point) -> Whole
    ensures value { result ≡ p.x }
    ensures in_range { IsInRange p }
{
    Whole::from(p.x())
}

/// The weight of a point.
pub fn weight(p: Point) -> Whole
    ensures value { result ≡ p.w }
    ensures in_range { IsInRange p }
{
    Whole::from(p.w())
}

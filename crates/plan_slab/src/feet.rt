ghost use Rattle.std.specs.Prelude.{◌≡◌, pos, ◌+ℤ◌, ◌*ℤ◌, ◌≤ℤ◌, ◌<ℤ◌, ◌≤◌, ◌*◌, ◌^◌, unsigned_abs};
ghost use Rattle.plan_spec.specs.Regions as spec;
ghost use Rattle.plan_spec.specs.Vector.{Same};
ghost use Rattle.plan_grid.specs.Bounds.{IsBounded};
ghost use Rattle.plan_grid.specs.Fraction.{IsRatio, point_at};
ghost use Rattle.plan_grid.specs.Spot.{IsWithin};
ghost use Rattle.plan_slab.specs.EventLines.{IsLine};
ghost use Rattle.plan_slab.specs.Heights.{IsOver, IsHeight};
ghost use Rattle.plan_slab.specs.Seen.{line_seen, strand_seen};

use crate::numbers::{den, num};
use crate::strand::Strand;
use plan_convex::{Triple, x_of, y_of};
use plan_exact::Whole;
use plan_grid::{MOST_COORDINATE, Ratio};

/// A point strictly between two lines.
pub fn mediant_of(left: Ratio, right: Ratio) -> Triple
    requires left { IsLine left }
    requires right { IsLine right }
    ensures value { result ≡ spec.mediant (line_seen left) (line_seen right) }
    ensures bounded { IsBounded (2 ^ 26) result }
{
    Triple {
        x: num(left).plus(num(right)),
        y: Whole::from(0),
        w: den(left).plus(den(right)),
    }
}

/// The point of the strand's line at the x of `z`.
pub fn foot(s: Strand, z: Triple) -> Triple
    requires over { IsOver s z }
    requires bounded { IsBounded (2 ^ 26) z }
    ensures value { result ≡ spec.foot (strand_seen s) z }
    ensures bounded { IsBounded (2 ^ 38) result }
{
    let left = x_of(s.b).times(z.w).minus(z.x);
    let past = z.x.minus(x_of(s.a).times(z.w));
    Triple {
        x: left.times(x_of(s.a)).plus(past.times(x_of(s.b))),
        y: left.times(y_of(s.a)).plus(past.times(y_of(s.b))),
        w: left.plus(past),
    }
}

/// The point halfway between two.
pub fn halfway(u: Triple, v: Triple) -> Triple
    requires first { IsBounded (2 ^ 38) u }
    requires second { IsBounded (2 ^ 38) v }
    ensures value { result ≡ spec.halfway u v }
    ensures bounded { IsBounded (2 ^ 100) result }
{
    Triple {
        x: u.x.times(v.w).plus(v.x.times(u.w)),
        y: u.y.times(v.w).plus(v.y.times(u.w)),
        w: Whole::from(2).times(u.w.times(v.w)),
    }
}

/// The point on a line halfway between two marks.
pub fn between(line: Ratio, low: Ratio, high: Ratio) -> Triple
    requires line { IsLine line }
    requires low { IsHeight low }
    requires high { IsHeight high }
    ensures same { Same result (spec.halfway (point_at line low) (point_at line high)) }
    ensures bounded { IsBounded (2 ^ 100) result }
{
    let (sum, both) = middle(low, high);
    Triple {
        x: num(line).times(both),
        y: den(line).times(sum),
        w: den(line).times(both),
    }
}

// The middle of two heights, as a fraction.
fn middle(low: Ratio, high: Ratio) -> (Whole, Whole)
    requires low { IsHeight low }
    requires high { IsHeight high }
    ensures num { result.0 ≡ low.num *ℤ high.den +ℤ high.num *ℤ low.den }
    ensures den { result.1 ≡ pos 2 *ℤ (low.den *ℤ high.den) }
    ensures positive { pos 1 ≤ℤ result.1 }
    ensures den_bounded { unsigned_abs result.1 ≤ 2 ^ 75 }
    ensures num_bounded { unsigned_abs result.0 ≤ MOST_COORDINATE * unsigned_abs result.1 }
{
    let sum = num(low).times(den(high)).plus(num(high).times(den(low)));
    let both = Whole::from(2).times(den(low).times(den(high)));
    (sum, both)
}

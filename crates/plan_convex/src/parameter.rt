ghost use Rattle.std.specs.Prelude.{◌≡◌, pos, ◌+ℤ◌, ◌-ℤ◌, ◌*ℤ◌, ◌≤ℤ◌, ◌<ℤ◌, ◌<◌, ◌≤◌, ◌*◌, ◌^◌, unsigned_abs};
ghost use Rattle.plan_spec.specs.Vector.{Same};
ghost use Rattle.plan_grid.specs.Bounds.{IsInRange};
ghost use Rattle.plan_grid.specs.Spot.{spot_seen, IsWithin};
ghost use Rattle.plan_convex.specs.Parameter.{IsParameter, at_most, zero, one, balance, along};

use plan_exact::Whole;
use plan_grid::{MOST_COORDINATE, Point, Spot};
use std::cmp::Ordering;
use std::marker::Model;

/// How far a point is along an edge: `num / den` of the way, from 0 at the first end to 1 at the second, with a
/// denominator below 2^25. Parameters are ordered by value.
#[derive(Clone, Copy, Debug)]
pub struct Parameter {
    num: Whole,
    den: Whole,
}

impl Model for Parameter {
    ghost use Rattle.plan_grid.specs.Fraction.{Fraction};
    ghost use Rattle.plan_convex.specs.Parameter.{IsParameter};

    ghost Value = { Fraction };

    ghost view = { λ p. record { num = p.num; den = p.den } };

    ghost invariant = { λ p. IsParameter (record { num = p.num; den = p.den }) };

    ghost inverse = { λ f. record { num = f.num; den = f.den } };
}

impl PartialEq for Parameter {
    ghost use Rattle.plan_grid.specs.Fraction.{fraction_eq};
    ghost use Rattle.plan_grid.specs.FractionOrder.{fraction_eq_equivalence};
    ghost use Rattle.std.specs.Cmp.{partial_equiv_from_equiv};

    ghost eq = { fraction_eq };

    ghost laws = { partial_equiv_from_equiv fraction_eq_equivalence };

    fn eq(&self, other: &Parameter) -> bool {
        self.cmp(other).is_eq()
    }
}

impl Eq for Parameter {
    ghost use Rattle.plan_grid.specs.FractionOrder.{fraction_eq_equivalence};

    ghost laws = { fraction_eq_equivalence };
}

impl PartialOrd for Parameter {
    ghost use Rattle.plan_grid.specs.Fraction.{fraction_cmp};
    ghost use Rattle.plan_grid.specs.FractionOrder.{fraction_order};
    ghost use Rattle.std.specs.Ordering.{as_partial_cmp};

    ghost partial_cmp = { as_partial_cmp fraction_cmp };

    ghost laws = { fraction_order };

    fn partial_cmp(&self, other: &Parameter) -> Option<Ordering> {
        Some(self.cmp(other))
    }
}

impl Ord for Parameter {
    ghost use Rattle.plan_grid.specs.Fraction.{fraction_cmp};
    ghost use Rattle.plan_grid.specs.FractionOrder.{fraction_cmp_total};
    ghost use Rattle.std.proofs.Common.{refl};

    ghost cmp = { fraction_cmp };

    ghost total = { fraction_cmp_total };

    ghost matches_partial_cmp = { λ _ _. refl };

    ghost matches_eq = { λ _ _. refl };

    fn cmp(&self, other: &Parameter) -> Ordering {
        if !other.is_at_most(*self) {
            return Ordering::Less;
        }
        if !self.is_at_most(*other) {
            return Ordering::Greater;
        }
        Ordering::Equal
    }
}

impl Parameter {
    /// The first end.
    pub fn zero() -> Parameter
        ensures { result ≡ zero }
    {
        Parameter {
            num: Whole::from(0),
            den: Whole::from(1),
        }
    }

    /// The second end.
    pub fn one() -> Parameter
        ensures { result ≡ one }
    {
        Parameter {
            num: Whole::from(1),
            den: Whole::from(1),
        }
    }

    /// Where a value passes 0 that is `first` away from 0 at the first end of the edge, and `second` away, on the
    /// other side, at the second.
    pub fn balance(first: Whole, second: Whole) -> Parameter
        requires first { pos 0 ≤ℤ first }
        requires second { pos 0 ≤ℤ second }
        requires some { pos 0 <ℤ (first +ℤ second) }
        requires bounded { (first +ℤ second) <ℤ pos (2 ^ 25) }
        ensures value { result ≡ balance first second }
        ensures in_range { IsParameter result }
    {
        Parameter {
            num: first,
            den: first.plus(second),
        }
    }

    /// `num / den`.
    pub fn of(num: u32, den: u32) -> Parameter
        requires positive { 0 < den }
        requires upto { num ≤ den }
        requires bounded { den < 2 ^ 25 }
        ensures value { result ≡ record { num = pos num; den = pos den } }
        ensures in_range { IsParameter result }
    {
        Parameter {
            num: Whole::from(num as i32),
            den: Whole::from(den as i32),
        }
    }

    /// The point of the edge from `a` to `b` that is so far along it. The coordinates of both are at most 2046.
    pub fn along(self, a: Spot, b: Spot) -> Point
        requires a_bounded { IsWithin MOST_COORDINATE a }
        requires b_bounded { IsWithin MOST_COORDINATE b }
        ensures same { Same result (along (spot_seen a) (spot_seen b) self) }
        ensures in_range { IsInRange result }
        ensures bounded { result.w <ℤ pos (2 ^ 25) }
        ensures share { IsParameter self }
    {
        point(mean(self, a.x, b.x), mean(self, a.y, b.y), self.den)
    }

    /// The numerator.
    pub fn num(self) -> Whole
        ensures value { result ≡ self.num }
        ensures in_range { IsParameter self }
    {
        self.num
    }

    /// The denominator, which is positive.
    pub fn den(self) -> Whole
        ensures value { result ≡ self.den }
        ensures in_range { IsParameter self }
    {
        self.den
    }

    /// Whether it is at most the other, by value.
    pub fn is_at_most(self, other: Parameter) -> bool
        ensures value { result ≡ at_most self other }
        ensures in_range { IsParameter self }
        ensures other_in_range { IsParameter other }
    {
        self.num
            .times(other.den)
            .is_at_most(other.num.times(self.den))
    }
}

// The mean of `a` and `b` with the weights of the parameter, times its denominator.
fn mean(p: Parameter, a: i32, b: i32) -> Whole
    requires a_bounded { unsigned_abs a ≤ MOST_COORDINATE }
    requires b_bounded { unsigned_abs b ≤ MOST_COORDINATE }
    ensures value { result ≡ (p.den -ℤ p.num) *ℤ a +ℤ p.num *ℤ b }
    ensures bounded { unsigned_abs result ≤ MOST_COORDINATE * unsigned_abs p.den }
{
    let rest = p.den.minus(p.num);
    rest.times(Whole::from(a)).plus(p.num.times(Whole::from(b)))
}

// The point at (`x / w`, `y / w`).
fn point(x: Whole, y: Whole, w: Whole) -> Point
    requires positive { pos 0 <ℤ w }
    requires bounded { w <ℤ pos (2 ^ 25) }
    requires x_bounded { unsigned_abs x ≤ MOST_COORDINATE * unsigned_abs w }
    requires y_bounded { unsigned_abs y ≤ MOST_COORDINATE * unsigned_abs w }
    ensures same { Same result (record { x = x; y = y; w = w }) }
    ensures in_range { IsInRange result }
    ensures bounded { result.w <ℤ pos (2 ^ 25) }
{
    Point::new(x.get() as i64, y.get() as i64, w.get() as i64).unwrap()
}

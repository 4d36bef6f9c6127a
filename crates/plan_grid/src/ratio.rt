ghost use Rattle.std.specs.Int.{◌∣◌};
ghost use Rattle.std.specs.Prelude.{◌≡◌, ℕ, pos, ◌*ℤ◌, ◌≤ℤ◌, ◌<◌, ◌≤◌, ◌*◌, ◌^◌, unsigned_abs};
ghost use Rattle.plan_grid.specs.Fraction.{SameValue, IsRatio, IsLcm, mediant_of, middle_of};

use crate::bounds::{MOST_COORDINATE, MOST_DENOMINATOR};
use crate::gcd::{divisor, lcm, quotient};
use crate::order::fraction_order;
use plan_exact::Whole;
use std::cmp::Ordering;
use std::marker::Model;

/// A fraction in lowest terms, with a denominator from 1 to 2^52, and at most 2046 in absolute value. Ratios are
/// ordered by value.
#[derive(Clone, Copy, Debug)]
pub struct Ratio {
    num: i64,
    den: i64,
}

impl Model for Ratio {
    ghost use Rattle.plan_grid.specs.Fraction.{Fraction, IsRatio};

    ghost Value = { Fraction };

    ghost view = { λ r. record { num = r.num; den = r.den } };

    ghost invariant = { λ r. IsRatio (record { num = r.num; den = r.den }) };

    ghost inverse = { λ f. record { num = f.num; den = f.den } };
}

impl PartialEq for Ratio {
    ghost use Rattle.plan_grid.specs.Fraction.{fraction_eq};
    ghost use Rattle.plan_grid.specs.FractionOrder.{fraction_eq_equivalence};
    ghost use Rattle.std.specs.Cmp.{partial_equiv_from_equiv};

    ghost eq = { fraction_eq };

    ghost laws = { partial_equiv_from_equiv fraction_eq_equivalence };

    fn eq(&self, other: &Ratio) -> bool {
        self.cmp(other).is_eq()
    }
}

impl Eq for Ratio {
    ghost use Rattle.plan_grid.specs.FractionOrder.{fraction_eq_equivalence};

    ghost laws = { fraction_eq_equivalence };
}

impl PartialOrd for Ratio {
    ghost use Rattle.plan_grid.specs.Fraction.{fraction_cmp};
    ghost use Rattle.plan_grid.specs.FractionOrder.{fraction_order};
    ghost use Rattle.std.specs.Ordering.{as_partial_cmp};

    ghost partial_cmp = { as_partial_cmp fraction_cmp };

    ghost laws = { fraction_order };

    fn partial_cmp(&self, other: &Ratio) -> Option<Ordering> {
        Some(self.cmp(other))
    }
}

impl Ord for Ratio {
    ghost use Rattle.plan_grid.specs.Fraction.{fraction_cmp};
    ghost use Rattle.plan_grid.specs.FractionOrder.{fraction_cmp_total};
    ghost use Rattle.std.proofs.Common.{refl};

    ghost cmp = { fraction_cmp };

    ghost total = { fraction_cmp_total };

    ghost matches_partial_cmp = { λ _ _. refl };

    ghost matches_eq = { λ _ _. refl };

    fn cmp(&self, other: &Ratio) -> Ordering {
        fraction_order(self.num, self.den, other.num, other.den)
    }
}

impl Ratio {
    /// `num / den`, in lowest terms. `den` must be from 1 to 2^52, and `num` at most `2046 * den` in absolute value.
    pub fn new(num: i128, den: i128) -> Ratio
        requires positive { pos 1 ≤ℤ den }
        requires den_bounded { unsigned_abs den ≤ MOST_DENOMINATOR }
        requires num_bounded { unsigned_abs num ≤ MOST_COORDINATE * unsigned_abs den }
        ensures value { SameValue result (record { num = num; den = den }) }
        ensures in_range { IsRatio result }
    {
        let num = num as i64;
        let den = den as i64;
        let d = divisor(num, 0, den);
        Ratio {
            num: quotient(num, d),
            den: quotient(den, d),
        }
    }

    /// The numerator: at most 2046 times the denominator in absolute value.
    pub fn num(&self) -> i128
        ensures value { result ≡ self.now.num }
        ensures in_range { IsRatio self.now }
    {
        i128::from(self.num)
    }

    /// The denominator: from 1 to 2^52.
    pub fn den(&self) -> i128
        ensures value { result ≡ self.now.den }
        ensures in_range { IsRatio self.now }
    {
        i128::from(self.den)
    }

    pub(crate) fn whole_num(&self) -> Whole
        ensures value { result ≡ self.now.num }
        ensures in_range { IsRatio self.now }
    {
        Whole::from(self.num)
    }

    pub(crate) fn whole_den(&self) -> Whole
        ensures value { result ≡ self.now.den }
        ensures in_range { IsRatio self.now }
    {
        Whole::from(self.den)
    }

    // The numerator over the denominator `l`, a multiple of the ratio's own.
    pub(crate) fn over(&self, l: u64) -> Whole
        requires bounded { l ≤ MOST_DENOMINATOR }
        requires multiple { unsigned_abs self.now.den ∣ l }
        ensures value { result *ℤ self.now.den ≡ self.now.num *ℤ pos l }
        ensures size { unsigned_abs result ≤ MOST_COORDINATE * l }
        ensures in_range { IsRatio self.now }
    {
        let factor = l / self.den.unsigned_abs();
        self.whole_num().times(Whole::from(factor as i64))
    }
}

/// The mediant: the sum of the numerators over the sum of the denominators, which lies between the two. Both
/// denominators must be below 2^25.
pub fn mediant(a: Ratio, b: Ratio) -> Ratio
    requires a_bounded { unsigned_abs a.den < 2 ^ 25 }
    requires b_bounded { unsigned_abs b.den < 2 ^ 25 }
    ensures value { SameValue result (mediant_of a b) }
    ensures in_range { IsRatio result }
{
    let num = a.whole_num().plus(b.whole_num());
    let den = a.whole_den().plus(b.whole_den());
    Ratio::new(num.get(), den.get())
}

/// Half the sum. Twice the least common multiple of the denominators must be at most 2^52.
pub fn middle(a: Ratio, b: Ratio) -> Ratio
    requires { (l : ℕ) → IsLcm (unsigned_abs a.den) (unsigned_abs b.den) l → 2 * l ≤ MOST_DENOMINATOR }
    ensures value { SameValue result (middle_of a b) }
    ensures in_range { IsRatio result }
{
    let l = common_denominator(a, b);
    let sum = a.over(l).plus(b.over(l));
    Ratio::new(sum.get(), i128::from(2 * l))
}

// The least common multiple of the denominators.
pub(crate) fn common_denominator(a: Ratio, b: Ratio) -> u64
    requires { (l : ℕ) → IsLcm (unsigned_abs a.den) (unsigned_abs b.den) l → l < 2 ^ 64 }
    ensures least { IsLcm (unsigned_abs a.den) (unsigned_abs b.den) result }
    ensures positive { 0 < result }
{
    lcm(a.den.unsigned_abs(), b.den.unsigned_abs())
}

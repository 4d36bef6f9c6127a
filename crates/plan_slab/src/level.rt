ghost use Rattle.std.specs.Prelude.{◌≡◌, pos, ◌≤ℤ◌, ◌<◌, ◌^◌, unsigned_abs};
ghost use Rattle.plan_slab.specs.Heights.{IsLevel};

use plan_exact::Whole;
use std::cmp::Ordering;
use std::marker::Model;

/// A height, a fraction that need not be in lowest terms. Levels are ordered by value.
#[derive(Clone, Copy, Debug)]
pub struct Level {
    num: Whole,
    den: Whole,
}

impl Model for Level {
    ghost use Rattle.plan_grid.specs.Fraction.{Fraction};
    ghost use Rattle.plan_slab.specs.Heights.{IsLevel};

    ghost Value = { Fraction };

    ghost view = { λ p. record { num = p.num; den = p.den } };

    ghost invariant = { λ p. IsLevel (record { num = p.num; den = p.den }) };

    ghost inverse = { λ f. record { num = f.num; den = f.den } };
}

impl PartialEq for Level {
    ghost use Rattle.plan_grid.specs.Fraction.{fraction_eq};
    ghost use Rattle.plan_grid.specs.FractionOrder.{fraction_eq_equivalence};
    ghost use Rattle.std.specs.Cmp.{partial_equiv_from_equiv};

    ghost eq = { fraction_eq };

    ghost laws = { partial_equiv_from_equiv fraction_eq_equivalence };

    fn eq(&self, other: &Level) -> bool {
        self.cmp(other).is_eq()
    }
}

impl Eq for Level {
    ghost use Rattle.plan_grid.specs.FractionOrder.{fraction_eq_equivalence};

    ghost laws = { fraction_eq_equivalence };
}

impl PartialOrd for Level {
    ghost use Rattle.plan_grid.specs.Fraction.{fraction_cmp};
    ghost use Rattle.plan_grid.specs.FractionOrder.{fraction_order};
    ghost use Rattle.std.specs.Ordering.{as_partial_cmp};

    ghost partial_cmp = { as_partial_cmp fraction_cmp };

    ghost laws = { fraction_order };

    fn partial_cmp(&self, other: &Level) -> Option<Ordering> {
        Some(self.cmp(other))
    }
}

impl Ord for Level {
    ghost use Rattle.plan_grid.specs.Fraction.{fraction_cmp};
    ghost use Rattle.plan_grid.specs.FractionOrder.{fraction_cmp_total};
    ghost use Rattle.std.proofs.Common.{refl};

    ghost cmp = { fraction_cmp };

    ghost total = { fraction_cmp_total };

    ghost matches_partial_cmp = { λ _ _. refl };

    ghost matches_eq = { λ _ _. refl };

    fn cmp(&self, other: &Level) -> Ordering {
        self.num.times(other.den).cmp(&other.num.times(self.den))
    }
}

impl Level {
    /// `num / den`.
    pub fn of(num: Whole, den: Whole) -> Level
        requires num_bounded { unsigned_abs num < 2 ^ 63 }
        requires positive { pos 1 ≤ℤ den }
        requires den_bounded { unsigned_abs den < 2 ^ 63 }
        ensures value { result ≡ record { num = num; den = den } }
        ensures in_range { IsLevel result }
    {
        Level { num, den }
    }
}

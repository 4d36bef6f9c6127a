ghost use Rattle.std.specs.Prelude.{◌≡◌, ℤ, pos, ◌+ℤ◌, ◌-ℤ◌, ◌*ℤ◌, neg_ℤ, ◌<ℤ◌, ◌≤ℤ◌, ◌<◌, ◌≤◌, ◌+◌, ◌*◌, ◌^◌, ◌↔◌, IsTrue};
ghost use Rattle.std.specs.Int.RustNames.{unsigned_abs};

use std::marker::Model;

/// A whole number that is kept in 128 bits. Each operation asks that its result stays below 2^127 in absolute value,
/// and gives it exactly.
#[derive(Clone, Copy, Debug, PartialEq, Eq, PartialOrd, Ord)]
pub struct Whole {
    value: i128,
}

impl Model for Whole {
    ghost use Rattle.std.specs.Prelude.{ℤ};

    ghost Value = { ℤ };

    ghost view = { λ a. a.value };

    ghost inverse = { λ z. record { value = z } };
}

impl From<i32> for Whole {
    ghost from_gives = { λ a r. (r ≡ a) × (unsigned_abs r ≤ 2 ^ 31) };

    fn from(a: i32) -> Whole {
        Whole {
            value: i128::from(a),
        }
    }
}

impl From<i64> for Whole {
    ghost from_gives = { λ a r. (r ≡ a) × (unsigned_abs r ≤ 2 ^ 63) };

    fn from(a: i64) -> Whole {
        Whole {
            value: i128::from(a),
        }
    }
}

impl Whole {
    /// The number itself.
    pub fn get(self) -> i128
        ensures { result ≡ self }
    {
        self.value
    }

    /// The sum. The absolute values together stay below 2^127.
    #[tactic(auto, using(crate::proofs::Sizes::sizes))]
    pub fn plus(self, b: Whole) -> Whole
        requires { unsigned_abs self + unsigned_abs b < 2 ^ 127 }
        ensures value { result ≡ self +ℤ b }
        ensures size { unsigned_abs result ≤ unsigned_abs self + unsigned_abs b }
    {
        Whole {
            value: self.value + b.value,
        }
    }

    /// The difference. The absolute values together stay below 2^127.
    #[tactic(auto, using(crate::proofs::Sizes::sizes))]
    pub fn minus(self, b: Whole) -> Whole
        requires { unsigned_abs self + unsigned_abs b < 2 ^ 127 }
        ensures value { result ≡ self -ℤ b }
        ensures size { unsigned_abs result ≤ unsigned_abs self + unsigned_abs b }
    {
        Whole {
            value: self.value - b.value,
        }
    }

    /// The product. The product of the absolute values stays below 2^127.
    #[tactic(auto, using(crate::proofs::Sizes::sizes))]
    pub fn times(self, b: Whole) -> Whole
        requires { unsigned_abs self * unsigned_abs b < 2 ^ 127 }
        ensures value { result ≡ self *ℤ b }
        ensures size { unsigned_abs result ≤ unsigned_abs self * unsigned_abs b }
    {
        Whole {
            value: self.value * b.value,
        }
    }

    /// The number of the other sign. The absolute value stays below 2^127, so it is not -2^127.
    #[tactic(auto, using(crate::proofs::Sizes::sizes))]
    pub fn negated(self) -> Whole
        requires { unsigned_abs self < 2 ^ 127 }
        ensures value { result ≡ neg_ℤ self }
        ensures size { unsigned_abs result ≤ unsigned_abs self }
    {
        Whole { value: -self.value }
    }

    /// Whether the number is above 0.
    pub fn is_positive(self) -> bool
        ensures { IsTrue result ↔ (pos 0 <ℤ self) }
    {
        self.value > 0
    }

    /// Whether the number is below 0.
    pub fn is_negative(self) -> bool
        ensures { IsTrue result ↔ (self <ℤ pos 0) }
    {
        self.value < 0
    }

    /// Whether the number is 0.
    pub fn is_zero(self) -> bool
        ensures { IsTrue result ↔ (self ≡ pos 0) }
    {
        self.value == 0
    }

    /// Whether the number is less than `b`.
    pub fn is_below(self, b: Whole) -> bool
        ensures { IsTrue result ↔ (self <ℤ b) }
    {
        self.value < b.value
    }

    /// Whether the number is less than `b`, or equal to it.
    pub fn is_at_most(self, b: Whole) -> bool
        ensures { IsTrue result ↔ (self ≤ℤ b) }
    {
        self.value <= b.value
    }
}

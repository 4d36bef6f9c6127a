ghost use Rattle.std.specs.Prelude.{◌≡◌, ◌-ℤ◌, ◌<◌, ◌^◌, unsigned_abs};
ghost use Rattle.plan_convex.specs.Parameter.{IsParameter};
ghost use Rattle.plan_convex.specs.Part.{from_later, to_earlier, whole, nowhere, IsWherePositive, IsWhereNotNegative};

use crate::parameter::Parameter;
use plan_exact::Whole;

/// A part of an edge, between two parameters; there is nothing in it where the first is above the second.
#[derive(Clone, Copy, Debug)]
pub struct Part {
    pub from: Parameter,
    pub to: Parameter,
}

impl Part {
    /// The whole edge.
    pub fn whole() -> Part
        ensures { result ≡ whole }
    {
        Part {
            from: Parameter::zero(),
            to: Parameter::one(),
        }
    }

    /// A part with nothing in it.
    pub fn nowhere() -> Part
        ensures { result ≡ nowhere }
    {
        Part {
            from: Parameter::one(),
            to: Parameter::zero(),
        }
    }

    /// What is left of the part from `p` on.
    pub fn starting_at(self, p: Parameter) -> Part
        ensures value { result ≡ from_later self p }
        ensures in_range { IsParameter p }
        ensures from_in_range { IsParameter self.from }
    {
        if p.is_at_most(self.from) {
            return self;
        }
        Part {
            from: p,
            to: self.to,
        }
    }

    /// What is left of the part up to `p`.
    pub fn ending_at(self, p: Parameter) -> Part
        ensures value { result ≡ to_earlier self p }
        ensures in_range { IsParameter p }
        ensures to_in_range { IsParameter self.to }
    {
        if self.to.is_at_most(p) {
            return self;
        }
        Part {
            from: self.from,
            to: p,
        }
    }

    // What is left of the part, its ends left out, where a value is positive that is `at_a` at the first end of the
    // edge and `at_b` at the second; None where that is nowhere so.
    pub(crate) fn where_positive(self, at_a: Whole, at_b: Whole) -> Option<Part>
        requires bounded { unsigned_abs (at_b -ℤ at_a) < 2 ^ 25 }
        ensures { IsWherePositive self at_a at_b result }
    {
        if at_a.is_positive() {
            if at_b.is_negative() {
                return Some(self.ending_at(Parameter::balance(at_a, at_b.negated())));
            }
            return Some(self);
        }
        if at_b.is_positive() {
            return Some(self.starting_at(Parameter::balance(at_a.negated(), at_b)));
        }
        None
    }

    /// What is left of the part where a value is not negative that is `at_a` at the first end of the edge and `at_b` at
    /// the second. The two are less than 2^25 apart.
    pub fn where_not_negative(self, at_a: Whole, at_b: Whole) -> Part
        requires { unsigned_abs (at_b -ℤ at_a) < 2 ^ 25 }
        ensures value { IsWhereNotNegative self at_a at_b result }
        ensures in_range { IsParameter self.from × IsParameter self.to → IsParameter result.from × IsParameter result.to }
    {
        if at_a.is_negative() {
            if at_b.is_negative() {
                return Part::nowhere();
            }
            return self.starting_at(Parameter::balance(at_a.negated(), at_b));
        }
        if at_b.is_negative() {
            return self.ending_at(Parameter::balance(at_a, at_b.negated()));
        }
        self
    }
}

ghost use Rattle.std.specs.Prelude.{◌≡◌, pos, ◌<◌, ◌≤◌, ◌^◌, ◌↔◌, IfSome, IsNone, IsTrue};
ghost use Rattle.plan_spec.specs.Vector.{turn};
ghost use Rattle.plan_spec.specs.Boundary.{IsLeft, StrictlyInside};
ghost use Rattle.plan_grid.specs.Fraction.{SameValue};
ghost use Rattle.plan_grid.specs.Spot.{spot_seen, spots_seen, edge_seen, IsWithin};
ghost use Rattle.plan_convex.specs.Parameter.{Less, IsParameter};
ghost use Rattle.plan_convex.specs.Span.{start, finish, IsSpanOf, IsOutside, AreLowest, IsProper, IsCovered};

use crate::convex::Convex;
use crate::parameter::Parameter;
use crate::part::Part;
use plan_exact::Whole;
use plan_grid::{MOST_COORDINATE, Ratio, Spot, orientation, side};

/// The open part between `n0 / d0` and `n1 / d1` along an edge that runs from 0 to 1, both fractions in lowest terms.
#[derive(Clone, Copy, Debug, PartialEq, Eq)]
pub struct Span {
    pub n0: u32,
    pub d0: u32,
    pub n1: u32,
    pub d1: u32,
}

impl Span {
    /// The part of the edge.
    pub fn part(self) -> Part
        requires { IsProper self }
        ensures start { result.from ≡ start self }
        ensures finish { result.to ≡ finish self }
        ensures from_in_range { IsParameter result.from }
        ensures to_in_range { IsParameter result.to }
    {
        Part {
            from: Parameter::of(self.n0, self.d0),
            to: Parameter::of(self.n1, self.d1),
        }
    }

    // The span between the two ends of the part.
    fn of(part: Part) -> Span
        requires { Less part.from part.to }
        ensures start { SameValue (start result) part.from }
        ensures finish { SameValue (finish result) part.to }
        ensures proper { IsProper result }
        ensures from_in_range { IsParameter part.from }
        ensures to_in_range { IsParameter part.to }
    {
        let (n0, d0) = lowest(part.from);
        let (n1, d1) = lowest(part.to);
        Span { n0, d0, n1, d1 }
    }
}

impl Convex {
    /// The part of the edge from `a` to `b` in the open interior, the edge's own two ends left out, of which a span
    /// tells nothing; None exactly where no point of the edge, its ends included, is in the open interior. The
    /// coordinates of `a` and `b` are at most 2046 in absolute value.
    pub fn clip(&self, a: Spot, b: Spot) -> Option<Span>
        requires a_bounded { IsWithin MOST_COORDINATE a }
        requires b_bounded { IsWithin MOST_COORDINATE b }
        ensures covered { IfSome result (IsSpanOf (spot_seen a) (spot_seen b) (spots_seen self.now)) }
        ensures none { IsNone result ↔ IsOutside (spot_seen a) (spot_seen b) (spots_seen self.now) }
        ensures proper { IfSome result IsProper }
    {
        let part = self.covered(a, b)?;
        if part.to.is_at_most(part.from) {
            return None;
        }
        Some(Span::of(part))
    }

    /// Whether the spot is in the open interior: strictly left of every edge.
    pub fn covers(&self, z: Spot) -> bool
        ensures { IsTrue result ↔ StrictlyInside (spots_seen self.now) (spot_seen z) }
    {
        let spots = self.spots();
        for i in 0..spots.len() {
            if !is_left(spots[i], spots[(i + 1) % spots.len()], z) {
                return false;
            }
        }
        true
    }

    // The part of the edge from `a` to `b` that the open interior covers, by its ends; None where it covers no point
    // other than the edge's own ends.
    fn covered(&self, a: Spot, b: Spot) -> Option<Part>
        requires a_bounded { IsWithin MOST_COORDINATE a }
        requires b_bounded { IsWithin MOST_COORDINATE b }
        ensures { IsCovered (spot_seen a) (spot_seen b) (spots_seen self.now) result }
    {
        let spots = self.spots();
        let mut part = Part::whole();
        for i in 0..spots.len() {
            let p = spots[i];
            let q = spots[(i + 1) % spots.len()];
            part = part.where_positive(distance(p, q, a), distance(p, q, b))?;
        }
        Some(part)
    }
}

// Whether `z` is strictly left of the line from `a` to `b`.
fn is_left(a: Spot, b: Spot, z: Spot) -> bool
    ensures { IsTrue result ↔ IsLeft (spot_seen z) (edge_seen a b) }
{
    orientation(a, b, z).is_gt()
}

// The numerator and the denominator in lowest terms.
fn lowest(p: Parameter) -> (u32, u32)
    ensures value { SameValue (record { num = pos result.0; den = pos result.1 }) p }
    ensures lowest { AreLowest result.0 result.1 }
    ensures positive { 0 < result.1 }
    ensures bounded { result.1 < 2 ^ 25 }
    ensures upto { result.0 ≤ result.1 }
    ensures in_range { IsParameter p }
{
    let ratio = Ratio::new(p.num().get(), p.den().get());
    (ratio.num() as u32, ratio.den() as u32)
}

// The cross product of `b - a` and `c - a`, to compute with.
fn distance(a: Spot, b: Spot, c: Spot) -> Whole
    requires a_bounded { IsWithin MOST_COORDINATE a }
    requires b_bounded { IsWithin MOST_COORDINATE b }
    requires c_bounded { IsWithin MOST_COORDINATE c }
    ensures { result ≡ turn (spot_seen a) (spot_seen b) (spot_seen c) }
{
    Whole::from(side(a, b, c) as i64)
}

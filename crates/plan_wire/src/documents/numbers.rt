// Whole numbers.
ghost use Rattle.std.specs.Prelude.{◌≤◌, ◌≤ℤ◌, ℤ, pos, neg_ℤ, IfOk};
ghost use Rattle.serde_json.specs.View.{view};
ghost use Rattle.plan_wire.specs.Documents.{numbers};
ghost use Rattle.plan_wire.specs.Place.{path_of};
ghost use Rattle.plan_wire.specs.Reading as reading;
ghost use Rattle.plan_wire.specs.Seen.{ReadsAs};

use super::fault::WireFault;
use super::forms::{Form, elements};
use super::place::Place;
use plan_grid::MOST_COORDINATE;
use serde_json::Value;
use std::alloc::Global;

#[tactic(auto, unfolding(crate::specs::Reading::integer))]
fn integer(alloc: Global, place: &Place, v: &Value) -> Result<i64, WireFault>
    ensures { ReadsAs (λ z. z) (reading.integer (path_of place.now) (view v.now)) result }
{
    match v.as_i64() {
        Some(z) => Ok(z),
        None => Err(WireFault::form(alloc, place)),
    }
}

// From low to high.
#[tactic(auto, unfolding(crate::specs::Reading::whole))]
pub(crate) fn whole(
    alloc: Global,
    place: &Place,
    v: &Value,
    low: i64,
    high: i64,
) -> Result<i64, WireFault>
    ensures value { ReadsAs (λ z. z) (reading.whole low high (path_of place.now) (view v.now)) result }
    ensures bounded { IfOk result (λ z. (low ≤ℤ z) × (z ≤ℤ high)) }
{
    let z = integer(alloc, place, v)?;
    if low <= z && z <= high {
        Ok(z)
    } else {
        Err(WireFault::range(alloc, place))
    }
}

// Element i of a list.
#[tactic(auto, using(crate::proofs::Places::path_of_element))]
pub(crate) fn integer_at(
    alloc: Global,
    place: &Place,
    i: usize,
    v: &Value,
) -> Result<i64, WireFault>
    ensures { ReadsAs (λ z. z)
        (reading.integer (reading.at_element (path_of place.now) i) (view v.now)) result }
{
    integer(alloc, &Place::Element(&*place, i), v)
}

// Element i of a list, from -limit to limit.
#[tactic(auto, using(crate::proofs::Places::path_of_element))]
pub(crate) fn number_at(
    alloc: Global,
    place: &Place,
    i: usize,
    v: &Value,
    limit: u32,
) -> Result<i32, WireFault>
    requires { limit ≤ MOST_COORDINATE }
    ensures { ReadsAs (λ z. z)
        (reading.whole (neg_ℤ (pos limit)) (pos limit) (reading.at_element (path_of place.now) i) (view v.now))
        result }
{
    let limit = i64::from(limit);
    let z = whole(alloc, &Place::Element(&*place, i), v, -limit, limit)?;
    Ok(z as i32)
}

// Two of them, from -limit to limit.
pub(crate) fn two_numbers(
    alloc: Global,
    place: &Place,
    v: &Value,
    limit: u32,
) -> Result<[i32; 2], WireFault>
    requires { limit ≤ MOST_COORDINATE }
    ensures { ReadsAs (λ z. z) (numbers 2 limit (path_of place.now) (view v.now)) result }
{
    let [a, b] = elements(alloc, place, v)? else {
        return Err(WireFault::form(alloc, place));
    };
    let a = number_at(alloc, place, 0, a, limit)?;
    let b = number_at(alloc, place, 1, b, limit)?;
    Ok([a, b])
}

// Four of them.
pub(crate) fn four_numbers(
    alloc: Global,
    place: &Place,
    v: &Value,
    limit: u32,
) -> Result<[i32; 4], WireFault>
    requires { limit ≤ MOST_COORDINATE }
    ensures { ReadsAs (λ z. z) (numbers 4 limit (path_of place.now) (view v.now)) result }
{
    let [a, b, c, d] = elements(alloc, place, v)? else {
        return Err(WireFault::form(alloc, place));
    };
    let a = number_at(alloc, place, 0, a, limit)?;
    let b = number_at(alloc, place, 1, b, limit)?;
    let c = number_at(alloc, place, 2, c, limit)?;
    let d = number_at(alloc, place, 3, d, limit)?;
    Ok([a, b, c, d])
}

/// The number of the format, which is 1.
pub(crate) struct VersionForm;

impl Form for VersionForm {
    type Read = i64;

    ghost Seen = { ℤ };

    ghost seen = { λ z. z };

    ghost reads = { reading.whole (pos 1) (pos 1) };

    fn read(alloc: Global, place: &Place, v: &Value) -> Result<i64, WireFault> {
        whole(alloc, place, v, 1, 1)
    }
}

// Kinds of values, each with its form and its range, and the kinds that are made of others: lists and members.
ghost use Rattle.std.specs.Prelude.{ℕ, List, map};
ghost use Rattle.serde_json.specs.Data.{Data};
ghost use Rattle.serde_json.specs.View.{view};
ghost use Rattle.plan_wire.specs.Place.{path_of};
ghost use Rattle.plan_wire.specs.Reading as reading;
ghost use Rattle.plan_wire.specs.Seen.{ReadsAs};

use super::fault::WireFault;
use super::place::Place;
use serde_json::Value;
use std::alloc::Global;
use std::marker::PhantomData;

/// A kind of value: how it is read at its place.
pub(crate) trait Form {
    type Read: Drop;

    ghost Seen: { Type 0 };

    ghost seen: { Self.Read → Seen };

    ghost reads: { List ℕ → Data → reading.Read Seen };

    fn read(alloc: Global, place: &Place, v: &Value) -> Result<Self::Read, WireFault>
        ensures { ReadsAs seen (reads (path_of place.now) (view v.now)) result };
}

// The elements of a list.
#[tactic(auto, using(crate::proofs::Each::list_of_items_view), unfolding(crate::specs::Reading::elements))]
pub(crate) fn elements<'a>(
    alloc: Global,
    place: &Place,
    v: &'a Value,
) -> Result<&'a [Value], WireFault>
    ensures { ReadsAs (λ vs. map view vs.now) (reading.elements (path_of place.now) (view v.now)) result }
{
    match v.as_array() {
        Some(list) => Ok(list.as_slice()),
        None => Err(WireFault::form(alloc, place)),
    }
}

// Each of them.
fn each<T: Form>(alloc: Global, place: &Place, items: &[Value]) -> Result<Vec<T::Read>, WireFault>
    ensures { ReadsAs (λ all. map T.seen all.items)
        (reading.each T.reads (path_of place.now) 0 (map view items.now)) result }
{
    let mut all = Vec::new(alloc);
    for (i, v) in items.iter().enumerate() {
        let part = T::read(alloc, &Place::Element(&*place, i), v)?;
        all.push(part).map_err(|_| WireFault::NoMemory)?;
    }
    Ok(all)
}

/// A list of any number of `T`.
pub(crate) struct AnyNumber<T> {
    of: PhantomData<T>,
}

impl<T: Form> Form for AnyNumber<T> {
    type Read = Vec<T::Read>;

    ghost Seen = { List T.Seen };

    ghost seen = { λ all. map T.seen all.items };

    ghost reads = { reading.list_of_any T.reads };

    fn read(alloc: Global, place: &Place, v: &Value) -> Result<Vec<T::Read>, WireFault> {
        each::<T>(alloc, place, elements(alloc, place, v)?)
    }
}

/// A list of `LOW` to `HIGH` of `T`.
pub(crate) struct Between<T, const LOW: usize, const HIGH: usize> {
    of: PhantomData<T>,
}

impl<T: Form, const LOW: usize, const HIGH: usize> Form for Between<T, LOW, HIGH> {
    type Read = Vec<T::Read>;

    ghost Seen = { List T.Seen };

    ghost seen = { λ all. map T.seen all.items };

    ghost reads = { reading.list_of_between LOW HIGH T.reads };

    fn read(alloc: Global, place: &Place, v: &Value) -> Result<Vec<T::Read>, WireFault> {
        let items = elements(alloc, place, v)?;
        if LOW <= items.len() && items.len() <= HIGH {
            each::<T>(alloc, place, items)
        } else {
            Err(WireFault::range(alloc, place))
        }
    }
}

// Whether the value is an object; where it is none, its form is broken.
#[tactic(auto, unfolding(crate::specs::Reading::object))]
pub(crate) fn object(alloc: Global, place: &Place, v: &Value) -> Result<(), WireFault>
    ensures { ReadsAs (λ _. view v.now) (reading.object (path_of place.now) (view v.now)) result }
{
    if v.is_object() {
        Ok(())
    } else {
        Err(WireFault::form(alloc, place))
    }
}

// The member of this name.
#[tactic(auto, using(crate::proofs::Places::path_of_member))]
pub(crate) fn member<T: Form>(
    alloc: Global,
    place: &Place,
    name: &str,
    v: &Value,
) -> Result<T::Read, WireFault>
    ensures { ReadsAs T.seen (reading.member name.now T.reads (path_of place.now) (view v.now)) result }
{
    let place = Place::Member(&*place, &*name);
    match v.get(name) {
        Some(v) => T::read(alloc, &place, v),
        None => Err(WireFault::form(alloc, &place)),
    }
}

// Whether the first of two members is there, and not the other one; where it is neither so nor the other way round, the
// form of the value is broken.
#[tactic(auto, unfolding(crate::specs::Reading::one_of))]
pub(crate) fn one_of(
    alloc: Global,
    place: &Place,
    name: &str,
    other: &str,
    v: &Value,
) -> Result<bool, WireFault>
    ensures { ReadsAs (λ b. b) (reading.one_of name.now other.now (path_of place.now) (view v.now)) result }
{
    match (v.get(name).is_some(), v.get(other).is_some()) {
        (true, false) => Ok(true),
        (false, true) => Ok(false),
        _ => Err(WireFault::form(alloc, place)),
    }
}

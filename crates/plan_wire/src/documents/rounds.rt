// Rounds.
ghost use Rattle.plan_wire.specs.Documents as definition;
ghost use Rattle.plan_wire.specs.Seen.{edit_seen, round_seen};

use super::fault::WireFault;
use super::forms::{Between, Form, member, object, one_of};
use super::obstacles::IdForm;
use super::place::Place;
use super::queries::LaneForm;
use super::spots::ShapeForm;
use super::{Change, Shape, Turn};
use serde_json::Value;
use std::alloc::Global;

/// An object with exactly one of `add` and `remove`, which holds an id; with `add` also a shape.
pub(crate) struct EditForm;

impl Form for EditForm {
    type Read = Change;

    ghost Seen = { definition.Edit };

    ghost seen = { edit_seen };

    ghost reads = { definition.edit_of };

    #[tactic(auto, unfolding(crate::specs::Documents::edit_of))]
    fn read(alloc: Global, place: &Place, v: &Value) -> Result<Change, WireFault> {
        if one_of(alloc, place, "add", "remove", v)? {
            let id = member::<IdForm>(alloc, place, "add", v)?;
            let spots = member::<ShapeForm>(alloc, place, "shape", v)?;
            Ok(Change::Add(Shape { id, spots }))
        } else {
            let id = member::<IdForm>(alloc, place, "remove", v)?;
            Ok(Change::Remove(id))
        }
    }
}

/// An object with edits and lanes.
pub(crate) struct RoundForm;

impl Form for RoundForm {
    type Read = Turn;

    ghost Seen = { definition.Round };

    ghost seen = { round_seen };

    ghost reads = { definition.round_of };

    #[tactic(auto, unfolding(crate::specs::Documents::round_of))]
    fn read(alloc: Global, place: &Place, v: &Value) -> Result<Turn, WireFault> {
        object(alloc, place, v)?;
        let edits = member::<Between<EditForm, 0, 32>>(alloc, place, "edits", v)?;
        let lanes = member::<Between<LaneForm, 0, 8>>(alloc, place, "lanes", v)?;
        Ok(Turn { edits, lanes })
    }
}

/// The rounds of a session.
pub(crate) type RoundsForm = Between<RoundForm, 0, 64>;

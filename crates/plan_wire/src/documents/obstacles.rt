// Obstacles.
ghost use Rattle.std.specs.Prelude.{ℕ};
ghost use Rattle.plan_spec.specs.Placement as placement;
ghost use Rattle.plan_wire.specs.Documents as definition;
ghost use Rattle.plan_wire.specs.Seen.{shape_seen};

use super::Shape;
use super::fault::WireFault;
use super::forms::{AnyNumber, Form, member, object};
use super::numbers::whole;
use super::place::Place;
use super::spots::ShapeForm;
use serde_json::Value;
use std::alloc::Global;

/// A whole number from 1 to 65,535.
pub(crate) struct IdForm;

impl Form for IdForm {
    type Read = u32;

    ghost Seen = { ℕ };

    ghost seen = { λ id. id };

    ghost reads = { definition.id_of };

    #[tactic(auto, unfolding(crate::specs::Documents::id_of))]
    fn read(alloc: Global, place: &Place, v: &Value) -> Result<u32, WireFault> {
        let id = whole(alloc, place, v, 1, 65_535)?;
        Ok(id as u32)
    }
}

/// An object with an id and a shape.
pub(crate) struct ObstacleForm;

impl Form for ObstacleForm {
    type Read = Shape;

    ghost Seen = { placement.Obstacle };

    ghost seen = { shape_seen };

    ghost reads = { definition.obstacle_of };

    #[tactic(auto, unfolding(crate::specs::Documents::obstacle_of))]
    fn read(alloc: Global, place: &Place, v: &Value) -> Result<Shape, WireFault> {
        object(alloc, place, v)?;
        let id = member::<IdForm>(alloc, place, "id", v)?;
        let spots = member::<ShapeForm>(alloc, place, "shape", v)?;
        Ok(Shape { id, spots })
    }
}

/// The obstacles of a scene.
pub(crate) type ObstaclesForm = AnyNumber<ObstacleForm>;

// Spots, shapes and frames.
ghost use Rattle.std.specs.Prelude.{◌≡◌};
ghost use Rattle.plan_spec.specs.Vector.{Vector};
ghost use Rattle.plan_spec.specs.Frame as placement;
ghost use Rattle.plan_grid.specs.Spot.{spot_seen};
ghost use Rattle.plan_grid.specs.Frame.{frame_seen};
ghost use Rattle.plan_wire.specs.Documents as definition;

use super::fault::WireFault;
use super::forms::{Between, Form};
use super::numbers::{four_numbers, two_numbers};
use super::place::Place;
use plan_grid::{Frame, MOST_CORNER, Spot};
use serde_json::Value;
use std::alloc::Global;

/// Two whole numbers from -1023 to 1023.
pub(crate) struct SpotForm;

impl Form for SpotForm {
    type Read = Spot;

    ghost Seen = { Vector };

    ghost seen = { spot_seen };

    ghost reads = { definition.spot_of };

    #[tactic(auto, unfolding(crate::specs::Documents::spot_of))]
    fn read(alloc: Global, place: &Place, v: &Value) -> Result<Spot, WireFault> {
        let [x, y] = two_numbers(alloc, place, v, MOST_CORNER)?;
        Ok(Spot { x, y })
    }
}

/// The spots of a robot.
pub(crate) type RobotForm = Between<SpotForm, 3, 16>;

/// The spots of an obstacle.
pub(crate) type ShapeForm = Between<SpotForm, 3, 32>;

// Whether the first corner is left of the second and below it.
fn is_frame(frame: Frame) -> bool
    ensures { result ≡ definition.is_frame (frame_seen frame) }
{
    frame.low.x < frame.high.x && frame.low.y < frame.high.y
}

/// Four whole numbers from -1023 to 1023, the corners of a frame.
pub(crate) struct FrameForm;

impl Form for FrameForm {
    type Read = Frame;

    ghost Seen = { placement.Frame };

    ghost seen = { frame_seen };

    ghost reads = { definition.frame_of };

    #[tactic(auto, unfolding(crate::specs::Documents::frame_of))]
    fn read(alloc: Global, place: &Place, v: &Value) -> Result<Frame, WireFault> {
        let [x1, y1, x2, y2] = four_numbers(alloc, place, v, MOST_CORNER)?;
        let frame = Frame {
            low: Spot { x: x1, y: y1 },
            high: Spot { x: x2, y: y2 },
        };
        if is_frame(frame) {
            Ok(frame)
        } else {
            Err(WireFault::range(alloc, place))
        }
    }
}

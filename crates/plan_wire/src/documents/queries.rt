// Queries.
ghost use Rattle.plan_wire.specs.Documents as definition;
ghost use Rattle.plan_wire.specs.Seen.{query_seen};

use super::fault::WireFault;
use super::forms::{Between, Form};
use super::numbers::four_numbers;
use super::place::Place;
use plan_cross::Query;
use plan_grid::{MOST_COORDINATE, Spot};
use serde_json::Value;
use std::alloc::Global;

/// Four whole numbers from -2046 to 2046: x and y of the start, x and y of the goal.
pub(crate) struct QueryForm;

impl Form for QueryForm {
    type Read = Query;

    ghost Seen = { definition.Query };

    ghost seen = { query_seen };

    ghost reads = { definition.query_of };

    #[tactic(auto, unfolding(crate::specs::Documents::query_of))]
    fn read(alloc: Global, place: &Place, v: &Value) -> Result<Query, WireFault> {
        let [x1, y1, x2, y2] = four_numbers(alloc, place, v, MOST_COORDINATE)?;
        Ok(Query {
            start: Spot { x: x1, y: y1 },
            goal: Spot { x: x2, y: y2 },
        })
    }
}

/// The queries of `plan`.
pub(crate) type QueriesForm = Between<QueryForm, 0, 64>;

/// The queries of a lane.
pub(crate) type LaneForm = Between<QueryForm, 0, 16>;

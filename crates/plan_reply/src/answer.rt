//! The reply to a query.

ghost use Rattle.std.specs.Prelude.{ℕ, IfOk, MatchOption};
ghost use Rattle.plan_spec.specs.Placement.{IsClear, Touches};
ghost use Rattle.plan_grid.specs.Spot.{spot_seen, IsWithin};
ghost use Rattle.plan_scene.specs.Scene.{scene_seen};
ghost use Rattle.plan_reply.specs.Rings.{IsClosedPart};
ghost use Rattle.plan_reply.specs.Seen.{answer_seen};
ghost use Rattle.plan_reply.specs.Stand.{IsReply, IsLowestAnswer, IsPart};

use crate::no_memory::NoMemory;
use crate::path::path_along;
use crate::reply::Reply;
use crate::stand::Stand;
use plan_cross::Query;
use plan_grid::{MOST_COORDINATE, Point, Spot};
use plan_ring::ring;
use std::alloc::Global;

impl Stand {
    /// The reply to a query with coordinates of at most 2046 in absolute value: what the start touches; else what the goal
    /// touches; else a path, or where none leads to the goal a chain that blocks.
    pub fn answer(&self, alloc: Global, query: Query) -> Result<Reply, NoMemory>
        requires start { IsWithin MOST_COORDINATE query.start }
        requires goal { IsWithin MOST_COORDINATE query.goal }
        ensures reply { IfOk result (λ r. IsReply (scene_seen self.now) (spot_seen query.start) (spot_seen query.goal) (answer_seen r)) }
        ensures lowest { IfOk result (λ r. IsLowestAnswer (answer_seen r)) }
    {
        if let Some(who) = self.scene.touches(&Point::of(query.start)) {
            return Ok(Reply::StartTouches(who));
        }
        if let Some(who) = self.scene.touches(&Point::of(query.goal)) {
            return Ok(Reply::GoalTouches(who));
        }
        self.way(alloc, query)
    }

    /// The part of the floor in which the spot is: the least number of a region that a walk joins to its own, so two spots
    /// are in one part exactly where a path leads from the one to the other. None exactly where the spot touches.
    /// Coordinates of at most 2046 in absolute value.
    pub fn part_of(&self, spot: Spot) -> Option<u32>
        requires { IsWithin MOST_COORDINATE spot }
        ensures { MatchOption result (Touches (scene_seen self.now) (spot_seen spot)) (IsPart (scene_seen self.now) (spot_seen spot)) }
    {
        prove!(self.scene.count() <= 64);
        let region = self.map.locate(spot)?;
        Some(self.labels[region.number as usize])
    }

    /// The part of the start, where the goal is in another. None exactly where one of them touches, or both are in one part.
    /// Coordinates of at most 2046 in absolute value.
    pub fn closed_part(&self, query: Query) -> Option<u32>
        requires start { IsWithin MOST_COORDINATE query.start }
        requires goal { IsWithin MOST_COORDINATE query.goal }
        ensures { MatchOption result
            ((part : ℕ) → ¬ (IsClosedPart (scene_seen self.now) (spot_seen query.start) (spot_seen query.goal) part))
            (IsClosedPart (scene_seen self.now) (spot_seen query.start) (spot_seen query.goal)) }
    {
        prove!(self.scene.count() <= 64);
        let start = self.part_of(query.start)?;
        let goal = self.part_of(query.goal)?;
        if start == goal { None } else { Some(start) }
    }

    // The path between start and goal, which are clear, or the chain that blocks.
    fn way(&self, alloc: Global, query: Query) -> Result<Reply, NoMemory>
        requires start { IsWithin MOST_COORDINATE query.start }
        requires goal { IsWithin MOST_COORDINATE query.goal }
        requires start_clear { IsClear (scene_seen self.now) (spot_seen query.start) }
        requires goal_clear { IsClear (scene_seen self.now) (spot_seen query.goal) }
        ensures reply { IfOk result (λ r. IsReply (scene_seen self.now) (spot_seen query.start) (spot_seen query.goal) (answer_seen r)) }
        ensures lowest { IfOk result (λ r. IsLowestAnswer (answer_seen r)) }
    {
        prove!(self.scene.count() <= 64);
        let Some(from) = self.map.locate(query.start) else {
            unreachable!()
        };
        let Some(to) = self.map.locate(query.goal) else {
            unreachable!()
        };
        if self.labels[from.number as usize] != self.labels[to.number as usize] {
            return Ok(Reply::Blocked(ring(alloc, &self.map, from)?));
        }
        match self.map.walk(alloc, from, to)? {
            Some(walk) => Ok(Reply::Path(path_along(alloc, &self.map, query, &walk)?)),
            None => unreachable!(),
        }
    }
}

// Edits and queries.
ghost use Rattle.std.specs.Prelude.{◌≡◌, IfOk, OnOk};
ghost use Rattle.plan_grid.specs.Spot.{spot_seen, IsWithin};
ghost use Rattle.plan_wire.specs.Bounds.{ChangeFits, QueryFits};
ghost use Rattle.plan_wire.specs.Seen.{edit_seen, query_seen};
ghost use Rattle.plan_demo.specs.Demo.{edit, after_edit, query, place};
ghost use Rattle.plan_demo.specs.Draws.{after};

use crate::draws::Draws;
use crate::floor::corner;
use crate::no_memory::NoMemory;
use plan_cross::Query;
use plan_grid::{MOST_COORDINATE, Spot};
use plan_wire::{Change, Shape};
use std::alloc::Global;

impl Draws {
    /// An edit.
    #[tactic(auto, unfolding(crate::specs::Demo::edit, crate::specs::Demo::after_edit))]
    pub fn edit(&mut self, alloc: Global) -> Result<Change, NoMemory>
        ensures fits { IfOk result ChangeFits }
        ensures seen { IfOk result (λ change. edit_seen change ≡ edit self.old) }
        ensures state { OnOk result (self.new ≡ after_edit self.old) }
    {
        let id = 1 + self.below(60);
        if self.below(2) == 0 {
            return Ok(Change::Remove(id));
        }
        let spots = self.rectangle(alloc)?;
        Ok(Change::Add(Shape { id, spots }))
    }

    /// A query.
    #[tactic(auto, unfolding(crate::specs::Demo::query))]
    pub fn query(&mut self) -> Query
        ensures fits { QueryFits result }
        ensures seen { query_seen result ≡ query self.old }
        ensures state { self.new ≡ after 4 self.old }
    {
        let start = self.place();
        let goal = self.place();
        Query { start, goal }
    }

    // A start or a goal.
    fn place(&mut self) -> Spot
        ensures fits { IsWithin MOST_COORDINATE result }
        ensures seen { spot_seen result ≡ place self.old }
        ensures state { self.new ≡ after 2 self.old }
    {
        let x = 1 + self.below(990);
        let y = 1 + self.below(990);
        corner(x, y)
    }
}

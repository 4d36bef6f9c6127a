ghost use Rattle.std.specs.Prelude.{◌≡◌, ◌≤◌, [], IfOk};

use crate::no_memory::NoMemory;
use crate::stay::Stay;
use crate::watcher::Watcher;
use std::alloc::Global;
use std::marker::Model;

/// The most pairs that a session tells: one for each accepted edit.
pub const MOST_PAIRS: usize = 2048;

/// The watcher that keeps the pairs that it was told, all and in order, and always wants more.
#[derive(Drop)]
pub struct Tally {
    pairs: Vec<(u32, u32)>,
}

impl Model for Tally {
    ghost use Rattle.std.specs.Prelude.{◌-◌, length};
    ghost use Rattle.std.specs.Vec.{vec_capacity};
    ghost use Rattle.plan_watch.specs.Tallied.{Tallied};

    ghost Value = { Tallied };

    ghost view = { λ t. record {
      pairs = t.pairs.items;
      room = vec_capacity t.pairs - length t.pairs.items;
    } };
}

impl Tally {
    /// It was told nothing, and has room for 2,048 pairs.
    pub fn new(alloc: Global) -> Result<Tally, NoMemory>
        ensures pairs { IfOk result (λ t. t.pairs ≡ []) }
        ensures room { IfOk result (λ t. MOST_PAIRS ≤ t.room) }
    {
        Ok(Tally {
            pairs: Vec::with_capacity(alloc, MOST_PAIRS)?,
        })
    }
}

impl Watcher for Tally {
    ghost use Rattle.std.specs.Prelude.{true};
    ghost use Rattle.plan_watch.specs.declared.stay.Stay.TheVariants.{More};

    ghost heard = { λ t. t.pairs };

    ghost room = { λ t. t.room };

    ghost will = { λ t version obstacles. More };

    ghost steady = { λ t. true };

    fn told(&mut self, version: u32, obstacles: u32) -> Stay {
        self.pairs.push_reserved((version, obstacles));
        Stay::More
    }

    fn kept(&self) -> &[(u32, u32)]
        ensures { result.now ≡ self.now.pairs }
    {
        self.pairs.as_slice()
    }
}

//! The rings of the parts of a floor.

ghost use Rattle.std.specs.Prelude.{IfOk};
ghost use Rattle.plan_reply.specs.Rings.{AreRings};

use crate::no_memory::NoMemory;
use crate::stand::Stand;
use plan_cross::Chain;
use plan_map::Region;
use plan_ring::ring;
use std::alloc::Global;

// The most parts of which rings are kept.
const MOST_PARTS: u32 = 64;

/// A part of the floor, by its number, and the chain around it.
#[derive(Drop)]
pub struct Ring {
    pub part: u32,
    pub chain: Chain,
}

impl Stand {
    /// The rings of the parts of the floor, by rising number; none where there are fewer than two parts, since no query is
    /// blocked there, or more than 64, since each ring looks at all regions. Each ring's chain is the reply to all
    /// queries from its part to another.
    pub fn rings(&self, alloc: Global) -> Result<Vec<Ring>, NoMemory>
        ensures { IfOk result (λ rings. AreRings self.now rings.items) }
    {
        prove!(self.scene.count() <= 64);
        let mut rings = Vec::new(alloc);
        if !are_few(&self.labels) {
            return Ok(rings);
        }
        for region in 0..self.labels.len() {
            let part = self.labels[region];
            if part as usize == region {
                let chain = ring(alloc, &self.map, Region { number: part })?;
                rings.push(Ring { part, chain }).map_err(|_| NoMemory)?;
            }
        }
        Ok(rings)
    }
}

// Whether there are 2 to 64 parts.
fn are_few(labels: &[u32]) -> bool {
    let mut parts: u32 = 0;
    for region in 0..labels.len() {
        if labels[region] as usize == region {
            parts = parts.saturating_add(1);
        }
    }
    2 <= parts && parts <= MOST_PARTS
}

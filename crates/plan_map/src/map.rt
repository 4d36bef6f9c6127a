ghost use Rattle.std.specs.Prelude.{◌≡◌, ◌<◌, IfOk, MatchOption, length};
ghost use Rattle.plan_spec.specs.Neighbours.{AreNeighbours};
ghost use Rattle.plan_spec.specs.Walks.{IsFirstWalk, IsComponent, AreJoined};
ghost use Rattle.plan_slab.specs.Subdivision.{slabs_of, regions_of};
ghost use Rattle.plan_map.specs.Labels.{AreLabels};

use crate::component::component;
use crate::labels::labels;
use crate::no_memory::NoMemory;
use crate::walk::{distances, first_walk};
use plan_slab::Slabs;
use std::alloc::Global;
use std::marker::Model;

/// A region of a map, by its number.
#[derive(Clone, Copy, Debug, PartialEq, Eq)]
pub struct Region {
    pub number: u32,
}

/// A walk: numbers of regions, each a neighbour of the next.
#[derive(Debug, Drop)]
pub struct Walk {
    pub regions: Vec<u32>,
}

/// A map of the placements: the regions of slabs, and which are joined by walks. Contracts see it as its slabs.
#[derive(Drop)]
pub struct Map {
    slabs: Slabs,
}

impl Model for Map {
    ghost use Rattle.plan_slab.specs.Subdivision.{Subdivision};

    ghost Value = { Subdivision };

    ghost view = { λ m. m.slabs };
}

impl Map {
    /// The map of these slabs.
    pub fn of(slabs: Slabs) -> Map
        ensures { result ≡ slabs }
    {
        Map { slabs }
    }

    /// The slabs that the map was made of.
    pub fn slabs(&self) -> &Slabs
        ensures { result.now ≡ self.now }
    {
        &self.slabs
    }

    /// Of the walks from one region to another with the fewest regions the first in list order; None exactly where no
    /// walk joins them. Both must be regions of this map.
    pub fn walk(&self, alloc: Global, from: Region, to: Region) -> Result<Option<Walk>, NoMemory>
        requires from { from.number < length (regions_of self.now) }
        requires to { to.number < length (regions_of self.now) }
        ensures { IfOk result (λ found. MatchOption found
            (¬ (AreJoined (AreNeighbours (slabs_of self.now) (regions_of self.now)) from.number to.number))
            (λ walk. IsFirstWalk (AreNeighbours (slabs_of self.now) (regions_of self.now)) from.number to.number walk.regions.items)) }
    {
        let rows = self.slabs.rows();
        let distances = distances(alloc, rows, to.number, Some(from.number))?;
        match first_walk(alloc, rows, &distances, from.number, to.number)? {
            Some(regions) => Ok(Some(Walk { regions })),
            None => Ok(None),
        }
    }

    /// The numbers of all regions that a walk joins to this one, itself among them, rising. It must be a region of this
    /// map.
    pub fn component(&self, alloc: Global, region: Region) -> Result<Vec<u32>, NoMemory>
        requires { region.number < length (regions_of self.now) }
        ensures { IfOk result (λ found. IsComponent (AreNeighbours (slabs_of self.now) (regions_of self.now)) region.number found.items) }
    {
        let found = component(alloc, self.slabs.rows(), region.number)?;
        Ok(found)
    }

    /// Of each region a number which those that walks join to it share, and no others: the least of theirs.
    pub fn labels(&self, alloc: Global) -> Result<Vec<u32>, NoMemory>
        ensures { IfOk result (λ labels. AreLabels (AreNeighbours (slabs_of self.now) (regions_of self.now)) (length (regions_of self.now)) labels.items) }
    {
        let found = labels(alloc, self.slabs.rows())?;
        Ok(found)
    }
}

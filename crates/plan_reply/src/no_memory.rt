use plan_map::NoMemory as MapNoMemory;
use plan_ring::NoMemory as RingNoMemory;
use std::alloc::AllocError;

/// There was no memory.
#[derive(Clone, Copy, Debug, PartialEq, Eq)]
pub struct NoMemory;

impl From<AllocError> for NoMemory {
    fn from(_: AllocError) -> NoMemory {
        NoMemory
    }
}

impl From<MapNoMemory> for NoMemory {
    fn from(_: MapNoMemory) -> NoMemory {
        NoMemory
    }
}

impl From<RingNoMemory> for NoMemory {
    fn from(_: RingNoMemory) -> NoMemory {
        NoMemory
    }
}

use std::alloc::AllocError;

/// There was no memory.
#[derive(Clone, Copy, Debug, PartialEq, Eq)]
pub struct NoMemory;

impl From<AllocError> for NoMemory {
    fn from(_: AllocError) -> NoMemory {
        NoMemory
    }
}

impl From<plan_map::NoMemory> for NoMemory {
    fn from(_: plan_map::NoMemory) -> NoMemory {
        NoMemory
    }
}

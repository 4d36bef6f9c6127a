/// Why an edit is refused. The first of these that holds, in this order, is the fault.
#[derive(Clone, Copy, Debug, PartialEq, Eq)]
pub enum EditFault {
    /// An obstacle of the id that was to be added is there: this id.
    Duplicate(u32),
    /// No obstacle of the id that was to be removed is there: this id.
    Unknown(u32),
    /// The edges of these numbers are the first two that meet wrongly, as `Polygon::read` tells them.
    NotSimple(u32, u32),
    /// 64 obstacles are there, and one was to be added.
    TooManyObstacles,
    /// With the new obstacle the scene would have this many sums, above 512.
    TooManySums(u32),
    /// There was no memory.
    NoMemory,
}

/// Why there is no scene.
#[derive(Clone, Copy, Debug, PartialEq, Eq)]
pub enum SceneFault {
    /// The robot has this many vertices, above 16.
    RobotMany(u32),
    /// There was no memory.
    NoMemory,
}

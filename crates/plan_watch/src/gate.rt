/// A place at which the planner calls a gate. Rounds, edits, lanes and queries count from 1, edges from 0.
#[derive(Clone, Copy, Debug, PartialEq, Eq)]
pub enum Place {
    /// Before that edit of the round.
    Edit { round: u32, edit: u32 },
    /// Before that query of the lane.
    Question { round: u32, lane: u32, query: u32 },
    /// A worker has drawn that edge.
    Claim { edge: u32 },
}

/// What the caller may hold a thread up with, or count its steps by. Threads share a gate, and each call returns.
pub trait Gate: Sync {
    /// Called at that place, by the thread that is there.
    fn pass(&self, place: Place);
}

/// The gate that lets everything pass at once.
#[derive(Clone, Copy, Debug)]
pub struct OpenGate;

impl Gate for OpenGate {
    fn pass(&self, _place: Place) {}
}

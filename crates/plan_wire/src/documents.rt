mod certificates;
mod fault;
mod forms;
mod numbers;
mod obstacles;
mod place;
mod queries;
mod read;
mod rounds;
mod spots;

pub use fault::WireFault;
use plan_cross::{Certificate, Query};
use plan_grid::{Frame, Spot};
pub use read::read_document;

/// Which command a document is for: the member or the members that it must have beside the scene.
#[derive(Clone, Copy, Debug, PartialEq, Eq)]
pub enum Want {
    /// `queries`
    Plan,
    /// `rounds`
    Session,
    /// `query` and `certificate`
    Check,
}

/// A document: a robot of 3 to 16 spots, the frame and the obstacles that are there at first, and what is asked.
/// Spots have coordinates from -1023 to 1023.
#[derive(Debug, Drop)]
pub struct Document {
    pub frame: Frame,
    pub robot: Vec<Spot>,
    pub obstacles: Vec<Shape>,
    pub task: Task,
}

/// An obstacle by its id from 1 to 65,535 and its 3 to 32 spots, with coordinates from -1023 to 1023.
#[derive(Debug, Drop)]
pub struct Shape {
    pub id: u32,
    pub spots: Vec<Spot>,
}

/// What is asked, by command. Starts and goals have coordinates from -2046 to 2046.
#[derive(Debug, Drop)]
pub enum Task {
    /// Of `plan`: at most 64 queries.
    Queries(Vec<Query>),
    /// Of `session`: at most 64 rounds.
    Rounds(Vec<Turn>),
    /// Of `check`: a query and what is offered as its answer.
    Proof {
        query: Query,
        certificate: Certificate,
    },
}

/// A round: at most 32 edits, and at most 8 lanes of at most 16 queries each.
#[derive(Debug, Drop)]
pub struct Turn {
    pub edits: Vec<Change>,
    pub lanes: Vec<Vec<Query>>,
}

/// An edit: an obstacle that is added, or the id from 1 to 65,535 of one that is removed.
#[derive(Debug, Drop)]
pub enum Change {
    Add(Shape),
    Remove(u32),
}

//! One version of a floor, which answers queries: with a path, with a chain that blocks, or with what start or goal
//! touches.
#![tactic(auto)]

mod answer;
mod fault;
mod first;
pub mod laws;
mod no_memory;
mod path;
mod reply;
mod ringed_stand;
mod rings;
mod stand;

pub use fault::{FirstFault, StandFault, StepFault};
pub use no_memory::NoMemory;
pub use reply::Reply;
pub use ringed_stand::RingedStand;
pub use rings::Ring;
pub use stand::Stand;

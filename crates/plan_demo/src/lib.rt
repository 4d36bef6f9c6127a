//! What a demonstration draws, by its number: a floor, and rounds of edits and queries.
#![tactic(auto)]

mod draws;
mod edits;
mod floor;
mod no_memory;

pub use draws::Draws;
pub use floor::{frame, robot};
pub use no_memory::NoMemory;

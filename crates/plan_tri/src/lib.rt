//! The triangles of a simple polygon.
#![tactic(auto)]

mod cutting;
mod no_memory;
mod search;
mod step;
mod triangle;

pub use cutting::triangulate;
pub use no_memory::NoMemory;
pub use triangle::{Triangle, Triangles};

//! The uncovered pieces of the edges of sums and of the sides of a room.
#![tactic(auto)]

mod all_edges;
mod boxes;
mod cover;
mod edge_pieces;
mod gaps;
mod in_room;
pub mod laws;
mod no_memory;
mod sorted;

pub use all_edges::uncovered;
pub use no_memory::NoMemory;

//! Location in slabs, walks through their regions, and connected components.
#![tactic(auto)]

mod component;
mod labels;
pub mod laws;
mod locate;
mod map;
mod neighbours;
mod no_memory;
mod search;
mod spot;
mod walk;

pub use map::{Map, Region, Walk};
pub use no_memory::NoMemory;

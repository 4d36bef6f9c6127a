//! The ring of a component of regions, and why it blocks.
#![tactic(auto)]

pub mod laws;
mod no_memory;
mod outline;

pub use no_memory::NoMemory;
pub use outline::ring;

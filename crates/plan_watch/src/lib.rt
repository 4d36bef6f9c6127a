//! The traits by which a caller looks in while the planner works.
#![tactic(auto)]

mod gate;
mod no_memory;
mod stay;
mod tally;
mod tell;
mod watcher;

pub use gate::{Gate, OpenGate, Place};
pub use no_memory::NoMemory;
pub use stay::Stay;
pub use tally::{MOST_PAIRS, Tally};
pub use tell::tell_all;
pub use watcher::Watcher;

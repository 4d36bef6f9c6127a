//! Checks of certificates: whether a path runs clear from start to goal, whether a chain blocks every path between the
//! two, and else the first fault.
#![tactic(auto)]

mod boxes;
mod certificate;
mod chain;
mod fault;
pub mod laws;
mod no_memory;
mod path;
mod room;
mod sums;
mod verdict;
mod whole_box;

pub use certificate::check;
pub use fault::CheckFault;
pub use no_memory::NoMemory;
pub use verdict::Verdict;

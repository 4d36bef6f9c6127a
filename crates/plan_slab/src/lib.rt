//! Event lines, slabs and regions of what the pieces of the boundary leave.
#![tactic(auto)]

mod bar;
mod build;
mod ends;
mod fault;
mod feet;
mod free;
pub mod laws;
mod level;
mod lines;
mod lot;
mod marks;
mod near;
mod neighbours;
mod numbers;
mod rising;
mod row;
mod rungs;
mod search;
mod slabs;
mod spans;
mod strand;
mod sweep;

pub use fault::SlabFault;
pub use feet::{foot, mediant_of};
pub use lot::Lot;
pub use row::Row;
pub use slabs::Slabs;
pub use strand::Strand;

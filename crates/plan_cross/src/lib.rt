//! Segments, certificates, and which points they go round: whether a segment stands over a point, parity, closed
//! chains, and the parity laws.
#![tactic(auto)]

mod certificate;
mod chain;
mod crossing;
mod ends;
pub mod laws;
mod no_memory;
mod polyline;
mod segment;

pub use certificate::{Certificate, Query};
pub use chain::{Chain, closed, first_unclosed};
pub use crossing::{over, parity};
pub use no_memory::NoMemory;
pub use polyline::Polyline;
pub use segment::Segment;

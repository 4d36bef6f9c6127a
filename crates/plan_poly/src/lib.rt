//! Simple polygons: whether a list of spots is one, its list counterclockwise from the least vertex, and the points
//! that it holds.
#![tactic(auto)]

mod edge;
mod fault;
mod first_wrong;
pub mod laws;
mod least;
mod polygon;

pub use fault::PolyFault;
pub use least::turn_to_least;
pub use polygon::Polygon;

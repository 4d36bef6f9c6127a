//! Convex polygons with few vertices, and the Minkowski sum of two triangles.
#![tactic(auto)]

mod boxes;
mod clip;
mod convex;
mod minkowski;
mod numbering;
mod parameter;
mod part;
mod piece;
mod triple;
mod vertices;
mod walk;

pub use boxes::{are_apart, bounds, edge_bounds};
pub use clip::Span;
pub use convex::Convex;
pub use minkowski::sum;
pub use numbering::{edge_count, edge_of};
pub use parameter::Parameter;
pub use part::Part;
pub use piece::{Piece, Pieces};
pub use triple::{Triple, x_of, y_of};

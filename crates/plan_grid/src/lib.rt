//! Points of the plane: whole-number spots, rational points, triangles and frames, and on which side of a line they lie.
#![tactic(auto)]

mod bounds;
mod frame;
mod gcd;
mod order;
mod point;
mod ratio;
mod segment;
mod sides;
mod spot;
mod triangle;

pub use bounds::{MOST_COORDINATE, MOST_CORNER, MOST_DENOMINATOR, MOST_WEIGHT};
pub use frame::Frame;
pub use point::{Point, compare};
pub use ratio::{Ratio, mediant, middle};
pub use segment::{height, on_segment};
pub use sides::{orientation, orientation_at, side, side_of};
pub use spot::Spot;
pub use triangle::{counterclockwise, from_least};

//! Scenes: a robot among obstacles in a frame, all of them simple polygons, their edits, and what a placement touches.
#![tactic(auto)]

mod edit;
mod fault;
pub mod laws;
mod obstacle;
mod scene;
mod shape;
mod sums;

pub use edit::Edit;
pub use fault::{EditFault, SceneFault};
pub use scene::Scene;

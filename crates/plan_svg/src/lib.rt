//! Drawings as SVG: a page of shapes, each by its class.
#![tactic(auto)]

mod class;
mod decimal;
mod page;
mod place;
mod shape;
mod text;

pub use class::Class;
pub use page::{caption_at, mark_at, put_head, put_tail, with_spots};
pub use place::Place;
pub use shape::{put_label, put_line, put_polygon, put_robot};

//! Published versions: one editor publishes entries, and readers look at the last one and never wait.
//! Of any two lists of entries that are known of one shelf, one begins the other.
#![tactic(auto)]

mod copies;
mod editor;
mod history;
mod no_memory;
mod reader;
mod rule;
mod shelf;
mod told;

pub use editor::{Editor, MOST_PUBLISHED};
pub use no_memory::NoMemory;
pub use reader::Reader;
pub use shelf::Shelf;
pub use told::Told;

//! Rounds of work: an editor publishes entries one after another, while lanes of questions are
//! answered beside it, each for entries that were published.
#![tactic(auto)]

mod collect;
mod edits;
mod ends;
mod job;
mod lane;
mod no_memory;
mod rounds;
mod run;
mod settle;
mod work;

pub use ends::{EditEnd, RoundEnd, Said};
pub use job::{Job, Outcome};
pub use lane::{MOST_QUESTIONS, answer_lane};
pub use no_memory::NoMemory;
pub use rounds::{MOST_LANES, round};

//! The top call of the planner: from words and bytes to a line and a status.
#![tactic(auto)]

mod answer;
mod arguments;
mod command;
mod counts;
mod demo;
mod demonstration;
mod first;
mod halt;
mod kept;
pub mod laws;
mod lines;
mod no_memory;
mod plan;
mod planning;
mod play;
mod reply;
mod round_lines;
mod session;
mod status;
mod tell;
mod top;
mod write;

pub use arguments::words_of;
pub use command::{Command, number_up_to};
pub use demo::run_demo;
pub use first::first_stand;
pub use lines::line_of;
pub use no_memory::NoMemory;
pub use plan::run_plan;
pub use plan_check::CheckFault;
pub use plan_scene::EditFault;
pub use session::run_session;
pub use status::{Refusal, Status};
pub use top::{run, run_check};

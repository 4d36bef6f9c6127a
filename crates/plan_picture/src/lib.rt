//! Pictures of floors, as SVG: of a query with its reply, and of a certificate with its verdict.
#![tactic(auto)]

mod answer;
mod command;
mod floor;
mod ground;
mod names;
mod picture;
mod shown;
mod top;
mod words;

pub use top::run;

//! The definitions that every contract of the planner cites, and their worked cases. No code that runs.
#![tactic(auto)]

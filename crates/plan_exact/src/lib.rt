//! Exact whole numbers, and the algebra that proofs about them rest on.
//!
//! `Whole` is a number of 128 bits that contracts see as an integer without bound. `proofs/` has polynomial
//! identities by reflection (`Ring`), signs of products (`Signs`), inequalities by certificate (`Certificates`) and
//! the laws of vectors of three integers (`Vectors`).
#![tactic(auto)]

mod whole;

pub use whole::Whole;

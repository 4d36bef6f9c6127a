//! Documents and their first refusals, texts of certificates, and sources and sinks that fail. There are only tests here.
#![tactic(auto)]

#[cfg(test)]
mod faults;
#[cfg(test)]
mod prints;
#[cfg(test)]
mod streams;
#[cfg(test)]
mod values;

//! Whole sessions: documents by their texts, with the lines, the status and the watchers' pairs that come of them. There
//! are only tests here.
#![tactic(auto)]

#[cfg(test)]
mod beside;
#[cfg(test)]
mod calls;
#[cfg(test)]
mod edits;
#[cfg(test)]
mod faults;
#[cfg(test)]
mod most;
#[cfg(test)]
mod places;
#[cfg(test)]
mod rounds;
#[cfg(test)]
mod stands;
#[cfg(test)]
mod versions;
#[cfg(test)]
mod watchers;

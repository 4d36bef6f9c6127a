//! The shelf, watchers and rounds, in threads and alone. There are only tests here.
#![tactic(auto)]

#[cfg(test)]
mod crew;
#[cfg(test)]
mod shelf;
#[cfg(test)]
mod watch;

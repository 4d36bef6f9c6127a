//! Whole runs of the planner: tables of words, documents, sources and sinks, with the code and the line that
//! answer them; pictures of its answers; and slabs, maps and rings of scenes, as text. There are only tests here.
#![tactic(auto)]

#[cfg(test)]
mod calls;
#[cfg(test)]
mod chains;
#[cfg(test)]
mod checks;
#[cfg(test)]
mod demos;
#[cfg(test)]
mod documents;
#[cfg(test)]
mod faults;
#[cfg(test)]
mod maps;
#[cfg(test)]
mod paths;
#[cfg(test)]
mod pictures;
#[cfg(test)]
mod plans;
#[cfg(test)]
mod polygons;
#[cfg(test)]
mod refusals;
#[cfg(test)]
mod scenes;
#[cfg(test)]
mod sizes;
#[cfg(test)]
mod slabs;
#[cfg(test)]
mod words;

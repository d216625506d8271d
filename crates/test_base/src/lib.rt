//! Types, sources and sinks, the demo's text, the worklist, and stacks, each by its public calls: tests of the crates that others stand on.
#![tactic(auto)]

#[cfg(test)]
mod defs;
#[cfg(test)]
mod demo;
#[cfg(test)]
mod frames;
#[cfg(test)]
mod io;
#[cfg(test)]
mod words;
#[cfg(test)]
mod worklist;

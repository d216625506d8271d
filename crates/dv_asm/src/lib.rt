//! The draft of a method's body is assembled into units with try entries and pools.
#![tactic(auto, using(crate::proofs::FirstLemmas::first_line_more))]

mod assembling;
mod catches;
mod groups;
mod handlers;
mod items;
mod labels;
mod laws;
mod lines;
mod payloads;
mod places;
mod ranges;
mod short;
mod switches;
mod tries;
mod units;

pub use assembling::assemble;
pub use laws::units_are_items;

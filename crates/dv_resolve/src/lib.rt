//! Linked programs: references to members resolved, the image whole, and its main method.
#![tactic(auto)]

mod declarers;
mod hints;
mod linking;
mod lookups;
mod main_method;
mod members;
mod orders;
mod pool_types;
mod pools;
mod resolving;
mod texts;

pub use linking::link;
pub use main_method::find_main;

//! What follows the guest's printed bytes in the final text of a run: the threads that died of an exception, what holds the others up where none
//! may step, and how the run ended.
#![tactic(auto)]

mod classes;
pub mod laws;
mod lines;
mod messages;
mod uncaught;

pub use lines::final_lines;

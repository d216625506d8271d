//! The top calls: they read a text, list it, verify it or run it, and write what there is to say of it.
#![tactic(auto)]

mod answering;
mod by_workers;
mod calls;
mod closing;
mod demo;
mod ended;
pub mod laws;
mod listing;
mod preparing;
mod printed;
mod printing;
mod program;
mod reading;
mod replaying;
mod reply;
mod report;
mod running;
mod scheduling;
mod status;
mod verdict;
mod words;
mod writing;

pub use calls::{dvm, dvm_alone};
pub use report::Report;
pub use status::Status;

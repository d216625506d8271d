//! What README shows of a host: the whole machine over memory, its parts as a tool calls them, and threads that the host schedules itself.
#![tactic(auto)]

mod error;
mod run;
mod schedule;
mod tools;

pub use error::HostError;
pub use run::run_main;
pub use schedule::{finish, lend_once, printed, run_by_turns, verified};
pub use tools::{
    body_of_five, classes_of, linked, listings, main_of, numbers, read_again, verdict,
};

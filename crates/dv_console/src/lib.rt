//! What a command line asks for, and the lines that tell refusals and faults.
#![tactic(auto)]

mod command;
mod faults;
mod keys;
mod kinds;
mod names;
mod refusals;
mod words;

pub use command::{Cmd, WordError};
pub use faults::{accepted_line, fault_line, method_fault_line};
pub use refusals::{Refusal, refusal_line};
pub use words::{default_limits, read_words};

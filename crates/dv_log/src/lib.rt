//! The schedule of a run as text: an entry a line, written and read.
#![tactic(auto)]

mod error;
mod laws;
mod read;
mod write;

pub use error::LogError;
pub use laws::{logs_are_read_again, readings_are_determined};
pub use read::read_log;
pub use write::print_log;

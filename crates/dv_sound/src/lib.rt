//! A machine that runs a verified program, and whose state is the replay of its log: turns, replay and seeded runs. No call has an answer for a
//! machine that is stuck.
#![tactic(auto)]

mod error;
pub mod laws;
mod lending;
mod moves;
mod playing;
mod premises;
mod replay;
mod running;
mod safe;
mod seeded;
mod trying;
mod words;

pub use error::ReplayError;
pub use lending::Refused;
pub use safe::SafeVm;
pub use trying::Tried;

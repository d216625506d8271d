//! The engine on plain words: guest threads step by step (AOSP, "Dalvik bytecode format"; JLS 11.3, 12.4, 17).
#![tactic(auto)]

mod advancing;
mod code;
mod ending;
mod flight;
mod guest;
pub mod laws;
mod opening;
mod records;
mod settling;
mod vm;
mod waiting;

pub use guest::Guest;
pub use vm::{Step, Vm};

//! A text's classes read and linked behind the boot classes: the image with the schedule at the text's end, or why the text is
//! refused; and the main method of a class.
#![tactic(auto)]

mod errors;
pub mod laws;
mod mains;
mod program;

pub use errors::ProgramError;
pub use mains::main_method;
pub use program::{Scheduled, read_program, read_scheduled};

//! The demo: a program that is made from a number, with as many classes and threads as are asked for.
#![tactic(auto)]

mod program;

pub use program::program_of;

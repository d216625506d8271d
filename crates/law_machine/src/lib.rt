//! The laws by which verified code never goes wrong, over the definitions of the tagged machine.
//! Each law is the contract of a function that does nothing.
#![tactic(auto)]

pub mod bridge;
pub mod calls;
pub mod exceptions;
pub mod heap;
pub mod local;
pub mod opening;
pub mod order;
pub mod registers;
pub mod sound;
pub mod threads;

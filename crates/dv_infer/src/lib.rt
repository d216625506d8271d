//! The least assignment of states to the instructions of a method, or the method's faults.
#![tactic(auto)]

mod errors;
mod faults;
mod filling;
mod flow;
mod leap;
mod method;
mod onward;
mod receivers;
mod states;
mod work;

pub use errors::InferError;
pub use method::{infer, infer_by};

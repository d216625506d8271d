//! All methods of an image verified.
#![tactic(auto)]

mod errors;
mod halves;
mod judge;
mod verify;
mod work;

pub use errors::VerifyError;
pub use verify::{verify_all, verify_one_by_one};

//! Exceptions in flight (JLS 11.3, 12.4.2), and the exceptions that the machine makes itself, on plain words.
#![tactic(auto)]

mod fields;
mod handlers;
mod made;
mod names;
mod records;
mod unwinding;

pub use fields::throwable_slot;
pub use made::make;
pub use unwinding::unwind_step;

//! Invokes and returns of the frame on top of a guest thread's stack, on plain words (AOSP, "Dalvik bytecode format"; JLS 15.12.4).
//! Nothing here takes memory.
#![tactic(auto)]

mod invokes;
mod landings;
mod laws;
mod returns;
mod step;
mod tops;

pub use invokes::{enter, invoke, registers_of};
pub use landings::{Landed, land};
pub use laws::invokes_land;
pub use returns::{return_value, return_void};
pub use step::call_step;

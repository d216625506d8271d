//! What each instruction demands of the state before it (AOSP, "Dalvik bytecode constraints"; V1 to V14 are this product's own names).
#![tactic(auto)]

mod arguments;
mod arrays;
mod assigning;
mod demands;
mod fields;
mod invokes;
mod named;
mod operands;
mod payloads;
mod reads;
mod returns;
mod values;

pub use demands::{demand_of, ok_of};
pub use invokes::is_constructor;

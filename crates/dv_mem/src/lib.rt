//! Instructions on objects, arrays and fields, divisions and casts, on plain words (AOSP, "Dalvik bytecode format").
#![tactic(auto)]

mod divisions;
mod elements;
mod fields;
mod filled;
mod filling;
mod instances;
mod laws;
mod made;
mod narrowing;
mod payload;
mod registers;
mod step;
mod words;

pub use laws::operands_stand;
pub use step::{mem_step, operate};

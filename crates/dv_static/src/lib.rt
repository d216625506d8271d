//! The static rules of a method's body, S1 to S18 (the product's own names; AOSP, "Dalvik bytecode constraints").
#![tactic(auto)]

mod branches;
mod calls;
mod families;
mod faults;
mod insns;
mod members;
mod operations;
mod payloads;
mod places;
mod registers;
mod starts;
mod tiles;
mod tries;

pub use faults::static_faults;

//! Registers that are fed through an element of their own arrays, found along a method's plan: no closed assignment has a class or an array there.
#![tactic(auto)]

mod effects;
mod search;
mod seen;

pub use effects::Level;
pub use search::holds_no_class;

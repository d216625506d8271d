//! What the inference of a method's types goes by: each instruction's effect and the ways on from it, made once a method.
#![tactic(auto)]

mod beginnings;
mod hops;
mod marks;
mod plan;
mod steps;
mod ways;

pub use hops::Hop;
pub use marks::Mark;
pub use plan::{Plan, plan_of};
pub use ways::Ways;

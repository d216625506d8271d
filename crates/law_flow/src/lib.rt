//! The laws by which the least assignment of a method is found: linked classes are a hierarchy, a body without static faults has
//! what fetching asks, states rise a bounded number of times, what fits stays fitting, and there is one list of faults at most.
//! Each law is the contract of a function that does nothing.
#![tactic(auto)]

pub mod clean;
pub mod faults;
pub mod fits;
pub mod hierarchies;
pub mod ranks;

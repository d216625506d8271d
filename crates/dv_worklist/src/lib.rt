//! The least assignment of states to places that is closed under their flow, by a worklist
//! (Kildall 1973; Nielson, Nielson and Hankin, "Principles of Program Analysis", 2.4).
#![tactic(auto)]

mod flows;
mod onwards;
mod solve;
mod waiting;

pub use flows::Flow;
pub use onwards::Onwards;
pub use solve::least;

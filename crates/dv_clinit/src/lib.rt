//! How far each class is initialised, what a thread that needs a class does, and the method that initialises a class (JLS 12.4).
#![tactic(auto)]

mod births;
mod methods;
mod prior;
mod states;

pub use methods::initialiser;
pub use prior::prior_to;
pub use states::{ClassStates, State};

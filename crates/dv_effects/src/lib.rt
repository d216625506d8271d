//! Instructions as steps, which are made once and then applied to states that are words.
#![tactic(auto)]

mod apply;
mod calls;
mod effects;
mod entry;
mod objects;
mod registers;
mod steps;
mod types;
mod values;

pub use apply::{after, caught};
pub use effects::{Effect, Step};
pub use entry::entry_words;
pub use steps::step_of;
pub use types::object_word;

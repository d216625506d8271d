//! Register types as words of 32 bits, over classes that are numbered.
#![tactic(auto)]

mod bases;
mod copies;
mod states;
mod words;

pub use bases::Bases;
pub use states::{PendingWord, Words};
pub use words::{Part, Reference, part_of, word_of};

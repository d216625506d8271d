//! Register types and states of the verifier: their order and their joins.
#![tactic(auto)]

mod classes;
mod joins;
mod order;
mod rows;
mod word_types;

pub use classes::ClassTable;
pub use joins::{join, join_types};
pub use order::{is_below, le};
pub use rows::Row;
pub use word_types::{common_of, is_same_word, is_sub, is_word_under, joined_word};

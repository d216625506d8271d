//! The guest's heap on words: one vector of words with a table of where the objects begin.
#![tactic(auto)]

mod blocks;
mod borrowed;
mod contents;
mod error;
mod fields;
mod heap;
mod kinds;
mod making;
mod objects;
mod statics;
mod types;

pub use error::HeapError;
pub use heap::Heap;

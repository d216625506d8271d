//! Bodies of methods, read from the lines of a smali text: a draft, or a raw body. Beside them the parts of lines that
//! readers of classes need: what a line is, which line counts next, its pieces, and what single words mean.
#![tactic(auto)]

mod body;
mod body_line;
mod drafting;
mod head;
mod kept;
mod laws;
mod names;
mod operands;
pub mod parts;
mod pieces;
mod raw_body;
mod raw_line;
pub mod references;
mod refusal;
mod registers;
mod shape;
pub mod words;

pub use body::read_body;
pub use head::{Block, Directive, Head, head_of};
pub use kept::{Next, next_line};
pub use laws::{numbers_are_spelled, printed_references_are_read, strings_are_written};
pub use operands::read_operands;
pub use pieces::{Piece, read_tokens};
pub use raw_body::read_raw;
pub use refusal::Refusal;
pub use words::Frame;

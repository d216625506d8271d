// The laws: each is the contract of a function that does nothing.
mod grammar;
mod lines;
mod literals;
mod names;
mod numbers;

pub use grammar::{
    lexemes_are_tokens, literals_are_tokens, tokens_are_all, tokens_are_found, words_are_tokens,
};
pub use lines::{printed_lines_are_lines, rows_are_lines};
pub use literals::{literals_are_utf8, printed_strings_are_literals, units_are_determined};
pub use names::{descriptors_are_words, names_are_words, references_are_words};
pub use numbers::{numbers_are_determined, printed_numbers_are_read, words_of_numbers};

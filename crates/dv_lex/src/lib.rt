//! Smali text as lines and tokens, and the numbers and literals among these.
#![tactic(auto)]

mod bytes;
mod laws;
mod line;
mod literal;
mod numbers;
mod token;

pub use laws::{
    descriptors_are_words, lexemes_are_tokens, literals_are_tokens, literals_are_utf8,
    names_are_words, numbers_are_determined, printed_lines_are_lines, printed_numbers_are_read,
    printed_strings_are_literals, references_are_words, rows_are_lines, tokens_are_all,
    tokens_are_found, units_are_determined, words_are_tokens, words_of_numbers,
};
pub use line::{GoodLines, Line, Stop, good_lines, line_tokens, lines};
pub use literal::{char_unit, string_units};
pub use numbers::{is_number, number};
pub use token::{Token, TokenKind};

//! The stacks of guest threads on plain words (AOSP, "Dalvik bytecode", general design; JVMS 2.5.2): the registers of all frames of a
//! thread lie in one arena.
#![tactic(auto)]

mod arguments;
mod heads;
mod levels;
mod registers;
mod stack;

pub use heads::{Head, begin, given, go, handling, high_word, low_word};
pub use levels::{Level, Top, base_of, last, set_last};
pub use registers::{set_two, set_word, two_words, word, words_are_whole};
pub use stack::{Full, Stack};

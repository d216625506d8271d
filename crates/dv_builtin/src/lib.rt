//! The native methods of texts on plain words: of String (Java SE API, java.lang.String), of dvm.Text and of dvm.Console. A string is
//! its units of UTF-16.
#![tactic(auto)]

mod chars;
mod encoding;
mod making;
mod natives;
mod printing;
mod registers;
mod step;
mod strings;
mod units;

pub use natives::native_step;
pub use step::builtin_step;

//! Descriptors of types and prototypes, read and printed, the Java text of a class, and texts in UTF-8 and UTF-16.
//! Types are those of the Dalvik executable format (AOSP, "Dalvik executable format", TypeDescriptor) without floats,
//! and a prototype is written as a method descriptor (JVMS 4.3.3).
#![tactic(auto)]

mod error;
mod names;
mod parse;
mod print;
mod units;

pub use error::NameError;
pub use parse::{parse_proto, parse_type};
pub use print::{java_text, print_proto, print_type};
pub use units::{chars_of_utf8, utf8_of_chars};

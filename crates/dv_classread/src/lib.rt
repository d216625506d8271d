//! The lines of classes, read from a smali text.
#![tactic(auto)]

mod assembling;
mod class_line;
mod lines;
mod method;
mod program;
mod schedule;
mod text;

pub use class_line::{ClassHead, ClassLine, Signature, Standing, read_class_line};
pub use program::{BodyDraft, ClassDraft, MethodDraft};
pub use text::{Read, read_classes};

//! The boot classes, which each program finds beside its own: their text, and their native methods.
#![tactic(auto)]

mod natives;
mod text;

pub use natives::native;
pub use text::{BOOT_TEXT, boot_text};

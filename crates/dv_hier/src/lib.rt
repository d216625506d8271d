//! The hierarchy of the classes that are linked: which stand above which, and the cells of their objects.
#![tactic(auto)]

mod above;
mod ancestors;
mod boot;
mod boot_rows;
mod building;
mod cycles;
mod faults;
mod fields;
mod hierarchy;
mod interfaces;
mod limits;
mod names;
mod numbering;
mod slots;

pub use building::build;
pub use faults::error_of;
pub use hierarchy::{Classes, Hierarchy};

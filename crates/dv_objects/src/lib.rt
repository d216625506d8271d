//! What the objects of a heap are: their classes, and the types of which they are instances. Nothing here takes memory.
#![tactic(auto)]

mod classes;
mod instances;

pub use classes::class_of_object;
pub use instances::{has_interface, is_instance, is_instance_of, is_of_class};

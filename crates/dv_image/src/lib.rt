//! Questions about an image: subtypes, the nearest common superclass, where fields are found, and what calls on objects select.
#![tactic(auto)]

mod classes;
mod common;
mod fields;
mod instances;
mod named;
mod selecting;
mod subtypes;

pub use classes::{OBJECT, class_of, has_interface_flag, is_interface, parent_of};
pub use common::{class_of_base, common_super};
pub use fields::field_of;
pub use instances::implements;
pub use named::{boot_class, is_class_instance};
pub use selecting::select;
pub use subtypes::{Ascent, assignable, instance, is_base_under, is_under_class, sub};

//! The methods of the classes that are linked: which may not stand as they are declared, and what calls on objects select.
#![tactic(auto)]

mod bodies;
mod chains;
mod choosing;
mod finals;
mod key_numbers;
mod keys;
mod marks;
mod methods;
mod numbering;
mod offering;
mod offers;
mod priors;
mod rows;
mod sources;
mod table;
mod tabled;
mod tabling;

pub use keys::{MethodKey, key_of};
pub use tabled::{Tabled, tables};

//! The operation that stands at an address of a body, with members, types and addresses in place of indices (AOSP, "Dalvik bytecode format").
#![tactic(auto)]

mod fetch;
mod items;
mod members;
mod op;
mod parts;
mod pools;
mod resolving;
mod walk;

pub use fetch::{begins_insn_next, op_at};
pub use items::{item_units, units_of};
pub use members::{Coded, Field, Method, coded_at, field_at, method_at};
pub use op::{Arg, Op};
pub use resolving::resolve;
pub use walk::begins_insn_at;

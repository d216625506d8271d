//! The instruction at which a frame goes on, with its operands resolved: one that is met often is read off its units at once, any other is decoded
//! and resolved (AOSP, "Dalvik executable instruction formats" and "Dalvik bytecode format").
#![tactic(auto)]

mod accesses;
mod instruction;
mod invokes;
mod operations;
mod plain;
mod pooled;
mod spelled;

pub use instruction::{Instruction, instruction_of, opcode_of};
pub use operations::{is_local, needs};

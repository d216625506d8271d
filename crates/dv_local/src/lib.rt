//! The instructions that touch one frame alone, on plain words (AOSP, "Dalvik bytecode format").
#![tactic(auto)]

mod arithmetic;
mod branching;
mod dispatch;
mod frames;
mod here;
mod moving;
mod numbers;
mod slice;
mod spelled_arithmetic;
mod spelled_branches;
mod spelled_moves;
mod step;
mod tops;

pub use frames::{is_local, local_step, opcode_is_local, run_frame};
pub use slice::{Slice, run_slice};
pub use tops::{step_top, steps_top};

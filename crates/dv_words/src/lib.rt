//! The engine's state on plain words: what frames, stacks, heaps, threads and machines are without tags, what each call makes of them, and
//! erasure, which ties them to the tagged machine.
#![tactic(auto)]

mod state;

pub use state::{Frame, Kept, Kind, Level};

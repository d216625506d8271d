//! How the virtual machine reaches the outside: [`Source`] is where the text comes from, [`Sink`]
//! is where the output goes, and [`Gate`] is told where the workers are. A source and a sink count
//! their faults, so that a failure always has a cause that can be shown. There are versions over
//! memory that fail on demand ([`MemSource`], [`MemSink`]), versions that never fail
//! ([`PlainSource`], [`PlainSink`], [`NoGate`]), and adapters over std's readers and writers
//! ([`StdSource`], [`StdSink`]).
#![tactic(auto)]

mod memory;
mod plain;
mod pouring;
mod standard;
mod traits;

pub use memory::{MemSink, MemSource};
pub use plain::{NoGate, PlainSink, PlainSource};
pub use pouring::{Poured, pour};
pub use standard::{StdSink, StdSource};
pub use traits::{Failed, Gate, Sink, Source};

//! The top calls over sources and sinks that fail, and under a gate: tests alone.
#![tactic(auto)]

#[cfg(test)]
mod gates;
#[cfg(test)]
mod top;

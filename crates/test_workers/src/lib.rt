//! Whole programs that several threads run, into sinks that fail and past gates that hold a worker up: tests alone.
#![tactic(auto)]

#[cfg(test)]
mod gates;
#[cfg(test)]
mod outputs;
#[cfg(test)]
mod running;
#[cfg(test)]
mod texts;

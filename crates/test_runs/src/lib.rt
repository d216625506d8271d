//! Whole texts are read, linked, verified and run, step by step and in slices: tests that cross crates.
#![tactic(auto)]

#[cfg(test)]
mod class_waits;
#[cfg(test)]
mod endings;
#[cfg(test)]
mod openings;
#[cfg(test)]
mod run;
#[cfg(test)]
mod running;
#[cfg(test)]
mod slices;
#[cfg(test)]
mod waiting;

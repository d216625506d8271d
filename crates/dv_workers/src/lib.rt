//! A verified program that several threads run: each takes the machine out of its place, does turns on it or local steps of a thread beside
//! it, and puts it back; what the program prints goes out meanwhile.
#![tactic(auto)]

mod began;
mod chore;
mod crew;
mod desk;
mod hall;
mod pouring;
mod rule;
mod run;
mod turning;
mod view;

pub use run::{Ran, run_workers};

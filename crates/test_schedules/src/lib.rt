//! Whole programs are run by turns and in slices, replayed and brought to a host's limits: tests that cross crates.
#![tactic(auto)]

#[cfg(test)]
mod committing;
#[cfg(test)]
mod fitting;
#[cfg(test)]
mod lending;
#[cfg(test)]
mod limits;
#[cfg(test)]
mod pairs;
#[cfg(test)]
mod playing;
#[cfg(test)]
mod replays;
#[cfg(test)]
mod slices;
#[cfg(test)]
mod texts;
#[cfg(test)]
mod turns;
#[cfg(test)]
mod workers;

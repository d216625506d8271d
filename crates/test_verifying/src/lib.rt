//! Texts are read, linked and verified: tests that cross crates.
#![tactic(auto)]

#[cfg(test)]
mod order_tests;
#[cfg(test)]
mod rule_rows;
#[cfg(test)]
mod rule_tests;
#[cfg(test)]
mod states;

//! Texts are read and linked: tests that cross crates.
#![tactic(auto)]

#[cfg(test)]
mod tests;

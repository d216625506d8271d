//! The laws of erasure, and that the steps on plain words go where the tagged machine's steps go.
//! Each law is the contract of a function that does nothing.
#![tactic(auto)]

pub mod erasure;
pub mod laws;

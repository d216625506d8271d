//! The laws of linking's definitions.
#![tactic(auto)]

//! The tagged machine: its states and steps, runs, replay, and well-typed states, as definitions.
#![tactic(auto)]

//! What the verifier knows of registers, and the rules by which it accepts a program, as definitions: the static rules, what instructions
//! demand of states and make of them, the flow of states, joins, and acceptance.
#![tactic(auto)]

mod typing;

pub use typing::{PendingType, RegState, RegType};

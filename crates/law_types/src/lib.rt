//! The laws of the verifier's types and states, over each image whose classes are a hierarchy: subtype is an order, states are
//! ordered with least upper bounds, transfer goes up the order, and demand goes down. Each law is the contract of a function
//! that does nothing.
#![tactic(auto)]

ghost use Rattle.law_types.specs.Laws.{TypesAreOrdered, StatesAreOrdered, JoinIsLeast, TransferIsMonotone, DemandIsAntitone};

/// Subtype is an order, and assignable, instance and fits go along it.
#[tactic(auto, using(crate::proofs::Laws::types_are_ordered))]
pub fn types_are_ordered()
    ensures law { TypesAreOrdered }
{}

/// So are states.
#[tactic(auto, using(crate::proofs::States::states_are_ordered))]
pub fn states_are_ordered()
    ensures law { StatesAreOrdered }
{}

/// The join of two states is the least state above both.
pub fn join_is_least()
    ensures law { JoinIsLeast }
{}

/// A state above leads to a state above.
pub fn transfer_is_monotone()
    ensures law { TransferIsMonotone }
{}

/// An instruction that is satisfied with a state is satisfied with each below it.
pub fn demand_is_antitone()
    ensures law { DemandIsAntitone }
{}

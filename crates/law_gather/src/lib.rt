//! The laws by which the states that the instructions of a try entry hand on are gathered at one place before they go on to handlers.
//! Each law is the contract of a function that does nothing.
#![tactic(auto)]

ghost use Rattle.law_gather.specs.Laws.{GatheredFlowsAreLawful, GatheredAssignmentsAreLeast};

/// The flow that gathers is what the worklist asks.
pub fn gathered_flows_are_lawful()
    ensures law { GatheredFlowsAreLawful }
{}

/// Its least assignment, cut to the instructions, is that of the flow that doesn't gather.
pub fn gathered_assignments_are_least()
    ensures law { GatheredAssignmentsAreLeast }
{}

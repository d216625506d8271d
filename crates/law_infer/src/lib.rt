//! The laws that tie the worklist's least assignment to the least typing of a method and to its faults. Each law is the contract of a
//! function that does nothing.
#![tactic(auto)]

ghost use Rattle.law_infer.specs.Laws.{FlowsAreLawful, LeastAssignmentsAreLeast, FaultsAreByAddress, NoFaultsGiveTypings, FaultsRefuseTypings};

/// The flow of a method's states is what the worklist asks.
pub fn flows_are_lawful()
    ensures law { FlowsAreLawful }
{}

/// The worklist's least assignment is the method's.
pub fn least_assignments_are_least()
    ensures law { LeastAssignmentsAreLeast }
{}

/// Address by address, the faults are those of the instructions.
pub fn faults_are_by_address()
    ensures law { FaultsAreByAddress }
{}

/// A least assignment without faults is a typing.
pub fn no_faults_give_typings()
    ensures law { NoFaultsGiveTypings }
{}

/// Where the least assignment has a fault, there is no typing.
pub fn faults_refuse_typings()
    ensures law { FaultsRefuseTypings }
{}

//! The laws by which states are kept at the heads of straight code alone, and those in between follow from them.
//! Each law is the contract of a function that does nothing.
#![tactic(auto)]

ghost use Rattle.law_blocks.specs.Laws.{BlockFlowsAreLawful, BlockAssignmentsAreLeast};

/// The flow from head to head is what the worklist asks.
pub fn block_flows_are_lawful()
    ensures law { BlockFlowsAreLawful }
{}

/// Its least assignment, filled in between the heads, is that of the flow from instruction to instruction.
pub fn block_assignments_are_least()
    ensures law { BlockAssignmentsAreLeast }
{}

//! Bodies without static faults.
ghost use Rattle.law_flow.specs.Laws.{CleanBodies};

/// A body without static faults is clean: its instructions are fetched, and its jumps and handlers lead to instructions.
pub fn clean_bodies()
    ensures law { CleanBodies }
{}

//! The laws by which a register that is fed through an element of its own arrays is known to hold no class or array in any closed assignment.
//! Each law is the contract of a function that does nothing.
#![tactic(auto)]

ghost use Rattle.law_levels.specs.Laws.{BoundsAreCaught, BoundsAreHanded, BoundsBegin, BoundsEnd, BoundsGoOn};

/// A register is no deeper than itself.
pub fn bounds_begin()
    ensures law { BoundsBegin }
{}

/// What goes on from an instruction is bounded as that carries bounds.
pub fn bounds_go_on()
    ensures law { BoundsGoOn }
{}

/// What is handed on to a try entry is bounded as it was.
pub fn bounds_are_handed()
    ensures law { BoundsAreHanded }
{}

/// What goes on from there to handlers is, too.
pub fn bounds_are_caught()
    ensures law { BoundsAreCaught }
{}

/// A register that is shallower than itself holds no class or array.
pub fn bounds_end()
    ensures law { BoundsEnd }
{}

//! What was printed stays printed: what a step, the steps of an entry and a turn leave of the output begins with what was there.
//! Each law is the contract of a function that does nothing.
#![tactic(auto)]

ghost use Rattle.law_output.specs.Laws.{EntriesPrintOn, OpeningsPrintNothing, StepsPrintOn, TurnsPrintOn};

/// A step of any thread.
pub fn steps_print_on()
    ensures law { StepsPrintOn }
{}

/// The steps of an entry.
pub fn entries_print_on()
    ensures law { EntriesPrintOn }
{}

/// A turn of any thread.
pub fn turns_print_on()
    ensures law { TurnsPrintOn }
{}

/// A run begins with nothing printed.
pub fn openings_print_nothing()
    ensures law { OpeningsPrintNothing }
{}

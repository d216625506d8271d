// The law of the state in which a run begins.
ghost use Rattle.law_machine.specs.StepLaws.{OpeningIsWellTyped};

/// The state in which a run of an accepted image begins is well typed.
pub fn opening_is_well_typed()
    ensures law { OpeningIsWellTyped }
{}

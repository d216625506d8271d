// Conformity along the order of types and of states.
ghost use Rattle.law_machine.specs.Conformity.{ValueConformityGoesUp, RegisterConformityGoesUp, FrameConformityGoesUp};

/// What conforms to a type or a state conforms to each one above it.
pub fn conformity_goes_up()
    ensures values { ValueConformityGoesUp }
    ensures registers { RegisterConformityGoesUp }
    ensures frames { FrameConformityGoesUp }
{}

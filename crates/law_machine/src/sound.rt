// That verified code never goes wrong, from the laws of its parts.
ghost use Rattle.law_machine.specs.AllLaws.{AllLaws};
ghost use Rattle.law_machine.specs.StepLaws.{StepsAreSound};
ghost use Rattle.law_machine.specs.Running.{AcceptedRunsNeverGoWrong};

/// Every step of a runnable thread leads from a well-typed state to a well-typed one.
pub fn steps_are_sound()
    ensures law { StepsAreSound }
{}

/// No run of a main method of a linked image that the verifier accepts is ever stuck, on any schedule.
pub fn runs_never_go_wrong()
    ensures law { AcceptedRunsNeverGoWrong }
{}

/// Each law that dv_machine states, side by side.
pub fn all_laws()
    ensures law { AllLaws }
{}

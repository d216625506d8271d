// The laws of exceptions in flight.
ghost use Rattle.law_machine.specs.StepLaws.{ThrowerIsHandled, CallersAreHandled, NeedersAreHandled, SettledIsWellTyped, SettledRecordIsWellTyped, FlightsAreFine};

/// Each frame that an exception may reach finds its handlers in order: the one that throws, its callers, and those below a record.
pub fn handlers_are_found()
    ensures thrower { ThrowerIsHandled }
    ensures callers { CallersAreHandled }
    ensures needers { NeedersAreHandled }
{}

/// What a step of an instruction or of a record does, settled, leaves a well-typed state.
pub fn outcomes_are_settled()
    ensures instruction { SettledIsWellTyped }
    ensures record_of_class { SettledRecordIsWellTyped }
{}

/// One level of an exception's flight leaves a well-typed state: a frame catches it or is dropped, a record is dropped.
pub fn flights_are_fine()
    ensures law { FlightsAreFine }
{}

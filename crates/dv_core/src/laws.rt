// What a step of the engine takes holds wherever code is accepted.
ghost use Rattle.dv_core.specs.Laws.{StepsFit};
ghost use Rattle.dv_core.specs.Watching.{WatchesFit};

/// In words that stand for a well-typed state of an accepted image, what a step of a thread takes holds: its frame stands at an instruction whose
/// operands fit, its caller at the invoke, and a record of a class on top is of one that the thread has in progress.
pub fn steps_fit()
    ensures law { StepsFit }
{}

/// In such words what holds threads up can be told: each living thread stands at an instruction whose call fits, or at a record of a class.
pub fn watches_fit()
    ensures law { WatchesFit }
{}

// No turn and no seeded run is stuck. Each law is the contract of a function that does nothing.
ghost use Rattle.dv_sound.specs.Laws.{SeededLogsFinish, SeedsNeverStick, TurnsNeverStick};

/// A turn of any thread from a well-typed state of an accepted image is done, and the state after it is well typed.
pub fn turns_never_stick()
    ensures law { TurnsNeverStick }
{}

/// The turns that any words pick from such a state make a schedule.
pub fn seeds_never_stick()
    ensures law { SeedsNeverStick }
{}

/// Each seed has a schedule of a main method of a linked image that the verifier accepts: it is legal, and leads to an ending.
pub fn seeded_logs_finish()
    ensures law { SeededLogsFinish }
{}

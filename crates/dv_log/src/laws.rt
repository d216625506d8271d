// The laws of schedules as text.
ghost use Rattle.dv_log.specs.Laws.{LogsAreReadAgain, ReadingsAreDetermined};

/// The printed lines of a schedule are read as that schedule, if its entries are in range.
pub fn logs_are_read_again()
    ensures { LogsAreReadAgain }
{}

/// Lines are read in one way: there is one schedule, or one first bad line.
pub fn readings_are_determined()
    ensures { ReadingsAreDetermined }
{}

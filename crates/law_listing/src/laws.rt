// The laws: each is the contract of a function that does nothing.
ghost use Rattle.law_listing.specs.Laws.{PrintedLinesAreRead};

/// Lines that hold these pieces are read as these pieces, each by its number.
pub fn printed_lines_are_read()
    ensures { PrintedLinesAreRead }
{}

// What is true of all literals. Each law is the contract of a function that does nothing.
ghost use Rattle.dv_lex.specs.Laws.Literals.{LiteralsAreUtf8, PrintedStringsAreLiterals, UnitsAreDetermined};

/// The same bytes between quotes mean the same units.
pub fn units_are_determined()
    ensures { UnitsAreDetermined }
{}

/// A string of units of 16 bits as it is printed is a literal of these units.
pub fn printed_strings_are_literals()
    ensures { PrintedStringsAreLiterals }
{}

/// What stands between quotes is UTF-8, and means units of 16 bits.
pub fn literals_are_utf8()
    ensures { LiteralsAreUtf8 }
{}

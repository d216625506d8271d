// The laws: each is the contract of a function that does nothing.
ghost use Rattle.dv_coderead.specs.Laws.{FieldsAreRead, MethodsAreRead, NumbersAreSpelled, PrototypesAreRead, StringsAreWritten, TypesAreRead};

/// A text is read as the number that it spells, and as no other.
pub fn numbers_are_spelled()
    ensures { NumbersAreSpelled }
{}

/// A string literal is read as the units that it is written with.
pub fn strings_are_written()
    ensures { StringsAreWritten }
{}

/// The text of a type, a prototype, a field of a class or array, and a method of one, is read as just that.
pub fn printed_references_are_read()
    ensures types { TypesAreRead }
    ensures prototypes { PrototypesAreRead }
    ensures fields { FieldsAreRead }
    ensures methods { MethodsAreRead }
{}

// The laws of numbers.
ghost use Rattle.dv_lex.specs.Laws.Numbers.{NumbersAreDetermined, NumbersAreWords, PrintedNumbersAreRead, UnsignedPrintedNumbersAreRead};

/// A text spells one number at most.
pub fn numbers_are_determined()
    ensures { NumbersAreDetermined }
{}

/// What is printed of a number is read as that number, also with a suffix.
pub fn printed_numbers_are_read()
    ensures signed { PrintedNumbersAreRead }
    ensures unsigned { UnsignedPrintedNumbersAreRead }
{}

/// A text that spells a number can stand as one word.
pub fn words_of_numbers()
    ensures { NumbersAreWords }
{}

// The laws of lines. Each is the contract of a function that does nothing.
ghost use Rattle.dv_lex.specs.Laws.Lines.{PrintedLinesAreLines, RowsAreLines};

/// The lines of a text are those that std's `str::lines` gives, wherever the text stands and whatever the number of
/// its first line.
pub fn rows_are_lines()
    ensures { RowsAreLines }
{}

/// A text without control characters that a line feed ends is one line, and the lines behind it are those of the rest.
pub fn printed_lines_are_lines()
    ensures { PrintedLinesAreLines }
{}

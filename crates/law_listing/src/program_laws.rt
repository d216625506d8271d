// The laws of the listing of several classes, and of a schedule behind them: each is the contract of a function that does nothing.
ghost use Rattle.law_listing.specs.ProgramLaws.{EntriesAreReadAlike, ListingsHaveNoLines, LogLinesAreReadAlike, ProgramsAreRead, ReadProgramsAreReadAgain, ReadSchedulesAreReadAgain, SchedulesAreRead};

use crate::class_laws::{
    class_lines_are_read, field_lines_are_read, interface_lines_are_read, method_ends_are_read,
    method_headers_are_read, superclass_lines_are_read,
};
use crate::draft_laws::{
    bodies_are_laid_out_again, draft_lines_count, drafts_are_listed_again, drafts_are_printed,
};
use crate::laws::printed_lines_are_read;
use crate::raw_laws::raw_bodies_are_read;
use crate::read_laws::read_classes_are_listed;

/// What is printed of several classes is read as these classes, but for their lines.
pub fn programs_are_read()
    ensures { ProgramsAreRead }
{
    printed_lines_are_read();
    class_lines_are_read();
    superclass_lines_are_read();
    interface_lines_are_read();
    field_lines_are_read();
    method_headers_are_read();
    method_ends_are_read();
    raw_bodies_are_read();
    drafts_are_printed();
    draft_lines_count();
    drafts_are_listed_again();
    bodies_are_laid_out_again();
}

/// The listing of all classes that were read is read as these classes, but for their lines.
pub fn read_programs_are_read_again()
    ensures { ReadProgramsAreReadAgain }
{
    read_classes_are_listed();
    programs_are_read();
}

/// The listing of classes doesn't hang on their lines.
pub fn listings_have_no_lines()
    ensures { ListingsHaveNoLines }
{}

/// What is printed of several classes, with a schedule behind it, is read as these classes, but for their lines, and as that schedule.
pub fn schedules_are_read()
    ensures { SchedulesAreRead }
{
    printed_lines_are_read();
    class_lines_are_read();
    superclass_lines_are_read();
    interface_lines_are_read();
    field_lines_are_read();
    method_headers_are_read();
    method_ends_are_read();
    raw_bodies_are_read();
    drafts_are_printed();
    draft_lines_count();
    drafts_are_listed_again();
    bodies_are_laid_out_again();
}

/// The listing of all classes that were read, with the schedule that was read behind it, is read as these classes, but for their lines, and as that
/// schedule.
pub fn read_schedules_are_read_again()
    ensures { ReadSchedulesAreReadAgain }
{
    read_classes_are_listed();
    schedules_are_read();
}

/// The entries of a schedule behind classes are those of a schedule that stands alone.
pub fn entries_are_read_alike()
    ensures { EntriesAreReadAlike }
{}

/// A line of a schedule behind classes is blank, or an entry, exactly where it is in a schedule that stands alone.
pub fn log_lines_are_read_alike()
    ensures { LogLinesAreReadAlike }
{
    entries_are_read_alike();
}

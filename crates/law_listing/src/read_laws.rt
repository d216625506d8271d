// The laws of what is read: it can be listed. Each is the contract of a function that does nothing.
ghost use Rattle.law_listing.specs.ReadLaws.{LayoutsHaveUnits, ReadBodiesAreListed, ReadClassLinesAreListed, ReadClassesAreListed, ReadClassesAreReadAgain, ReadLinesAreTexts, ReadOperandsAreListed, ReadRawBodiesAreListed};

use crate::listing_laws::listings_are_read;

/// The words of every good line are in UTF-8, and its literals have units of 16 bits.
pub fn read_lines_are_texts()
    ensures { ReadLinesAreTexts }
{}

/// Whatever a line of a class says can be listed.
pub fn read_class_lines_are_listed()
    ensures { ReadClassLinesAreListed }
{
    dv_coderead::printed_references_are_read();
}

/// The instruction that operands of an opcode of the table give can be listed.
pub fn read_operands_are_listed()
    ensures { ReadOperandsAreListed }
{
    dv_coderead::printed_references_are_read();
}

/// The draft that the lines of a method give can be listed.
pub fn read_bodies_are_listed()
    ensures { ReadBodiesAreListed }
{
    dv_coderead::printed_references_are_read();
}

/// The raw body that the lines of a method give can be listed.
pub fn read_raw_bodies_are_listed()
    ensures { ReadRawBodiesAreListed }
{
    dv_coderead::printed_references_are_read();
}

/// The units of a layout have 16 bits.
pub fn layouts_have_units()
    ensures { LayoutsHaveUnits }
{}

/// Whatever text was read, its classes can be listed.
pub fn read_classes_are_listed()
    ensures { ReadClassesAreListed }
{
    dv_coderead::printed_references_are_read();
}

/// The listing of each class that was read is read as that class, but for its line.
pub fn read_classes_are_read_again()
    ensures { ReadClassesAreReadAgain }
{
    read_classes_are_listed();
    listings_are_read();
}

// The laws of the lines of a class: each is the contract of a function that does nothing.
ghost use Rattle.law_listing.specs.ClassPieces.{ClassLinesAreRead, ClassLinesStand, FieldLinesAreRead, FieldLinesStand, InterfaceLinesAreRead, InterfaceLinesStand, MethodEndsAreRead, MethodEndsStand, MethodHeadersAreRead, MethodHeadersStand, SuperclassLinesAreRead, SuperclassLinesStand};

/// The line that begins a class, and what it says.
pub fn class_lines_are_read()
    ensures stand { ClassLinesStand }
    ensures read { ClassLinesAreRead }
{
    dv_coderead::printed_references_are_read();
}

/// The line of a superclass, and what it says.
pub fn superclass_lines_are_read()
    ensures stand { SuperclassLinesStand }
    ensures read { SuperclassLinesAreRead }
{
    dv_coderead::printed_references_are_read();
}

/// The line of an interface, and what it says.
pub fn interface_lines_are_read()
    ensures stand { InterfaceLinesStand }
    ensures read { InterfaceLinesAreRead }
{
    dv_coderead::printed_references_are_read();
}

/// The line of a field with its value, and what it says.
pub fn field_lines_are_read()
    ensures stand { FieldLinesStand }
    ensures read { FieldLinesAreRead }
{
    dv_coderead::printed_references_are_read();
}

/// The line that begins a method, and what it says.
pub fn method_headers_are_read()
    ensures stand { MethodHeadersStand }
    ensures read { MethodHeadersAreRead }
{
    dv_coderead::printed_references_are_read();
}

/// The line that ends a method, and what it is.
pub fn method_ends_are_read()
    ensures stand { MethodEndsStand }
    ensures read { MethodEndsAreRead }
{}

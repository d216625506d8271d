// The laws of reads, and of steps that touch one frame alone.
ghost use Rattle.dv_defs.specs.Images.{Image};
ghost use Rattle.law_machine.specs.StepLaws.{LocalStepsAreFine};
ghost use Rattle.law_machine.specs.Reading.{ReadsInt, KeepsInt, ReadsArgument, ReadsTwo, ReadsLong, ReadsReference, ReadsReferenceTo, ReadsArray, ElementTestsGoDown, KeepsObject, TestsBoth, TestsZero, MovesInt, MovesReference};

/// A number is read, as it is or by its value, where the verifier demanded one.
pub fn reads_int()
    ensures reads { ReadsInt }
    ensures keeps { KeepsInt }
    ensures argument { ReadsArgument }
{}

/// A long is read where the verifier demanded one.
pub fn reads_long()
    ensures words { ReadsTwo }
    ensures number { ReadsLong }
{}

/// A reference is read where the verifier demanded one, and that one to a type fits the type.
pub fn reads_reference()
    ensures any { ReadsReference }
    ensures to { ReadsReferenceTo }
{}

/// An array whose elements a test takes is read where the verifier demanded one, and the tests of array instructions take
/// of each instance what they take of its type.
pub fn reads_array()
    ensures reads { ReadsArray }
    ensures tests { (image : Image) → ElementTestsGoDown image }
{}

/// An object is moved as it is where the verifier demanded one, uninitialised or not.
pub fn keeps_object()
    ensures law { KeepsObject }
{}

/// A test finds two numbers or two references where the verifier demanded such.
pub fn tests_words()
    ensures both { TestsBoth }
    ensures zero { TestsZero }
{}

/// A pending result is of the type that the verifier knows.
pub fn moves_results()
    ensures int { MovesInt }
    ensures reference { MovesReference }
{}

/// A step that touches one frame alone is fine: it isn't stuck, and leaves a frame in order and all else as it was.
pub fn local_steps_are_fine()
    ensures law { LocalStepsAreFine }
{}

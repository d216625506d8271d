// The law of instructions: the contract of a function that does nothing.
ghost use Rattle.law_listing.specs.OperandPieces.{InstructionsAreRead};

/// The text of an instruction is a line that is read as that instruction.
pub fn instructions_are_read()
    ensures { InstructionsAreRead }
{
    dv_coderead::printed_references_are_read();
}

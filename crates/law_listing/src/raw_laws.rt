// The law of raw bodies: the contract of a function that does nothing.
ghost use Rattle.law_listing.specs.RawPieces.{RawBodiesAreRead};

/// The text of a raw body has lines that are read as that body.
pub fn raw_bodies_are_read()
    ensures { RawBodiesAreRead }
{
    dv_coderead::printed_references_are_read();
}

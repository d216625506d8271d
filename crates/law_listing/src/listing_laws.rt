// The law of the listing: the contract of a function that does nothing.
ghost use Rattle.law_listing.specs.ListingLaws.{ListingsAreRead};

use crate::program_laws::programs_are_read;

/// What is printed of a class is read as that class, but for its line.
pub fn listings_are_read()
    ensures { ListingsAreRead }
{
    programs_are_read();
}

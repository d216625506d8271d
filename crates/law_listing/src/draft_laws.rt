// The laws of drafts: each is the contract of a function that does nothing.
ghost use Rattle.law_listing.specs.DraftLaws.{BodiesAreLaidOutAgain, DraftLinesCount, DraftsAreListedAgain, DraftsArePrinted, DraftsAreRead, LayoutHasNoLines, RefusalHasNoLines};

use crate::operand_laws::instructions_are_read;

/// Layout doesn't look at lines.
pub fn layout_has_no_lines()
    ensures { LayoutHasNoLines }
{}

/// Whether a draft is refused doesn't hang on its lines.
pub fn refusal_has_no_lines()
    ensures { RefusalHasNoLines }
{}

/// The text of a draft is its lines.
pub fn drafts_are_printed()
    ensures { DraftsArePrinted }
{
    instructions_are_read();
}

/// The lines of a draft count, and neither end nor leave their method.
pub fn draft_lines_count()
    ensures { DraftLinesCount }
{
    instructions_are_read();
}

/// The lines of a draft are read as that draft, but for its lines.
pub fn drafts_are_read()
    ensures { DraftsAreRead }
{
    instructions_are_read();
    dv_coderead::printed_references_are_read();
}

/// The draft that is made of the body of a listed draft is listed.
pub fn drafts_are_listed_again()
    ensures { DraftsAreListedAgain }
{}

/// What is read of the lines of a laid-out body is laid out as that body.
pub fn bodies_are_laid_out_again()
    ensures { BodiesAreLaidOutAgain }
{
    instructions_are_read();
    dv_coderead::printed_references_are_read();
}

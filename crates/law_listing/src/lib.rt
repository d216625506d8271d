//! The law of the listing: what is printed of a class is read as that class again.
#![tactic(auto)]

mod class_laws;
mod draft_laws;
mod laws;
mod listing_laws;
mod operand_laws;
mod program_laws;
mod raw_laws;
mod read_laws;

pub use class_laws::{
    class_lines_are_read, field_lines_are_read, interface_lines_are_read, method_ends_are_read,
    method_headers_are_read, superclass_lines_are_read,
};
pub use draft_laws::{
    bodies_are_laid_out_again, draft_lines_count, drafts_are_listed_again, drafts_are_printed,
    drafts_are_read, layout_has_no_lines, refusal_has_no_lines,
};
pub use laws::printed_lines_are_read;
pub use listing_laws::listings_are_read;
pub use operand_laws::instructions_are_read;
pub use program_laws::{
    entries_are_read_alike, listings_have_no_lines, log_lines_are_read_alike, programs_are_read,
    read_programs_are_read_again, read_schedules_are_read_again, schedules_are_read,
};
pub use raw_laws::raw_bodies_are_read;
pub use read_laws::{
    layouts_have_units, read_bodies_are_listed, read_class_lines_are_listed,
    read_classes_are_listed, read_classes_are_read_again, read_lines_are_texts,
    read_operands_are_listed, read_raw_bodies_are_listed,
};

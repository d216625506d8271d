// The reply to a text that is to be listed.
ghost use Rattle.std.specs.Prelude.{◌≡◌, ◌≢◌, ℕ, List, IfOk};
ghost use Rattle.std.specs.List.{flat_map};
ghost use Rattle.dv_print.specs.Listing.{class_text};
ghost use Rattle.dv_top.specs.Answering.{IsTold, IsReadOf};
ghost use Rattle.dv_top.specs.Said.{IsSaidOfListing};
ghost use Rattle.dv_top.specs.Status.{code_of};

use crate::printed::Printed;
use crate::printing::TOO_LARGE;
use crate::reply::{Reply, fixed, is_too_large, refused};
use crate::status::Status;
use dv_classread::read_classes;
use dv_console::Refusal;
use dv_defs::{ClassDef, LineError};
use dv_print::print_class;
use std::alloc::{AllocError, Global};

/// The reply to a text of which at most one byte past the limit was read: the listings of its classes,
/// or the first line that is refused.
pub fn reply_to_listing(alloc: Global, text: &[u8]) -> Result<Reply, AllocError>
    ensures told { IfOk result (λ reply. IsTold (code_of reply.status) × (code_of reply.status ≢ code_of Status.Usage)) }
    ensures said { (bytes : List ℕ) → IsReadOf bytes text.now
        → IfOk result (λ reply. IsSaidOfListing bytes (code_of reply.status) reply.text.items) }
{
    if is_too_large(text) {
        return fixed(alloc, Status::TooLarge, TOO_LARGE);
    }
    match read_classes(alloc, text, false) {
        Ok(read) => listing_of(alloc, read.classes.items()),
        Err(LineError::At { line, kind }) => refused(alloc, Refusal::Line(line, kind)),
        Err(LineError::Memory) => Err(AllocError),
    }
}

/// The reply to a text with these classes: their listings, one after another.
fn listing_of(alloc: Global, classes: &[ClassDef]) -> Result<Reply, AllocError>
    ensures { IfOk result (λ reply. (reply.status ≡ Status.Done) × (reply.text.items ≡ flat_map class_text classes.now)) }
{
    let mut text = Vec::new(alloc);
    for class in classes {
        text.extend_from_slice(print_class(alloc, class)?.bytes())?;
    }
    Ok(Reply {
        status: Status::Done,
        text: Printed::of(text),
    })
}

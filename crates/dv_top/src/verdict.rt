// The reply to a text that is to be verified.
ghost use Rattle.std.specs.Prelude.{◌≡◌, ◌≢◌, ◌≤◌, ℕ, List, Ok, IfOk, length};
ghost use Rattle.dv_console.specs.Faults.{accepted_text};
ghost use Rattle.dv_load.specs.Images.{image_in};
ghost use Rattle.dv_top.specs.Answering.{IsTold, IsReadOf};
ghost use Rattle.dv_top.specs.Said.{IsSaidOfVerifying, text_limit};
ghost use Rattle.dv_top.specs.Status.{code_of};

use crate::printing::TOO_LARGE;
use crate::reply::{Reply, faulty, fixed, is_too_large, no_program};
use crate::status::Status;
use dv_console::accepted_line;
use dv_defs::Image;
use dv_io::Gate;
use dv_load::read_program;
use dv_pverify::verify_all;
use std::alloc::{AllocError, Global};
use std::thread::Threads;

/// The reply to a text of which at most one byte past the limit was read: how many methods are accepted, the line of its refusal,
/// or the lines of its faults.
pub fn reply_to_verifying<R: Threads + Sync, G: Gate + Sync>(
    rt: &R,
    alloc: Global,
    text: &[u8],
    gate: &G,
) -> Result<Reply, AllocError>
    ensures told { IfOk result (λ reply. IsTold (code_of reply.status) × (code_of reply.status ≢ code_of Status.Usage)) }
    ensures said { (bytes : List ℕ) → IsReadOf bytes text.now
        → IfOk result (λ reply. IsSaidOfVerifying bytes (code_of reply.status) reply.text.items) }
{
    if is_too_large(text) {
        return fixed(alloc, Status::TooLarge, TOO_LARGE);
    }
    match read_program(alloc, text) {
        Ok(image) => verdict(rt, alloc, image, gate),
        Err(error) => no_program(alloc, error),
    }
}

/// The reply to a text with this image.
fn verdict<R: Threads + Sync, G: Gate + Sync>(
    rt: &R,
    alloc: Global,
    image: Image,
    gate: &G,
) -> Result<Reply, AllocError>
    ensures told { IfOk result (λ reply. IsTold (code_of reply.status) × (code_of reply.status ≢ code_of Status.Usage)) }
    ensures said { (bytes : List ℕ) → length bytes ≤ text_limit → image_in bytes ≡ Ok image
        → IfOk result (λ reply. IsSaidOfVerifying bytes (code_of reply.status) reply.text.items) }
{
    match verify_all(rt, alloc, image, gate) {
        Ok(verified) => {
            let reply = accepted(alloc, &verified.image);
            drop(verified);
            reply
        }
        Err(error) => faulty(alloc, error),
    }
}

/// The reply to a text whose image the verifier accepts.
fn accepted(alloc: Global, image: &Image) -> Result<Reply, AllocError>
    ensures { IfOk result (λ reply. (reply.status ≡ Status.Done) × (reply.text.items ≡ accepted_text image.now)) }
{
    let line = accepted_line(alloc, image)?;
    fixed(alloc, Status::Done, line.bytes())
}

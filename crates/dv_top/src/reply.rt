// What is replied to a call.
ghost use Rattle.std.specs.Prelude.{◌≡◌, ◌<◌, ◌≤◌, List, length, IfOk, MatchBool};
ghost use Rattle.dv_defs.specs.Images.{Image};
ghost use Rattle.dv_defs.specs.declared.faults.Fault.{Fault};
ghost use Rattle.dv_console.specs.declared.refusals.Refusal.{Refusal as Why};
ghost use Rattle.dv_console.specs.Refusals.{refusal_text};
ghost use Rattle.dv_top.specs.Said.{fault_lines, text_limit};
ghost use Rattle.dv_top.specs.Written.{IsWritten};

use crate::printed::Printed;
use crate::reading::TEXT_LIMIT;
use crate::status::Status;
use dv_console::{Refusal, refusal_line};
use dv_io::{Failed, Sink};
use dv_load::ProgramError;
use dv_pverify::VerifyError;
use std::alloc::{AllocError, Global};

/// A status, and the text that goes with it.
#[derive(Drop)]
pub struct Reply {
    pub status: Status,
    pub text: Printed,
}

/// Writes a reply, and gives its status, or the one that tells of a write that failed.
pub fn write_reply<K: Sink>(reply: &Reply, sink: &mut K) -> Status
    ensures written { IsWritten K.taken K.faults reply.now.status reply.now.text.items sink.old sink.new result }
    ensures count { K.faults sink.old ≤ K.faults sink.new }
{
    match reply.text.write(sink) {
        Ok(()) => reply.status,
        Err(Failed) => Status::WriteFault,
    }
}

/// A reply whose text is always the same.
pub fn fixed(alloc: Global, status: Status, text: &[u8]) -> Result<Reply, AllocError>
    ensures { IfOk result (λ reply. (reply.status ≡ status) × (reply.text.items ≡ text.now)) }
{
    Ok(Reply {
        status,
        text: Printed::of(Vec::from_slice(alloc, text)?),
    })
}

/// The reply to a text that is refused before it is verified.
pub fn refused(alloc: Global, refusal: Refusal) -> Result<Reply, AllocError>
    ensures { IfOk result (λ reply. (reply.status ≡ Status.BadText) × (reply.text.items ≡ refusal_text refusal)) }
{
    let line = refusal_line(alloc, &refusal);
    drop(refusal);
    fixed(alloc, Status::BadText, line?.bytes())
}

/// The reply to a text that gives no program.
pub fn no_program(alloc: Global, error: ProgramError) -> Result<Reply, AllocError>
    ensures { IfOk result (λ reply. (reply.status ≡ Status.BadText)
        × ((why : Why) × (error ≡ ProgramError.Refused why) × (reply.text.items ≡ refusal_text why))) }
{
    match error {
        ProgramError::Refused(refusal) => refused(alloc, refusal),
        ProgramError::Memory => Err(AllocError),
    }
}

/// The reply to a program that the verifier refuses.
pub fn faulty(alloc: Global, error: VerifyError) -> Result<Reply, AllocError>
    ensures { IfOk result (λ reply. (reply.status ≡ Status.Refused)
        × ((image : Image) × (faults : List Fault) × (error ≡ VerifyError.Faults image faults) × (reply.text.items ≡ fault_lines image faults))) }
{
    match error {
        VerifyError::Faults { image, faults } => {
            let lines = Printed::of_faults(alloc, &image, faults.items());
            drop(image);
            drop(faults);
            Ok(Reply {
                status: Status::Refused,
                text: lines?,
            })
        }
        VerifyError::Memory => Err(AllocError),
    }
}

pub fn is_too_large(text: &[u8]) -> bool
    ensures { MatchBool result (text_limit < length text.now) (length text.now ≤ text_limit) }
{
    text.len() > TEXT_LIMIT
}

// The program of a text, verified, of which a class is to be run.
ghost use Rattle.std.specs.Prelude.{◌≡◌, ◌≤◌, ◌+◌, ℕ, List, IfOk, IsErrOf, OnOk, Ok, Result, Some, length};
ghost use Rattle.dv_console.specs.declared.refusals.Refusal.{Refusal};
ghost use Rattle.dv_io.specs.Io.{HasRisen, after_taking};
ghost use Rattle.dv_machine.specs.Mains.{HasMain};
ghost use Rattle.dv_top.specs.declared.program.Program.{Program as ProgramOf};
ghost use Rattle.dv_top.specs.Answering.{IsReadOf};
ghost use Rattle.dv_top.specs.Preparing.{IsPrepared, IsReady};
ghost use Rattle.dv_top.specs.Programs.{program_to_run};
ghost use Rattle.dv_top.specs.Said.{text_limit};

use crate::printing::TOO_LARGE;
use crate::program::{Program, program_to_run};
use crate::reading::{ReadError, read_all};
use crate::reply::{Reply, faulty, fixed, is_too_large, no_program};
use crate::status::Status;
use dv_defs::{MethodId, Text};
use dv_io::{Gate, Source};
use dv_pverify::verify_all;
use dv_rules::Verified;
use std::alloc::{AllocError, Global};
use std::thread::Threads;

/// A program that may run, or what is replied where nothing runs.
#[derive(Drop)]
pub enum Prepared {
    /// The verifier accepts it; its main method.
    Accepted(Verified, MethodId),
    /// What is replied.
    Told(Reply),
}

/// Reads a source, and verifies the program that it holds, of which a class is to be run.
pub fn prepare<R: Threads + Sync, S: Source, G: Gate + Sync>(
    rt: &R,
    alloc: Global,
    class: &Text,
    source: &mut S,
    gate: &G,
) -> Result<Prepared, ReadError>
    ensures prepared { (bytes : List ℕ) → S.left source.old ≡ Some bytes
        → IfOk result (λ p. IsPrepared bytes (program_to_run class.now bytes) p) }
    ensures ready { IfOk result IsReady }
    ensures source_read { OnOk result (S.left source.new ≡ after_taking (text_limit + 1) (S.left source.old)) }
    ensures failed { IsErrOf result ReadError.Failed → HasRisen (S.faults source.old) (S.faults source.new) }
{
    let text = read_all(alloc, source)?;
    Ok(prepare_text(rt, alloc, class, &text, gate)?)
}

/// Verifies the program of a text of which at most one byte past the limit was read.
pub fn prepare_text<R: Threads + Sync, G: Gate + Sync>(
    rt: &R,
    alloc: Global,
    class: &Text,
    text: &[u8],
    gate: &G,
) -> Result<Prepared, AllocError>
    ensures prepared { (bytes : List ℕ) → IsReadOf bytes text.now → IfOk result (λ p. IsPrepared bytes (program_to_run class.now bytes) p) }
    ensures ready { IfOk result IsReady }
{
    if is_too_large(text) {
        let reply = fixed(alloc, Status::TooLarge, TOO_LARGE)?;
        return Ok(Prepared::Told(reply));
    }
    match program_to_run(alloc, class, text) {
        Ok(program) => prepare_program(rt, alloc, program, gate),
        Err(error) => Ok(Prepared::Told(no_program(alloc, error)?)),
    }
}

/// Verifies a program.
fn prepare_program<R: Threads + Sync, G: Gate + Sync>(
    rt: &R,
    alloc: Global,
    program: Program,
    gate: &G,
) -> Result<Prepared, AllocError>
    requires main { HasMain program.image program.main.0 }
    ensures prepared { (bytes : List ℕ) (found : Result ProgramOf Refusal) → length bytes ≤ text_limit → found ≡ Ok program
        → IfOk result (λ p. IsPrepared bytes found p) }
    ensures ready { IfOk result IsReady }
{
    let main = program.main;
    match verify_all(rt, alloc, program.image, gate) {
        Ok(verified) => Ok(Prepared::Accepted(verified, main)),
        Err(error) => Ok(Prepared::Told(faulty(alloc, error)?)),
    }
}

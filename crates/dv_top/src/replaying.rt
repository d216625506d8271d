// The reply to a text of which a class is to be run on a given schedule.
ghost use Rattle.std.specs.Prelude.{◌≡◌, ◌≢◌, ◌≤◌, ℕ, List, [], All, IfOk, None as Nothing, OnErr, Ok, Result, Some, length};
ghost use Rattle.dv_defs.specs.Pools.{Method, method_at};
ghost use Rattle.dv_console.specs.declared.refusals.Refusal.{Refusal};
ghost use Rattle.dv_machine.specs.Running.{ending_of};
ghost use Rattle.dv_machine.specs.State.{Machine};
ghost use Rattle.dv_sound.specs.Moves.{AreUsable};
ghost use Rattle.dv_machine.specs.Mains.{HasMain};
ghost use Rattle.dv_sound.specs.Runs.{IsAt};
ghost use Rattle.dv_top.specs.declared.closing.Closing.TheVariants.{Nothing as NothingBehind};
ghost use Rattle.dv_top.specs.declared.program.Program.{Program as ProgramOf};
ghost use Rattle.dv_workers.specs.Entries.{IsOfWorker};
ghost use Rattle.dv_top.specs.Answering.{IsIdle, IsLogOfReplay, IsReadOf, IsTold};
ghost use Rattle.dv_top.specs.Programs.{program_to_replay};
ghost use Rattle.dv_top.specs.Runs.{IsRun};
ghost use Rattle.dv_top.specs.Scheduling.{IsReplyOfReplay};
ghost use Rattle.dv_top.specs.Said.{IsSaidOfReplay, text_limit};
ghost use Rattle.dv_top.specs.Status.{code_of};

use crate::closing::Closing;
use crate::ended::reply_of_ended;
use crate::printing::TOO_LARGE;
use crate::program::{Program, program_to_replay};
use crate::reply::{Reply, faulty, fixed, is_too_large, no_program};
use crate::scheduling::refused_schedule;
use crate::status::Status;
use dv_defs::{Entry, Limits, MethodId, Text};
use dv_io::Gate;
use dv_pverify::verify_all;
use dv_rules::Verified;
use dv_sound::SafeVm;
use std::alloc::{AllocError, Global};
use std::thread::Threads;

/// The reply to a text of which at most one byte past the limit was read, where a class of it is to be run on the schedule at its end. The log,
/// which is empty before, gets that schedule, where it isn't refused and memory isn't wanting.
pub fn reply_to_replaying<R: Threads + Sync, G: Gate + Sync>(
    rt: &R,
    alloc: Global,
    class: &Text,
    limits: &Limits,
    text: &[u8],
    log: &mut Vec<Entry>,
    gate: &G,
) -> Result<Reply, AllocError>
    requires empty { log.old.items ≡ [] }
    requires usable { AreUsable limits.now }
    ensures told { IfOk result (λ reply. IsTold (code_of reply.status) × (code_of reply.status ≢ code_of Status.Usage)) }
    ensures said { (bytes : List ℕ) → IsReadOf bytes text.now
        → IfOk result (λ reply. IsSaidOfReplay bytes (program_to_replay class.now bytes) limits.now log.new.items (code_of reply.status)
        reply.text.items) }
    ensures entries { All IsOfWorker log.new.items }
    ensures idle { IfOk result (λ reply. IsIdle (code_of reply.status) → log.new.items ≡ []) }
    ensures legal { (bytes : List ℕ) → IsReadOf bytes text.now → log.new.items ≢ []
        → IsLogOfReplay bytes (program_to_replay class.now bytes) limits.now log.new.items }
    ensures wanting { OnErr result (log.new.items ≡ []) }
{
    if is_too_large(text) {
        return fixed(alloc, Status::TooLarge, TOO_LARGE);
    }
    match program_to_replay(alloc, class, text) {
        Ok(program) => reply_of_program_replayed(rt, alloc, program, limits, log, gate),
        Err(error) => no_program(alloc, error),
    }
}

/// Verifies a program, and runs it on its schedule.
fn reply_of_program_replayed<R: Threads + Sync, G: Gate + Sync>(
    rt: &R,
    alloc: Global,
    program: Program,
    limits: &Limits,
    log: &mut Vec<Entry>,
    gate: &G,
) -> Result<Reply, AllocError>
    requires empty { log.old.items ≡ [] }
    requires main { HasMain program.image program.main.0 }
    requires usable { AreUsable limits.now }
    requires schedule { All IsOfWorker program.schedule }
    ensures told { IfOk result (λ reply. IsTold (code_of reply.status) × (code_of reply.status ≢ code_of Status.Usage)) }
    ensures said { (bytes : List ℕ) (found : Result ProgramOf Refusal) → length bytes ≤ text_limit → found ≡ Ok program
        → IfOk result (λ reply. IsSaidOfReplay bytes found limits.now log.new.items (code_of reply.status) reply.text.items) }
    ensures entries { All IsOfWorker log.new.items }
    ensures idle { IfOk result (λ reply. IsIdle (code_of reply.status) → log.new.items ≡ []) }
    ensures legal { (bytes : List ℕ) (found : Result ProgramOf Refusal) → length bytes ≤ text_limit → found ≡ Ok program
        → log.new.items ≢ [] → IsLogOfReplay bytes found limits.now log.new.items }
    ensures wanting { OnErr result (log.new.items ≡ []) }
{
    match verify_all(rt, alloc, program.image, gate) {
        Ok(verified) => {
            let reply = reply_of_replay(
                alloc,
                &verified,
                program.main,
                limits,
                program.schedule.items(),
                log,
            );
            drop(verified);
            reply
        }
        Err(error) => faulty(alloc, error),
    }
}

/// Runs a verified program on a schedule.
fn reply_of_replay(
    alloc: Global,
    verified: &Verified,
    main: MethodId,
    limits: &Limits,
    schedule: &[Entry],
    log: &mut Vec<Entry>,
) -> Result<Reply, AllocError>
    requires empty { log.old.items ≡ [] }
    requires main { HasMain verified.now.image main.0 }
    requires usable { AreUsable limits.now }
    ensures replayed { (m : Method) → method_at verified.now.image main.0 ≡ Some m
        → IfOk result (λ reply. IsReplyOfReplay verified.now.image m limits.now schedule.now log.new.items (code_of reply.status)
        reply.text.items) }
    ensures wanting { OnErr result (log.new.items ≡ []) }
{
    match SafeVm::replay(alloc, verified, main, *limits, schedule) {
        Ok(run) => reply_of_replayed(alloc, run, log),
        Err(error) => refused_schedule(alloc, error),
    }
}

/// The reply to a run that a schedule led to its end. The log gets that schedule, where memory isn't wanting.
fn reply_of_replayed(alloc: Global, run: SafeVm, log: &mut Vec<Entry>) -> Result<Reply, AllocError>
    requires { (main : Method) (m : Machine) → IsAt run main m → ending_of run.verified.image m ≢ Nothing }
    ensures ran { (main : Method) → method_at run.entry.verified.image run.entry.main.0 ≡ Some main
        → IfOk result (λ reply. (log.new.items ≡ run.entry.log)
        × IsRun run.entry.verified.image main run.entry.machine.limits run.entry.log NothingBehind (code_of reply.status) reply.text.items) }
    ensures wanting { OnErr result (log.new ≡ log.old) }
{
    let reply = reply_of_ended(alloc, &run, Closing::Nothing);
    let done = run.into_log();
    let reply = reply?;
    *log = done;
    Ok(reply)
}

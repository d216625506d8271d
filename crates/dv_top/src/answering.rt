// From a command that the caller does alone, and the source, to a status and the sink.
ghost use Rattle.std.specs.Prelude.{◌≡◌, ◌≢◌, ℕ, ◌+◌, List, [], None, Some, All, IfOk, OnErr, OnOk, IsErrOf};
ghost use Rattle.dv_defs.specs.declared.run.Limits.{Limits as LimitsOf};
ghost use Rattle.dv_io.specs.Io.{HasRisen, after_taking};
ghost use Rattle.dv_workers.specs.Entries.{IsOfWorker};
ghost use Rattle.dv_top.specs.Answering.{IsAnswer, IsIdle, IsTold, IsReadOf, MayRun};
ghost use Rattle.dv_top.specs.Said.{IsSaid, text_limit};
ghost use Rattle.dv_top.specs.Status.{code_of};
ghost use Rattle.dv_top.specs.Words.{HasUsableLimits, IsAlone, class_to_run};

use crate::closing::Closing;
use crate::listing::reply_to_listing;
use crate::reading::{ReadError, read_all};
use crate::replaying::reply_to_replaying;
use crate::reply::{Reply, write_reply};
use crate::running::{Running, reply_to_running};
use crate::status::Status;
use crate::verdict::reply_to_verifying;
use dv_console::Cmd;
use dv_defs::Entry;
use dv_io::{Gate, Sink, Source};
use std::alloc::{AllocError, Global};
use std::thread::Threads;

/// Does a command, and answers the status. The log, which is empty before, gets the turns of a run.
pub fn answer<R: Threads + Sync, S: Source, K: Sink, G: Gate + Sync>(
    rt: &R,
    alloc: Global,
    command: &Cmd,
    source: &mut S,
    sink: &mut K,
    log: &mut Vec<Entry>,
    gate: &G,
) -> Status
    requires empty { log.old.items ≡ [] }
    requires alone { IsAlone command.now }
    requires limits { HasUsableLimits command.now }
    ensures { IsAnswer S.left S.faults K.taken K.faults (Some command.now) source.old source.new sink.old sink.new
        log.new.items (code_of result) }
{
    match reply_to_source(rt, alloc, command, source, log, gate) {
        Ok(reply) => {
            let status = write_reply(&reply, sink);
            drop(reply);
            status
        }
        Err(error) => error.status(),
    }
}

/// Reads the source, and does a command.
fn reply_to_source<R: Threads + Sync, S: Source, G: Gate + Sync>(
    rt: &R,
    alloc: Global,
    command: &Cmd,
    source: &mut S,
    log: &mut Vec<Entry>,
    gate: &G,
) -> Result<Reply, ReadError>
    requires empty { log.old.items ≡ [] }
    requires alone { IsAlone command.now }
    requires limits { HasUsableLimits command.now }
    ensures told { IfOk result (λ reply. IsTold (code_of reply.status) × (code_of reply.status ≢ code_of Status.Usage)) }
    ensures failed { IsErrOf result ReadError.Failed
        → HasRisen (S.faults source.old) (S.faults source.new) × (log.new.items ≡ []) }

    ensures source_read { OnOk result (S.left source.new ≡ after_taking (text_limit + 1) (S.left source.old)) }
    ensures said { (bytes : List ℕ) → S.left source.old ≡ Some bytes
        → IfOk result (λ reply. IsSaid (Some command.now) bytes log.new.items (code_of reply.status) reply.text.items) }

    ensures entries { All IsOfWorker log.new.items }
    ensures idle { IfOk result (λ reply. IsIdle (code_of reply.status) → log.new.items ≡ []) }
    ensures not_run { class_to_run (Some command.now) ≡ None → log.new.items ≡ [] }
    ensures legal { (bytes : List ℕ) → S.left source.old ≡ Some bytes → log.new.items ≢ []
        → MayRun (Some command.now) bytes log.new.items }
    ensures not_replayed { (class : List ℕ) (limits : LimitsOf) → command.now ≡ Cmd.Replay class limits → OnErr result (log.new.items ≡ []) }
{
    let text = read_all(alloc, source)?;
    Ok(reply_to_command(rt, alloc, command, &text, log, gate)?)
}

/// The reply to a command, over a text of which at most one byte past the limit was read.
fn reply_to_command<R: Threads + Sync, G: Gate + Sync>(
    rt: &R,
    alloc: Global,
    command: &Cmd,
    text: &[u8],
    log: &mut Vec<Entry>,
    gate: &G,
) -> Result<Reply, AllocError>
    requires empty { log.old.items ≡ [] }
    requires alone { IsAlone command.now }
    requires limits { HasUsableLimits command.now }
    ensures told { IfOk result (λ reply. IsTold (code_of reply.status) × (code_of reply.status ≢ code_of Status.Usage)) }
    ensures said { (bytes : List ℕ) → IsReadOf bytes text.now
        → IfOk result (λ reply. IsSaid (Some command.now) bytes log.new.items (code_of reply.status) reply.text.items) }
    ensures entries { All IsOfWorker log.new.items }
    ensures idle { IfOk result (λ reply. IsIdle (code_of reply.status) → log.new.items ≡ []) }
    ensures not_run { class_to_run (Some command.now) ≡ None → log.new.items ≡ [] }
    ensures legal { (bytes : List ℕ) → IsReadOf bytes text.now → log.new.items ≢ [] → MayRun (Some command.now) bytes log.new.items }
    ensures not_replayed { (class : List ℕ) (limits : LimitsOf) → command.now ≡ Cmd.Replay class limits → OnErr result (log.new.items ≡ []) }
{
    match command {
        Cmd::Run {
            name,
            seed,
            limits,
            log: shown,
            ..
        } => {
            let Some(seed) = seed else {
                unreachable!();
            };
            let how = Running {
                seed: *seed,
                limits: *limits,
                behind: Closing::of(*shown),
            };
            reply_to_running(rt, alloc, name, &how, text, log, gate)
        }
        Cmd::Replay { name, limits } => reply_to_replaying(
            rt, alloc, name, limits, text, log, gate,
        ),
        Cmd::Verify => reply_to_verifying(rt, alloc, text, gate),
        Cmd::List => reply_to_listing(alloc, text),
        Cmd::Demo { .. } => unreachable!(),
    }
}

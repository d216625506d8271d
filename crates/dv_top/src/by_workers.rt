// A class that is to be run by workers, of whose output they write.
ghost use Rattle.std.specs.Prelude.{◌≡◌, ◌≢◌, ◌≤◌, [], All, None as Nothing, Option, Some};
ghost use Rattle.dv_defs.specs.Pools.{Method, method_at};
ghost use Rattle.dv_console.specs.declared.command.Cmd.{Cmd as CmdOf};
ghost use Rattle.dv_io.specs.Io.{HasRisen};
ghost use Rattle.dv_machine.specs.Mains.{HasMain};
ghost use Rattle.dv_machine.specs.Running.{ending_of};
ghost use Rattle.dv_sound.specs.Moves.{AreUsable};
ghost use Rattle.dv_sound.specs.Runs.{AtItsState};
ghost use Rattle.dv_workers.specs.Entries.{IsOfWorker};
ghost use Rattle.dv_top.specs.Answering.{IsAnswer};
ghost use Rattle.dv_top.specs.Preparing.{IsReady};
ghost use Rattle.dv_top.specs.Status.{code_of};
ghost use Rattle.dv_top.specs.Words.{ReadsSource, run_asked};
ghost use Rattle.dv_top.specs.Working.{IsFollowed, IsRunOf, IsWorked, by_workers};

use crate::closing::Closing;
use crate::ended::tail_of_ended;
use crate::preparing::{Prepared, prepare};
use crate::reply::write_reply;
use crate::report::{Report, report_of_error, report_of_reply, report_of_status};
use crate::status::Status;
use dv_defs::{Limits, MethodId, Text};
use dv_io::{Gate, Sink, Source};
use dv_rules::Verified;
use dv_sound::SafeVm;
use dv_workers::{Ran, run_workers};
use std::alloc::Global;
use std::sync::Wait;
use std::thread::Threads;

/// How a class is run: by how many workers, within which limits, and what stands behind the final text.
#[derive(Clone, Copy)]
pub struct Working {
    pub workers: u32,
    pub limits: Limits,
    pub behind: Closing,
}

/// Reads the source, and runs a class of it.
pub fn run_by_workers<R: Threads + Wait + Sync, S: Source, K: Sink + Send + Drop, G: Gate + Sync>(
    rt: &R,
    alloc: Global,
    class: &Text,
    how: &Working,
    source: &mut S,
    sink: K,
    gate: &G,
) -> Report<K>
    requires limits { AreUsable how.now.limits }
    requires workers { (1 ≤ how.now.workers) × (how.now.workers ≤ 8) }
    ensures { (asked : Option CmdOf) → run_asked asked ≡ Some (by_workers class.now how.now) → ReadsSource asked
        → IsAnswer S.left S.faults K.taken K.faults asked source.old source.new sink result.sink result.log.items result.status }
{
    match prepare(rt, alloc, class, source, gate) {
        Ok(prepared) => run_prepared(rt, alloc, prepared, how, sink, gate),
        Err(error) => report_of_error(alloc, error, sink),
    }
}

/// Runs a program that may run, or writes what is replied where nothing runs.
pub fn run_prepared<R: Threads + Wait + Sync, K: Sink + Send + Drop, G: Gate + Sync>(
    rt: &R,
    alloc: Global,
    prepared: Prepared,
    how: &Working,
    sink: K,
    gate: &G,
) -> Report<K>
    requires ready { IsReady prepared }
    requires limits { AreUsable how.now.limits }
    requires workers { (1 ≤ how.now.workers) × (how.now.workers ≤ 8) }
    ensures { IsRunOf K.taken K.faults how.now prepared sink result.sink result.log.items result.status }
{
    match prepared {
        Prepared::Accepted(verified, main) => {
            let report = run_verified(rt, alloc, &verified, main, how, sink, gate);
            drop(verified);
            report
        }
        Prepared::Told(reply) => {
            let report = report_of_reply(alloc, &reply, sink);
            drop(reply);
            report
        }
    }
}

/// Runs a verified program.
fn run_verified<R: Threads + Wait + Sync, K: Sink + Send + Drop, G: Gate + Sync>(
    rt: &R,
    alloc: Global,
    verified: &Verified,
    main: MethodId,
    how: &Working,
    sink: K,
    gate: &G,
) -> Report<K>
    requires main { HasMain verified.now.image main.0 }
    requires limits { AreUsable how.now.limits }
    requires workers { (1 ≤ how.now.workers) × (how.now.workers ≤ 8) }
    ensures worked { (m : Method) → method_at verified.now.image main.0 ≡ Some m
        → IsWorked verified.now.image m how.now.limits result.log.items how.now.behind (K.taken sink) (K.taken result.sink) result.status }
    ensures entries { All IsOfWorker result.log.items }
    ensures write_fault { result.status ≡ code_of Status.WriteFault → HasRisen (K.faults sink) (K.faults result.sink) }
{
    match SafeVm::open(alloc, verified, main, how.limits) {
        Ok(run) => run_opened(rt, alloc, run, how, sink, gate),
        Err(_) => report_of_status(alloc, Status::NoMemory, sink),
    }
}

/// Runs a machine, and writes what stands behind its output where the run has ended.
fn run_opened<R: Threads + Wait + Sync, K: Sink + Send + Drop, G: Gate + Sync>(
    rt: &R,
    alloc: Global,
    run: SafeVm,
    how: &Working,
    sink: K,
    gate: &G,
) -> Report<K>
    requires empty { (run.log ≡ []) × (run.lent ≡ []) }
    requires workers { (1 ≤ how.now.workers) × (how.now.workers ≤ 8) }
    ensures worked { (m : Method) → method_at run.entry.verified.image run.entry.main.0 ≡ Some m
        → IsWorked run.entry.verified.image m run.entry.machine.limits result.log.items how.now.behind (K.taken sink) (K.taken result.sink) result.status }
    ensures entries { All IsOfWorker result.log.items }
    ensures write_fault { result.status ≡ code_of Status.WriteFault → HasRisen (K.faults sink) (K.faults result.sink) }
{
    let Ran {
        vm,
        mut sink,
        turns,
        fault,
        memory,
    } = run_workers(rt, alloc, run, how.workers, gate, sink);
    drop(turns);
    output_stands(&vm);
    let status = if fault {
        Status::WriteFault
    } else if memory {
        Status::NoMemory
    } else {
        write_tail(alloc, &vm, how.behind, &mut sink)
    };
    Report {
        status: status.code(),
        outcome: status,
        log: vm.into_log(),
        sink,
    }
}

/// What the engine has printed is what the state has printed to which the log leads: does nothing.
fn output_stands(run: &SafeVm)
    ensures { AtItsState run.now (λ main m. run.now.machine.shared.output ≡ m.shared.output) }
{
    let _ = run.vm();
}

/// Writes what stands behind the output of a run that has ended, and gives the status.
fn write_tail<K: Sink>(alloc: Global, run: &SafeVm, behind: Closing, sink: &mut K) -> Status
    requires { AtItsState run.now (λ main m. ending_of run.now.verified.image m ≢ Nothing) }
    ensures followed { AtItsState run.now (λ main m.
        IsFollowed run.now.verified.image main run.now.machine.limits run.now.log behind run.now.machine.shared.output
        (K.taken sink.old) (K.taken sink.new) (code_of result)) }
    ensures count { K.faults sink.old ≤ K.faults sink.new }
    ensures write_fault { result ≡ Status.WriteFault → HasRisen (K.faults sink.old) (K.faults sink.new) }
{
    match tail_of_ended(alloc, run, behind) {
        Ok(reply) => {
            let status = write_reply(&reply, sink);
            drop(reply);
            status
        }
        Err(_) => Status::NoMemory,
    }
}

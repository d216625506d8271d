// The calls: one by words, and one by a command that the caller does alone.
ghost use Rattle.std.specs.Prelude.{Some, map, string_bytes};
ghost use Rattle.dv_console.specs.Words.{command_in};
ghost use Rattle.dv_top.specs.Answering.{IsAnswer};
ghost use Rattle.dv_top.specs.Words.{HasUsableLimits, IsAlone, IsUsable};

use crate::answering::answer;
use crate::by_workers::{Working, run_by_workers};
use crate::closing::Closing;
use crate::demo::{Demo, run_demo};
use crate::report::{Report, report_of_status, report_of_usage};
use crate::status::Status;
use crate::words::command_of;
use dv_console::{Cmd, default_limits};
use dv_io::{Gate, Sink, Source};
use std::alloc::Global;
use std::sync::Wait;
use std::thread::Threads;

/// Does what the words ask for: reads the text from the source, and lists it, verifies it or runs it, or makes the demo's text and runs that;
/// and writes what was printed, or why it was refused, to the sink.
/// `words` are the command line without the program's name. The README lists words and statuses.
///
/// A run without a seed, and a demo, goes by worker threads, and what it prints goes out while they run. Then the call waits for them, and isn't known to
/// return. For the other commands it does what `dvm_alone` does.
pub fn dvm<R: Threads + Wait + Sync, S: Source, K: Sink + Send + Drop, G: Gate + Sync>(
    rt: &R,
    alloc: Global,
    words: &[String],
    source: &mut S,
    sink: K,
    gate: &G,
) -> Report<K>
    ensures { IsAnswer S.left S.faults K.taken K.faults (command_in (map string_bytes words.now)) source.old source.new sink result.sink
        result.log.items result.status }
{
    match command_of(alloc, words) {
        Ok(Some(command)) => {
            let report = do_command(rt, alloc, &command, source, sink, gate);
            drop(command);
            report
        }
        Ok(None) => report_of_usage(alloc, sink),
        Err(_) => report_of_status(alloc, Status::NoMemory, sink),
    }
}

/// Does a command as `dvm` does.
fn do_command<R: Threads + Wait + Sync, S: Source, K: Sink + Send + Drop, G: Gate + Sync>(
    rt: &R,
    alloc: Global,
    command: &Cmd,
    source: &mut S,
    sink: K,
    gate: &G,
) -> Report<K>
    requires usable { IsUsable command.now }
    ensures { IsAnswer S.left S.faults K.taken K.faults (Some command.now) source.old source.new sink result.sink
        result.log.items result.status }
{
    match command {
        Cmd::Run {
            name,
            workers,
            seed,
            limits,
            log,
        } => match seed {
            Some(_) => dvm_alone(rt, alloc, command, source, sink, gate),
            None => {
                let how = Working {
                    workers: *workers,
                    limits: *limits,
                    behind: Closing::of(*log),
                };
                run_by_workers(rt, alloc, name, &how, source, sink, gate)
            }
        },
        Cmd::Demo {
            number,
            classes,
            threads,
            workers,
        } => {
            let demo = Demo {
                number: *number,
                classes: *classes,
                threads: *threads,
            };
            let how = Working {
                workers: *workers,
                limits: default_limits(),
                behind: Closing::Demo {
                    classes: *classes,
                    threads: *threads,
                },
            };
            run_demo(rt, alloc, &demo, &how, sink, gate)
        }
        _ => dvm_alone(rt, alloc, command, source, sink, gate),
    }
}

/// Does a command as `dvm` does, but for a run without a seed and a demo: it waits for no threads but those that verify for it, and returns.
/// What is printed is written at the end.
pub fn dvm_alone<R: Threads + Sync, S: Source, K: Sink, G: Gate + Sync>(
    rt: &R,
    alloc: Global,
    command: &Cmd,
    source: &mut S,
    sink: K,
    gate: &G,
) -> Report<K>
    requires alone { IsAlone command.now }
    requires limits { HasUsableLimits command.now }
    ensures { IsAnswer S.left S.faults K.taken K.faults (Some command.now) source.old source.new sink result.sink
        result.log.items result.status }
{
    let mut sink = sink;
    let mut log = Vec::new(alloc);
    let status = answer(rt, alloc, command, source, &mut sink, &mut log, gate);
    Report {
        status: status.code(),
        outcome: status,
        log,
        sink,
    }
}

// A demo, which is run by workers as any text is.
ghost use Rattle.std.specs.Prelude.{◌≤◌, IfOk};
ghost use Rattle.dv_gen.specs.Demo.{program_text};
ghost use Rattle.dv_sound.specs.Moves.{AreUsable};
ghost use Rattle.dv_top.specs.Preparing.{IsPrepared, IsReady};
ghost use Rattle.dv_top.specs.Programs.{program_to_run};
ghost use Rattle.dv_top.specs.Words.{demo_class};
ghost use Rattle.dv_top.specs.Working.{IsRunOfText};

use crate::by_workers::{Working, run_prepared};
use crate::preparing::{Prepared, prepare_text};
use crate::report::{Report, report_of_status};
use crate::status::Status;
use dv_defs::Text;
use dv_gen::program_of;
use dv_io::{Gate, Sink};
use std::alloc::{AllocError, Global};
use std::sync::Wait;
use std::thread::Threads;

/// What a demo is made from: a number, and how many classes and threads it has.
#[derive(Clone, Copy)]
pub struct Demo {
    pub number: u64,
    pub classes: u32,
    pub threads: u32,
}

/// Makes the text of a demo, and runs it.
pub fn run_demo<R: Threads + Wait + Sync, K: Sink + Send + Drop, G: Gate + Sync>(
    rt: &R,
    alloc: Global,
    demo: &Demo,
    how: &Working,
    sink: K,
    gate: &G,
) -> Report<K>
    requires small { (demo.now.classes ≤ 1000) × (demo.now.threads ≤ 60) }
    requires limits { AreUsable how.now.limits }
    requires workers { (1 ≤ how.now.workers) × (how.now.workers ≤ 8) }
    ensures { IsRunOfText K.taken K.faults demo_class (program_text demo.now.number demo.now.classes demo.now.threads) how.now
        sink result.sink result.log.items result.status }
{
    match prepare_demo(rt, alloc, demo, gate) {
        Ok(prepared) => run_prepared(rt, alloc, prepared, how, sink, gate),
        Err(_) => report_of_status(alloc, Status::NoMemory, sink),
    }
}

/// Makes the text of a demo, and verifies its program.
fn prepare_demo<R: Threads + Sync, G: Gate + Sync>(
    rt: &R,
    alloc: Global,
    demo: &Demo,
    gate: &G,
) -> Result<Prepared, AllocError>
    requires { (demo.now.classes ≤ 1000) × (demo.now.threads ≤ 60) }
    ensures prepared { IfOk result (λ p. IsPrepared (program_text demo.now.number demo.now.classes demo.now.threads)
        (program_to_run demo_class (program_text demo.now.number demo.now.classes demo.now.threads)) p) }
    ensures ready { IfOk result IsReady }
{
    let class = Text::of(Vec::from_slice(alloc, b"LMain;")?)?;
    let text = program_of(alloc, demo.number, demo.classes, demo.threads)?;
    prepare_text(rt, alloc, &class, text.bytes(), gate)
}

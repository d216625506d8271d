// Programs are read, linked and verified, and run by workers.
ghost use Rattle.std.specs.Prelude.{◌≡◌, ◌≤◌, []};
ghost use Rattle.dv_machine.specs.Mains.{HasMain};
ghost use Rattle.dv_sound.specs.Moves.{AreUsable};

use dv_defs::{Limits, MethodId};
use dv_io::{Gate, MemSink};
use dv_load::{main_method, read_program};
use dv_pverify::verify_one_by_one;
use dv_rules::Verified;
use dv_sound::SafeVm;
use dv_workers::{Ran, run_workers};
use std::alloc::Global;
use std::process::Abort;
use std::sync::Wait;
use std::thread::Threads;

const LIMITS: Limits = Limits {
    budget: 1_000_000,
    heap: 1_048_576,
    output: 16_777_216,
    threads: 64,
    levels: 1024,
    words: 16_384,
};

/// A text, read, linked and verified.
pub fn verified<R: Abort>(rt: &R, alloc: Global, text: &str) -> Verified {
    assert!(rt; text.len() < 1_000_000, "{text}");
    let image = read_program(alloc, text.as_bytes());
    assert!(rt; image.is_ok(), "refused: {text}");
    let image = image.ok().expect(rt, "an image");
    let verified = verify_one_by_one(alloc, image);
    assert!(rt; verified.is_ok(), "not accepted: {text}");
    verified.ok().expect(rt, "an accepted program")
}

/// The main method of LMain;.
fn main_of<R: Abort>(rt: &R, alloc: Global, verified: &Verified) -> MethodId
    ensures { HasMain verified.now.image result.0 }
{
    match main_method(alloc, &verified.image, b"LMain;") {
        Ok(main) => main,
        Err(_) => panic!(rt; "no main method"),
    }
}

/// A run of main, as it begins.
fn opened<'v, R: Abort>(rt: &R, alloc: Global, verified: &'v Verified) -> SafeVm<'v>
    ensures { (result.log ≡ []) × (result.lent ≡ []) }
{
    let main = main_of(rt, alloc, verified);
    match SafeVm::open(alloc, verified, main, LIMITS) {
        Ok(run) => run,
        Err(_) => panic!(rt; "memory"),
    }
}

/// A run of main that this schedule leads to an ending.
pub fn replayed<'v, R: Abort>(rt: &R, alloc: Global, ran: &Ran<'v, MemSink>) -> SafeVm<'v> {
    let verified = ran.vm.verified();
    let main = main_of(rt, alloc, verified);
    match SafeVm::replay(alloc, verified, main, LIMITS, ran.vm.log()) {
        Ok(run) => run,
        Err(_) => panic!(rt; "a schedule that is refused"),
    }
}

/// A sink that has room, and fails at these calls.
fn sink_of<R: Abort>(rt: &R, alloc: Global, fails: &[u64]) -> MemSink {
    MemSink {
        taken: Vec::with_capacity(alloc, 64).ok().expect(rt, "memory"),
        room: 64,
        piece: 64,
        fails: Vec::from_slice(alloc, fails).ok().expect(rt, "memory"),
        calls: 0,
        faults: 0,
    }
}

/// A run of main by so many workers, into a sink that fails at these calls.
pub fn run<'v, R: Abort + Threads + Wait + Sync, G: Gate + Sync>(
    rt: &R,
    alloc: Global,
    verified: &'v Verified,
    workers: u32,
    gate: &G,
    fails: &[u64],
) -> Ran<'v, MemSink>
    requires { (1 ≤ workers) × (workers ≤ 8) }
{
    let vm = opened(rt, alloc, verified);
    let sink = sink_of(rt, alloc, fails);
    run_workers(rt, alloc, vm, workers, gate, sink)
}

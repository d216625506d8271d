// What comes out, and by which turns.
use crate::running::{replayed, run, verified};
use crate::texts::{HANDS_OVER, ONE, PRINTS};
use dv_defs::Ending;
use dv_io::{MemSink, NoGate};
use dv_workers::Ran;
use std::alloc::Global;
use std::process::Abort;
use std::sync::Wait;
use std::test::Fail;
use std::thread::Threads;

/// So many workers did the whole run, and all of it was printed.
fn assert_whole<R: Abort>(
    rt: &R,
    alloc: Global,
    ran: &Ran<MemSink>,
    workers: usize,
    printed: &[u8],
) {
    assert!(rt; !ran.fault && !ran.memory);
    assert!(rt; ran.turns.len() == workers);
    assert!(rt; ran.sink.taken.as_slice() == printed);
    let again = replayed(rt, alloc, ran);
    assert!(rt; again.vm().output() == printed);
    assert!(rt; again.ending() == Some(Ending::Done));
    drop(again);
}

fn assert_prints<R: Abort + Threads + Wait + Sync>(
    rt: &R,
    alloc: Global,
    text: &str,
    workers: u32,
    printed: &[u8],
) {
    assert!(rt; workers >= 1 && workers <= 8);
    let verified = verified(rt, alloc, text);
    let ran = run(rt, alloc, &verified, workers, &NoGate, &[]);
    assert_whole(rt, alloc, &ran, workers as usize, printed);
    drop(ran);
    drop(verified);
}

#[test]
fn what_is_handed_over_comes_in_order(rt: HostRuntime) -> Result<(), Fail> {
    for workers in [1, 2, 8] {
        assert_prints(&rt, rt.alloc(), HANDS_OVER, workers, b"0\n1\n2\n");
    }
    Ok(())
}

#[test]
fn one_thread_is_run_by_eight_workers(rt: HostRuntime) -> Result<(), Fail> {
    assert_prints(&rt, rt.alloc(), ONE, 8, b"42\n");
    Ok(())
}

fn assert_stops<R: Abort + Threads + Wait + Sync>(rt: &R, alloc: Global) {
    let verified = verified(rt, alloc, PRINTS);
    let ran = run(rt, alloc, &verified, 2, &NoGate, &[0]);
    assert!(rt; ran.fault && !ran.memory);
    assert!(rt; ran.sink.taken.is_empty());
    assert!(rt; ran.sink.faults == 1);
    // 4,096 bytes are 2,048 lines of 2 steps each, behind the first step; another worker may have brought a slice of 1 step besides
    assert!(rt; ran.vm.vm().steps < 5_000);
    drop(ran);
    drop(verified);
}

#[test]
fn a_write_that_fails_stops_the_workers(rt: HostRuntime) -> Result<(), Fail> {
    assert_stops(&rt, rt.alloc());
    Ok(())
}

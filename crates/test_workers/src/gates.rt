// Whether two workers are in slices at once: no proof shows it.
use crate::running::{run, verified};
use crate::texts::BOTH;
use dv_io::Gate;
use std::alloc::Global;
use std::process::Abort;
use std::sync::Wait;
use std::sync::atomic::{AtomicU64, Ordering};
use std::test::Fail;
use std::thread::Threads;

/// It holds the worker of the first slice until another worker is in a slice, for so many turns of its loop.
const TURNS: u64 = 100_000_000;

#[derive(Drop)]
struct Meeting {
    arrived: AtomicU64,
    met: AtomicU64,
}

impl Gate for Meeting {
    fn arrive(&self, _worker: u32, _thread: u32) {
        if self.arrived.fetch_add(1, Ordering::SeqCst) > 0 {
            return;
        }
        for _ in 0..TURNS {
            if self.arrived.load(Ordering::SeqCst) > 1 {
                self.met.store(1, Ordering::SeqCst);
                return;
            }
        }
    }

    fn verifying(&self, _method: u32) {}
}

fn assert_meeting<R: Abort + Threads + Wait + Sync>(rt: &R, alloc: Global, gate: &Meeting) {
    let verified = verified(rt, alloc, BOTH);
    let ran = run(rt, alloc, &verified, 2, gate, &[]);
    assert!(rt; !ran.fault && !ran.memory);
    let printed = ran.sink.taken.as_slice();
    assert!(rt; printed == b"42\n-5\n".as_slice() || printed == b"-5\n42\n".as_slice());
    drop(ran);
    drop(verified);
}

#[test]
fn two_workers_are_in_slices_at_once(rt: HostRuntime) -> Result<(), Fail> {
    let gate = Meeting {
        arrived: AtomicU64::new(0),
        met: AtomicU64::new(0),
    };
    assert_meeting(&rt, rt.alloc(), &gate);
    assert!(rt; gate.met.load(Ordering::SeqCst) == 1);
    Ok(())
}

/// It counts the slices that it is told of, and those of workers with another number than 0.
#[derive(Drop)]
struct Counting {
    arrived: AtomicU64,
    others: AtomicU64,
}

impl Gate for Counting {
    fn arrive(&self, worker: u32, _thread: u32) {
        self.arrived.fetch_add(1, Ordering::SeqCst);
        if worker != 0 {
            self.others.fetch_add(1, Ordering::SeqCst);
        }
    }

    fn verifying(&self, _method: u32) {}
}

fn assert_told<R: Abort + Threads + Wait + Sync>(rt: &R, alloc: Global, gate: &Counting) {
    let verified = verified(rt, alloc, BOTH);
    let ran = run(rt, alloc, &verified, 1, gate, &[]);
    assert!(rt; !ran.fault && !ran.memory && ran.turns.len() == 1);
    let printed = ran.sink.taken.as_slice();
    assert!(rt; printed == b"42\n-5\n".as_slice() || printed == b"-5\n42\n".as_slice());
    drop(ran);
    drop(verified);
}

#[test]
fn an_only_worker_tells_the_gate_of_its_slices(rt: HostRuntime) -> Result<(), Fail> {
    let gate = Counting {
        arrived: AtomicU64::new(0),
        others: AtomicU64::new(0),
    };
    assert_told(&rt, rt.alloc(), &gate);
    assert!(rt; gate.arrived.load(Ordering::SeqCst) > 1);
    assert!(rt; gate.others.load(Ordering::SeqCst) == 0);
    Ok(())
}

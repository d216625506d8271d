// Whether two methods are verified at once, and whether as many workers run a program as the words say: no proof shows it.
use crate::top::{PIECE, WRAP, words_of};
use dv_console::Cmd;
use dv_io::{Gate, PlainSink, PlainSource};
use dv_top::{dvm, dvm_alone};
use std::alloc::{AllocError, Global};
use std::process::Abort;
use std::sync::Wait;
use std::sync::atomic::{AtomicU64, Ordering};
use std::test::Fail;
use std::thread::Threads;

/// A meeting is waited for through so many turns of its loop.
const TURNS: u64 = 100_000_000;

/// What comes first waits until another comes.
#[derive(Drop)]
struct Meeting {
    come: AtomicU64,
    met: AtomicU64,
}

impl Meeting {
    fn new() -> Meeting {
        Meeting {
            come: AtomicU64::new(0),
            met: AtomicU64::new(0),
        }
    }

    fn come(&self) {
        if self.come.fetch_add(1, Ordering::SeqCst) > 0 {
            return;
        }
        for _ in 0..TURNS {
            if self.come.load(Ordering::SeqCst) > 1 {
                self.met.store(1, Ordering::SeqCst);
                return;
            }
        }
    }

    fn has_met(&self) -> bool {
        self.met.load(Ordering::SeqCst) == 1
    }
}

/// Methods that are verified meet.
#[derive(Drop)]
struct Methods {
    meeting: Meeting,
}

impl Gate for Methods {
    fn arrive(&self, _worker: u32, _thread: u32) {}

    fn verifying(&self, _method: u32) {
        self.meeting.come();
    }
}

/// Workers that are in slices meet.
#[derive(Drop)]
struct Slices {
    meeting: Meeting,
}

impl Gate for Slices {
    fn arrive(&self, _worker: u32, _thread: u32) {
        self.meeting.come();
    }

    fn verifying(&self, _method: u32) {}
}

fn source_of(alloc: Global, text: &str) -> Result<PlainSource, AllocError> {
    Ok(PlainSource {
        bytes: Vec::from_slice(alloc, text.as_bytes())?,
        at: 0,
        piece: PIECE,
    })
}

/// A text is verified, and accepted.
fn assert_accepted<R: Abort + Threads + Sync>(
    rt: &R,
    alloc: Global,
    gate: &Methods,
) -> Result<(), AllocError> {
    let mut source = source_of(alloc, WRAP.text)?;
    let report = dvm_alone(rt, alloc, &Cmd::Verify, &mut source, PlainSink, gate);
    drop(source);
    assert_eq!(rt; report.status, 0);
    drop(report);
    Ok(())
}

#[test]
fn two_methods_are_verified_at_once(rt: HostRuntime) -> Result<(), Fail> {
    let gate = Methods {
        meeting: Meeting::new(),
    };
    assert_accepted(&rt, rt.alloc(), &gate)?;
    assert!(rt; gate.meeting.has_met());
    Ok(())
}

/// Main starts a thread, with no local instruction before; then both have one next.
const BOTH: &str = ".class LT;
.super Ljava/lang/Thread;
.method constructor <init>()V
.registers 1
invoke-direct {p0}, Ljava/lang/Thread;-><init>()V
return-void
.end method
.method run()V
.registers 2
const/4 v0, 5
return-void
.end method
.class LMain;
.super Ljava/lang/Object;
.method static main()V
.registers 2
new-instance v0, LT;
invoke-direct {v0}, LT;-><init>()V
invoke-virtual {v0}, LT;->start()V
const/4 v1, 6
return-void
.end method
";

/// The words over that text come to its end.
fn assert_ended<R: Abort + Threads + Wait + Sync>(
    rt: &R,
    alloc: Global,
    words: &[String],
    gate: &Slices,
) -> Result<(), AllocError> {
    let mut source = source_of(alloc, BOTH)?;
    let report = dvm(rt, alloc, words, &mut source, PlainSink, gate);
    drop(source);
    assert_eq!(rt; report.status, 0);
    drop(report);
    Ok(())
}

#[test]
fn two_workers_run_where_the_words_say_so(rt: HostRuntime) -> Result<(), Fail> {
    let gate = Slices {
        meeting: Meeting::new(),
    };
    let words = words_of(rt.alloc(), &["run", "Main", "workers=2"])?;
    let done = assert_ended(&rt, rt.alloc(), &words, &gate);
    drop(words);
    done?;
    assert!(rt; gate.meeting.has_met());
    Ok(())
}

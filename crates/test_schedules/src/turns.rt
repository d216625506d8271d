// What a turn answers, which threads are runnable then, and which one is ready.
use crate::playing::{Player, opened, verified};
use crate::texts::{AMPLE, JOINS};
use dv_defs::{Ending, Entry, Limits};
use dv_rules::Verified;
use dv_sound::SafeVm;
use std::alloc::Global;
use std::process::Abort;

/// A turn that is asked for: of a thread, so many steps at most; how many are done; and the lowest runnable thread then.
type Asked = (u32, u32, u32, Option<u32>);

/// Turns of a program from its beginning on, how many threads there are then, and the ending, if it has one then.
#[derive(Clone, Copy)]
struct Turns {
    limits: Limits,
    asked: &'static [Asked],
    threads: u32,
    ending: Option<Ending>,
}

/// Stops the test where a fact doesn't hold, and tells it with the turn that was asked for.
fn check<R: Abort>(rt: &R, holds: bool, fact: &str, at: Asked) {
    assert!(rt; holds, "{fact}: {at:?}");
}

/// This thread is runnable and none below it is; or none is.
fn assert_ready<R: Abort>(rt: &R, run: &SafeVm, ready: Option<u32>, at: Asked) {
    check(rt, run.ready() == ready, "who is ready", at);
    for thread in 0..ready.unwrap_or(70) {
        check(rt, !run.runnable(thread), "a lower thread", at);
    }
    if let Some(thread) = ready {
        check(rt, run.runnable(thread), "the thread", at);
    }
    let count = run.threads();
    check(rt, !run.runnable(count), "a thread that is not there", at);
}

/// One turn.
fn assert_turn<R: Abort>(rt: &R, run: &mut SafeVm, worker: u32, at: Asked) {
    let (thread, most, done, ready) = at;
    let before = run.vm().steps;
    let result = run.turn(worker, thread, most).ok();
    check(rt, result == Some(done), "the answer", at);
    let after = before.saturating_add(u64::from(done));
    check(rt, run.vm().steps == after, "the steps", at);
    assert_ready(rt, run, ready, at);
}

/// The log of the turns, each of a worker of its own; one of no steps isn't logged.
fn log_of<R: Abort>(rt: &R, alloc: Global, asked: &[Asked]) -> Vec<Entry> {
    let mut log = Vec::new(alloc);
    for (worker, (thread, _, done, _)) in (0..1000).zip(asked) {
        if *done > 0 {
            let entry = Entry {
                worker,
                thread: *thread,
                steps: *done,
            };
            assert!(rt; log.push(entry).is_ok());
        }
    }
    log
}

/// The log of a run is that of the turns.
fn assert_log<R: Abort>(rt: &R, alloc: Global, run: &SafeVm, asked: &[Asked]) {
    let wanted = log_of(rt, alloc, asked);
    assert!(rt; run.log() == wanted.as_slice());
    drop(wanted);
}

/// The turns of a run that begins.
fn take_turns<R: Abort>(rt: &R, run: &mut SafeVm, turns: &Turns) {
    assert!(rt; run.log().is_empty());
    assert_eq!(rt; run.threads(), 1);
    for (worker, at) in (0..1000).zip(turns.asked) {
        assert_turn(rt, run, worker, *at);
    }
    assert_eq!(rt; run.threads(), turns.threads);
    assert_eq!(rt; run.ending(), turns.ending);
}

fn assert_turns<R: Abort>(rt: &R, alloc: Global, verified: &Verified, turns: &Turns) {
    let player = Player {
        verified,
        limits: turns.limits,
    };
    let mut run = opened(rt, alloc, player);
    take_turns(rt, &mut run, turns);
    assert_log(rt, alloc, &run, turns.asked);
    drop(run);
}

fn assert_all_turns<R: Abort>(rt: &R, alloc: Global, text: &str, rows: &[Turns]) {
    let verified = verified(rt, alloc, text);
    for turns in rows {
        assert_turns(rt, alloc, &verified, turns);
    }
    drop(verified);
}

/// Three local instructions and a return.
const FOUR: &str = "
.class LMain;
.super Ljava/lang/Object;
.method static main()V
.registers 3
const/4 v0, 1
const/4 v1, 2
add-int v2, v0, v1
return-void
.end method
";

/// One thread returns.
const DONE: Turns = Turns {
    limits: AMPLE,
    asked: &[(0, 256, 4, None)],
    threads: 1,
    ending: Some(Ending::Done),
};

static FOURS: [Turns; 6] = [
    // a turn of no steps isn't one
    Turns {
        asked: &[(0, 0, 0, Some(0)), (0, 4, 4, None), (0, 0, 0, None)],
        ..DONE
    },
    Turns {
        asked: &[
            (0, 1, 1, Some(0)),
            (0, 1, 1, Some(0)),
            (0, 1, 1, Some(0)),
            (0, 1, 1, None),
        ],
        ..DONE
    },
    Turns {
        asked: &[(0, 3, 3, Some(0)), (0, 3, 1, None), (0, 3, 0, None)],
        ..DONE
    },
    Turns {
        asked: &[
            (0, 2, 2, Some(0)),
            (1, 2, 0, Some(0)),
            (0, u32::MAX, 2, None),
        ],
        ..DONE
    },
    // before the end there is no ending
    Turns {
        asked: &[(0, 3, 3, Some(0))],
        ending: None,
        ..DONE
    },
    // where steps are spent, who is runnable stays so, and does no turn
    Turns {
        limits: Limits { budget: 2, ..AMPLE },
        asked: &[
            (0, 256, 2, Some(0)),
            (0, 256, 0, Some(0)),
            (0, 1, 0, Some(0)),
        ],
        ending: Some(Ending::Steps),
        ..DONE
    },
];

/// A turn of main, which is ready then too.
const MAIN: Asked = (0, 256, 1, Some(0));

/// While main joins a thread, that one is ready.
static TWO_THREADS: [Turns; 1] = [Turns {
    asked: &[
        MAIN,
        MAIN,
        MAIN,
        (1, 256, 0, Some(0)),
        MAIN,
        MAIN,
        MAIN,
        MAIN,
        (0, 256, 1, Some(1)),
        (0, 256, 0, Some(1)),
        (2, 256, 0, Some(1)),
        (63, 1, 0, Some(1)),
        (u32::MAX, 1, 0, Some(1)),
        (1, 256, 2, Some(1)),
        (0, 256, 0, Some(1)),
        (1, 256, 1, Some(0)),
        (1, 256, 0, Some(0)),
        MAIN,
        (0, 256, 2, Some(0)),
        (0, 256, 1, None),
        (0, 256, 0, None),
        (1, 256, 0, None),
    ],
    threads: 2,
    ..DONE
}];

/// Main joins itself.
const ITSELF: &str = "
.class LMain;
.super Ljava/lang/Object;
.method static main()V
.registers 1
invoke-static {}, Ljava/lang/Thread;->currentThread()Ljava/lang/Thread;
move-result-object v0
invoke-virtual {v0}, Ljava/lang/Thread;->join()V
return-void
.end method
";

/// Nobody is ready where each is held up.
static HELD_UP: [Turns; 1] = [Turns {
    asked: &[MAIN, (0, 256, 1, None), (0, 256, 0, None)],
    ending: Some(Ending::NoRunnable),
    ..DONE
}];

#[test]
fn the_lowest_runnable_thread_is_ready(rt: HostRuntime) {
    let alloc = rt.alloc();
    assert_all_turns(&rt, alloc, FOUR, FOURS.as_slice());
    assert_all_turns(&rt, alloc, JOINS, TWO_THREADS.as_slice());
    assert_all_turns(&rt, alloc, ITSELF, HELD_UP.as_slice());
}

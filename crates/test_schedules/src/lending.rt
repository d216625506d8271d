// Which threads are lent to workers, and where they stand then.
use crate::playing::{Player, check, stood, verified};
use crate::slices::{is_seen, seen, top};
use crate::texts::{AMPLE, BOTH, FILLS, JOINS};
use dv_defs::Limits;
use dv_local::Slice;
use dv_rules::Verified;
use dv_sound::SafeVm;
use std::alloc::Global;
use std::process::Abort;

/// A thread that is away is runnable, but it isn't lent again, and does no turn.
fn assert_away<R: Abort>(rt: &R, run: &mut SafeVm, thread: u32) {
    assert!(rt; run.runnable(thread));
    let again = run.lend(thread).ok().expect(rt, "memory");
    assert!(rt; again.is_none());
    drop(again);
    assert!(rt; run.turn(0, thread, 1).ok() == Some(0));
}

/// The address and the registers at which a thread stands.
type Place = (u32, &'static [u32]);

/// A thread that may be lent after these turns: whether its next step is local, where it stands, if it is lent, and which thread is ready then.
#[derive(Clone, Copy)]
struct Lend {
    limits: Limits,
    turns: &'static [(u32, u32)],
    thread: u32,
    local: bool,
    place: Option<Place>,
    ready: Option<u32>,
}

/// A first slice has no step, and begins where the thread stands.
fn assert_first<R: Abort>(rt: &R, run: &SafeVm, slice: &Slice, row: &Lend, place: Place) {
    let (at, registers) = place;
    check(rt, slice.thread == row.thread, "the thread", row.turns);
    check(rt, slice.steps == 0, "no step", row.turns);
    check(rt, slice.start.at == at, "the address", row.turns);
    let is_there = slice.start.regs.items() == registers;
    check(rt, is_there, "the registers", row.turns);
    check(rt, slice.end == slice.start, "the end", row.turns);
    let top = top(rt, run, row.thread);
    check(rt, slice.start == top, "the frame on top", row.turns);
    drop(top);
}

/// A thread is lent: a first slice of it, which fits, and it is away.
fn assert_lent<R: Abort>(rt: &R, run: &mut SafeVm, slice: &Slice, row: &Lend) {
    let place = row.place.expect(rt, "a thread that is not lent");
    assert_first(rt, run, slice, row, place);
    check(rt, run.fits(slice), "a slice that fits", row.turns);
    assert_away(rt, run, row.thread);
}

/// The thread of a row is lent, where it is to be.
fn lend_thread<R: Abort>(rt: &R, run: &mut SafeVm, row: &Lend) {
    let is_local = run.next_is_local(row.thread);
    check(rt, is_local == row.local, "a local step", row.turns);
    let lent = run.lend(row.thread).ok().expect(rt, "memory");
    match &lent {
        Some(slice) => assert_lent(rt, run, slice, row),
        None => check(rt, row.place.is_none(), "not lent", row.turns),
    }
    drop(lent);
}

/// Nothing of what is seen changes where a thread is lent or not.
fn assert_unseen<R: Abort>(rt: &R, alloc: Global, run: &mut SafeVm, row: &Lend) {
    let before = seen(rt, alloc, run);
    lend_thread(rt, run, row);
    let is_same = is_seen(rt, alloc, run, &before);
    check(rt, is_same, "what is seen", row.turns);
    drop(before);
}

fn assert_lend<R: Abort>(rt: &R, alloc: Global, verified: &Verified, row: &Lend) {
    let player = Player {
        verified,
        limits: row.limits,
    };
    let mut run = stood(rt, alloc, player, row.turns);
    assert_unseen(rt, alloc, &mut run, row);
    check(rt, run.ready() == row.ready, "who is ready", row.turns);
    drop(run);
}

fn assert_lends<R: Abort>(rt: &R, alloc: Global, text: &str, rows: &[Lend]) {
    let verified = verified(rt, alloc, text);
    for row in rows {
        assert_lend(rt, alloc, &verified, row);
    }
    drop(verified);
}

/// Main, when it has started a thread, whose object is the fifth that is made.
const LEND: Lend = Lend {
    limits: AMPLE,
    turns: &[(0, 8)],
    thread: 0,
    local: true,
    place: Some((8, &[5, 0, 0])),
    ready: Some(1),
};

/// A thread that isn't lent.
const KEPT: Lend = Lend {
    limits: AMPLE,
    turns: &[(0, 8)],
    thread: 0,
    local: false,
    place: None,
    ready: Some(0),
};

/// Of two threads each may be lent.
static OF_TWO: [Lend; 10] = [
    LEND,
    Lend {
        thread: 1,
        place: Some((0, &[0, 0, 5])),
        ready: Some(0),
        ..LEND
    },
    Lend {
        turns: &[(0, 8), (1, 1), (0, 1)],
        thread: 1,
        place: Some((1, &[5, 0, 5])),
        ready: Some(0),
        ..LEND
    },
    // the other one has returned
    Lend {
        turns: &[(0, 8), (1, 4), (0, 1)],
        place: Some((9, &[5, 6, 0])),
        ready: None,
        ..LEND
    },
    // main is where it prints, and then it has returned
    Lend {
        turns: &[(0, 10)],
        ..KEPT
    },
    Lend {
        turns: &[(0, 12)],
        ready: Some(1),
        ..KEPT
    },
    // threads that aren't there
    Lend { thread: 2, ..KEPT },
    Lend {
        thread: u32::MAX,
        ..KEPT
    },
    // while steps are left
    Lend {
        limits: Limits { budget: 9, ..AMPLE },
        ..LEND
    },
    Lend {
        limits: Limits { budget: 8, ..AMPLE },
        local: true,
        ..KEPT
    },
];

/// Main is held up.
static JOINED: [Lend; 1] = [Lend {
    ready: Some(1),
    ..KEPT
}];

/// Another thread has printed what fits, or stopped the run.
static STOPPED: [Lend; 2] = [
    Lend {
        limits: Limits { output: 3, ..AMPLE },
        turns: &[(0, 11)],
        thread: 1,
        place: Some((0, &[0, 0, 5])),
        ready: Some(0),
        ..LEND
    },
    Lend {
        limits: Limits { output: 2, ..AMPLE },
        turns: &[(0, 11)],
        thread: 1,
        local: true,
        ..KEPT
    },
];

/// Another thread has words, or lacks them: its exception is in flight, and it isn't lent.
static LACKING: [Lend; 3] = [
    Lend {
        limits: Limits { heap: 68, ..AMPLE },
        turns: &[(0, 10)],
        thread: 1,
        place: Some((0, &[5])),
        ready: Some(0),
        ..LEND
    },
    Lend {
        limits: Limits { heap: 67, ..AMPLE },
        turns: &[(0, 10)],
        thread: 1,
        place: Some((0, &[5])),
        ready: Some(0),
        ..LEND
    },
    Lend {
        limits: Limits { heap: 67, ..AMPLE },
        turns: &[(0, 10)],
        ..KEPT
    },
];

/// An exception that flies from where a local instruction stands, and is caught.
const FLIES: &str = "
.class LMain;
.super Ljava/lang/Object;
.method static main()V
.registers 1
const-class v0, LMain;
monitor-exit v0
:from
nop
:to
return-void
:caught
move-exception v0
return-void
.catchall {:from .. :to} :caught
.end method
";

static FLYING: [Lend; 2] = [
    Lend {
        turns: &[(0, 2)],
        ..KEPT
    },
    Lend {
        turns: &[(0, 3)],
        place: Some((5, &[5])),
        ready: None,
        ..LEND
    },
];

/// A class's initialiser, and a method that main calls.
const CALLS: &str = "
.class LMain;
.super Ljava/lang/Object;
.method static negated(I)I
.registers 2
neg-int v0, p0
return v0
.end method
.method static <clinit>()V
.registers 2
const/4 v0, 7
return-void
.end method
.method static main()V
.registers 1
const/4 v0, 5
invoke-static {v0}, LMain;->negated(I)I
move-result v0
return-void
.end method
";

/// The record of main's class is on top, and then its initialiser; a method's argument is in its last register; then the result is kept for main.
static CALLED: [Lend; 4] = [
    Lend { turns: &[], ..KEPT },
    Lend {
        turns: &[(0, 1)],
        place: Some((0, &[0, 0])),
        ready: None,
        ..LEND
    },
    Lend {
        turns: &[(0, 6)],
        place: Some((0, &[0, 5])),
        ready: None,
        ..LEND
    },
    Lend {
        turns: &[(0, 8)],
        place: Some((4, &[5])),
        ready: None,
        ..LEND
    },
];

#[test]
fn threads_are_lent_where_they_stand(rt: HostRuntime) {
    let alloc = rt.alloc();
    assert_lends(&rt, alloc, BOTH, OF_TWO.as_slice());
    assert_lends(&rt, alloc, JOINS, JOINED.as_slice());
    assert_lends(&rt, alloc, BOTH, STOPPED.as_slice());
    assert_lends(&rt, alloc, FILLS, LACKING.as_slice());
    assert_lends(&rt, alloc, FLIES, FLYING.as_slice());
    assert_lends(&rt, alloc, CALLS, CALLED.as_slice());
}

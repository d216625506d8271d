// Whole programs that are run in slices, and slices for which memory is wanting.
ghost use Rattle.std.specs.Prelude.{◌≡◌};
ghost use Rattle.dv_sound.specs.Lending.{IsLocalRun};

use crate::playing::{Player, assert_end, opened, stood, verified};
use crate::slices::{brought, image_of, lent, work, worker_of};
use crate::texts::{AMPLE, SPENT};
use dv_defs::{Ending, Image, Limits};
use dv_local::Slice;
use dv_sound::{Refused, SafeVm};
use std::alloc::Global;
use std::process::Abort;

/// A thread that is ready is lent, where its next step is local, and brought back with so many steps at most; else it takes a step.
fn go<R: Abort>(rt: &R, run: &mut SafeVm, thread: u32, most: u32) {
    if run.next_is_local(thread) {
        let image = image_of(run);
        let mut slice = lent(rt, image, run, thread);
        let ran = work(image, &mut slice, most);
        assert_eq!(rt; brought(rt, image, run, slice), ran);
        assert!(rt; ran > 0);
    } else {
        assert!(rt; run.turn(0, thread, most).ok() == Some(1));
    }
}

/// The highest thread that is runnable.
fn highest(run: &SafeVm) -> Option<u32> {
    let mut found = None;
    for thread in 0..run.threads() {
        if run.runnable(thread) {
            found = Some(thread);
        }
    }
    found
}

/// All threads that are ready go, so many steps at most, the lowest or the highest one first, until the run has ended.
fn go_all<R: Abort>(rt: &R, run: &mut SafeVm, most: u32, lowest: bool) {
    for _ in 0..10_000 {
        if run.ending().is_some() {
            return;
        }
        let next = if lowest { run.ready() } else { highest(run) };
        let thread = next.expect(rt, "a runnable thread");
        go(rt, run, thread, most);
    }
}

/// Main starts a thread and waits, both with local steps between; the thread notifies it, and main prints.
const WAITS: &str = "
.class LT;
.super Ljava/lang/Thread;
.method constructor <init>()V
.registers 1
invoke-direct {p0}, Ljava/lang/Thread;-><init>()V
return-void
.end method
.method run()V
.registers 2
const-class v0, LMain;
nop
monitor-enter v0
nop
nop
invoke-virtual {v0}, Ljava/lang/Object;->notify()V
nop
nop
nop
monitor-exit v0
return-void
.end method
.class LMain;
.super Ljava/lang/Object;
.method static main()V
.registers 3
const-class v0, LMain;
new-instance v1, LT;
invoke-direct {v1}, LT;-><init>()V
monitor-enter v0
invoke-virtual {v1}, LT;->start()V
const/4 v2, 3
nop
mul-int/lit8 v2, v2, 7
invoke-virtual {v0}, Ljava/lang/Object;->wait()V
nop
monitor-exit v0
invoke-static {v2}, Ldvm/Console;->println(I)V
return-void
.end method
";

/// A program is run so to its end.
fn assert_in_slices<R: Abort>(rt: &R, alloc: Global, player: Player<'_>, most: u32, lowest: bool) {
    let mut run = opened(rt, alloc, player);
    go_all(rt, &mut run, most, lowest);
    assert!(rt; run.ending().is_some());
    assert_end(rt, alloc, player, run, Ending::Done, "21\n#end done\n");
}

#[test]
fn programs_run_in_slices(rt: HostRuntime) {
    let alloc = rt.alloc();
    let verified = verified(&rt, alloc, WAITS);
    let player = Player {
        verified: &verified,
        limits: AMPLE,
    };
    assert_in_slices(&rt, alloc, player, 1, true);
    assert_in_slices(&rt, alloc, player, 2, false);
    assert_in_slices(&rt, alloc, player, 3, true);
    assert_in_slices(&rt, alloc, player, 256, false);
    drop(verified);
}

/// Main's first slice. Where main isn't lent for want of memory nothing has changed, and it is lent when there is some.
#[tactic(auto, using(dv_sound::proofs::Made::made_first))]
fn lent_at_last<R: Abort>(rt: &R, image: &Image, run: &mut SafeVm) -> Slice
    requires { run.old.verified.image ≡ image.now }
    ensures made { IsLocalRun image.now result }
    ensures same { run.new.verified.image ≡ image.now }
{
    let before = (run.vm().steps, run.log().len());
    match run.lend(0) {
        Ok(first) => {
            let Some(slice) = first else {
                panic!(rt; "main isn't lent");
            };
            slice
        }
        Err(_) => {
            assert_eq!(rt; (run.vm().steps, run.log().len()), before);
            assert_eq!(rt; run.ready(), Some(0));
            lent(rt, image, run, 0)
        }
    }
}

/// A slice of main comes back. Where it doesn't for want of memory nothing has changed, main is away, and the same slice comes back when there
/// is some.
fn brought_at_last<R: Abort>(rt: &R, image: &Image, run: &mut SafeVm, slice: Slice) -> u32
    requires same { run.old.verified.image ≡ image.now }
    requires made { IsLocalRun image.now slice }
{
    let before = (run.vm().steps, run.log().len());
    match run.commit(worker_of(0), slice) {
        Ok(done) => done,
        Err(refused) => {
            let Refused { slice } = refused;
            assert_eq!(rt; (run.vm().steps, run.log().len()), before);
            assert_eq!(rt; run.ready(), None);
            assert!(rt; run.fits(&slice));
            brought(rt, image, run, slice)
        }
    }
}

/// It counts in rounds of two steps.
const COUNTS: &str = "
.class LMain;
.super Ljava/lang/Object;
.method static main()V
.registers 1
const/4 v0, 0
:round
add-int/lit8 v0, v0, 1
goto :round
.end method
";

/// So many rounds are done: another one.
fn round<R: Abort>(rt: &R, run: &mut SafeVm, rounds: u32) {
    let image = image_of(run);
    let mut slice = lent_at_last(rt, image, run);
    assert_eq!(rt; slice.start.at, 1);
    assert!(rt; slice.start.regs.items() == [rounds].as_slice());
    assert_eq!(rt; work(image, &mut slice, 2), 2);
    assert_eq!(rt; brought_at_last(rt, image, run, slice), 2);
}

/// Forty rounds behind a first step, and the budget is spent.
fn go_round<R: Abort>(rt: &R, run: &mut SafeVm) {
    for rounds in 0..40 {
        round(rt, run, rounds);
    }
    assert_eq!(rt; run.log().len(), 41);
    assert_eq!(rt; run.ending(), Some(Ending::Steps));
}

fn assert_rounds<R: Abort>(rt: &R, alloc: Global, player: Player<'_>) {
    let mut run = stood(rt, alloc, player, &[(0, 1)]);
    go_round(rt, &mut run);
    assert_end(rt, alloc, player, run, Ending::Steps, SPENT);
}

// Tried with each allocation of it failing in turn, once a run stands.
#[test]
fn want_of_memory_changes_nothing(rt: HostRuntime) {
    let alloc = rt.alloc();
    let verified = verified(&rt, alloc, COUNTS);
    let limits = Limits {
        budget: 81,
        ..AMPLE
    };
    let player = Player {
        verified: &verified,
        limits,
    };
    assert_rounds(&rt, alloc, player);
    drop(verified);
}

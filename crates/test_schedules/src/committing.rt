// Slices of local steps that come back to a run, alone, and cut by what is left of the budget.
ghost use Rattle.dv_sound.specs.Lending.{IsLocalRun};

use crate::playing::{Player, assert_end, check, stood, verified};
use crate::slices::{assert_alike, brought, image_of, lent, turn, work, worker_of};
use crate::texts::{AMPLE, BOTH, FILLS, FOREVER, MAIN_FIRST, SPENT};
use dv_defs::{Ending, Entry, Image, Limits};
use dv_local::Slice;
use dv_rules::Verified;
use dv_sound::SafeVm;
use std::alloc::Global;
use std::process::Abort;

/// A thread is lent, and its worker does local steps in two runs, of so many at most; another thread may take a turn of so many steps
/// meanwhile; the slice comes back. So many of its steps are done then; how the run stands, and how it ends when it is run on.
#[derive(Clone, Copy)]
struct Commit {
    limits: Limits,
    turns: &'static [(u32, u32)],
    thread: u32,
    most: (u32, u32),
    ran: (u32, u32),
    meanwhile: Option<(u32, u32)>,
    done: u32,
    ending: Option<Ending>,
    end: (Ending, &'static str),
}

/// The local steps of a row, in two runs.
fn work_twice<R: Abort>(rt: &R, image: &Image, slice: &mut Slice, row: &Commit)
    requires { IsLocalRun image.now slice.old }
    ensures { IsLocalRun image.now slice.new }
{
    let first = work(image, slice, row.most.0);
    let second = work(image, slice, row.most.1);
    check(rt, first == row.ran.0, "a first run", row.turns);
    check(rt, second == row.ran.1, "a second run", row.turns);
    let ran = first.saturating_add(second);
    check(rt, slice.steps == ran, "steps of a slice", row.turns);
}

/// A slice of a row is run, and comes back.
fn bring<R: Abort>(rt: &R, run: &mut SafeVm, row: &Commit) {
    let image = image_of(run);
    let mut slice = lent(rt, image, run, row.thread);
    work_twice(rt, image, &mut slice, row);
    turn(rt, image, run, row.meanwhile);
    check(rt, run.fits(&slice), "a slice that fits", row.turns);
    let done = brought(rt, image, run, slice);
    check(rt, done == row.done, "steps that are done", row.turns);
}

/// The same steps by turns.
fn take_turns<R: Abort>(rt: &R, run: &mut SafeVm, row: &Commit) {
    let image = image_of(run);
    turn(rt, image, run, row.meanwhile);
    let done = run.turn(worker_of(row.thread), row.thread, row.done).ok();
    check(rt, done == Some(row.done), "steps by turns", row.turns);
}

/// The steps that were done are the log's last entry; where none were, that one is of another worker.
fn assert_last<R: Abort>(rt: &R, run: &SafeVm, row: &Commit) {
    let own = Entry {
        worker: worker_of(row.thread),
        thread: row.thread,
        steps: row.done,
    };
    let is_last = run.log().last() == Some(&own);
    check(rt, is_last == (row.done > 0), "the last entry", row.turns);
}

/// A run stands as one in which the steps of a row were done by turns.
fn assert_as_by_turns<R: Abort>(
    rt: &R,
    alloc: Global,
    player: Player<'_>,
    run: &SafeVm,
    row: &Commit,
) {
    let mut like = stood(rt, alloc, player, row.turns);
    take_turns(rt, &mut like, row);
    assert_alike(rt, alloc, run, &like);
    drop(like);
}

fn assert_commit<R: Abort>(rt: &R, alloc: Global, verified: &Verified, row: &Commit) {
    let player = Player {
        verified,
        limits: row.limits,
    };
    let mut run = stood(rt, alloc, player, row.turns);
    bring(rt, &mut run, row);
    assert_last(rt, &run, row);
    assert_as_by_turns(rt, alloc, player, &run, row);
    check(rt, run.ending() == row.ending, "an ending", row.turns);
    assert_end(rt, alloc, player, run, row.end.0, row.end.1);
}

fn assert_commits<R: Abort>(rt: &R, alloc: Global, text: &str, rows: &[Commit]) {
    let verified = verified(rt, alloc, text);
    for row in rows {
        assert_commit(rt, alloc, &verified, row);
    }
    drop(verified);
}

/// Main has started a thread; a slice of it has no step.
const COMMIT: Commit = Commit {
    limits: AMPLE,
    turns: &[(0, 8)],
    thread: 0,
    most: (0, 0),
    ran: (0, 0),
    meanwhile: None,
    done: 0,
    ending: None,
    end: (Ending::Done, MAIN_FIRST),
};

/// Both may do two local steps and two others. A slice is as long as it is run.
static COMMITS: [Commit; 8] = [
    COMMIT,
    Commit {
        most: (1, 0),
        ran: (1, 0),
        done: 1,
        ..COMMIT
    },
    // a step that prints isn't local
    Commit {
        most: (u32::MAX, u32::MAX),
        ran: (2, 0),
        done: 2,
        ..COMMIT
    },
    Commit {
        most: (1, 256),
        ran: (1, 1),
        done: 2,
        ..COMMIT
    },
    // another thread goes on meanwhile, and may return
    Commit {
        most: (9, 0),
        ran: (2, 0),
        meanwhile: Some((1, 3)),
        done: 2,
        end: (Ending::Done, "-5\n42\n#end done\n"),
        ..COMMIT
    },
    Commit {
        turns: &[(0, 11)],
        thread: 1,
        most: (1, 0),
        ran: (1, 0),
        meanwhile: Some((0, 1)),
        done: 1,
        ..COMMIT
    },
    // as many steps are done as the budget has room for
    Commit {
        limits: Limits {
            budget: 10,
            ..AMPLE
        },
        most: (2, 0),
        ran: (2, 0),
        done: 2,
        ending: Some(Ending::Steps),
        end: (Ending::Steps, SPENT),
        ..COMMIT
    },
    Commit {
        limits: Limits { budget: 9, ..AMPLE },
        most: (2, 0),
        ran: (2, 0),
        done: 1,
        ending: Some(Ending::Steps),
        end: (Ending::Steps, SPENT),
        ..COMMIT
    },
];

/// After eight steps twelve are left, and five are brought.
const TWELVE: Commit = Commit {
    limits: Limits {
        budget: 20,
        ..AMPLE
    },
    turns: &[(0, 8)],
    thread: 1,
    most: (5, 0),
    ran: (5, 0),
    meanwhile: None,
    done: 5,
    ending: Some(Ending::Steps),
    end: (Ending::Steps, SPENT),
};

static WITHOUT_END: [Commit; 6] = [
    // a slice may have more steps than a turn of a run
    Commit {
        limits: Limits {
            budget: 2000,
            ..AMPLE
        },
        thread: 0,
        most: (1000, 500),
        ran: (1000, 500),
        done: 1500,
        ending: None,
        ..TWELVE
    },
    // after ten steps, 290 are left
    Commit {
        limits: Limits {
            budget: 300,
            ..AMPLE
        },
        turns: &[(0, 10)],
        thread: 0,
        most: (5000, 5000),
        ran: (5000, 5000),
        done: 290,
        ..TWELVE
    },
    // another thread does some of the twelve that are left, six, seven, eight or all
    Commit {
        meanwhile: Some((0, 6)),
        ending: None,
        ..TWELVE
    },
    Commit {
        meanwhile: Some((0, 7)),
        ..TWELVE
    },
    Commit {
        meanwhile: Some((0, 8)),
        done: 4,
        ..TWELVE
    },
    // an ending stands: nothing is done
    Commit {
        meanwhile: Some((0, 12)),
        done: 0,
        ..TWELVE
    },
];

/// Main stops the run meanwhile; where its output has room the slice goes on.
static STOPPED: [Commit; 2] = [
    Commit {
        limits: Limits { output: 2, ..AMPLE },
        most: (1, 0),
        ran: (1, 0),
        thread: 1,
        meanwhile: Some((0, 3)),
        ending: Some(Ending::Output),
        end: (Ending::Output, "#end output\n"),
        ..COMMIT
    },
    Commit {
        limits: Limits { output: 3, ..AMPLE },
        most: (1, 0),
        ran: (1, 0),
        thread: 1,
        meanwhile: Some((0, 3)),
        done: 1,
        end: (Ending::Output, "42\n#end output\n"),
        ..COMMIT
    },
];

/// Main lacks words meanwhile, or has them; the slice goes on.
static LACKING: [Commit; 2] = [
    Commit {
        limits: Limits { heap: 67, ..AMPLE },
        most: (1, 0),
        ran: (1, 0),
        thread: 1,
        meanwhile: Some((0, 2)),
        done: 1,
        end: (
            Ending::Done,
            "#uncaught 0 java.lang.OutOfMemoryError\n#end done\n",
        ),
        ..COMMIT
    },
    Commit {
        limits: Limits { heap: 68, ..AMPLE },
        most: (1, 0),
        ran: (1, 0),
        thread: 1,
        meanwhile: Some((0, 2)),
        done: 1,
        end: (Ending::Done, "#end done\n"),
        ..COMMIT
    },
];

#[test]
fn slices_come_back(rt: HostRuntime) {
    let alloc = rt.alloc();
    assert_commits(&rt, alloc, BOTH, COMMITS.as_slice());
    assert_commits(&rt, alloc, FOREVER, WITHOUT_END.as_slice());
    assert_commits(&rt, alloc, BOTH, STOPPED.as_slice());
    assert_commits(&rt, alloc, FILLS, LACKING.as_slice());
}

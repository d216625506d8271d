// Schedules with numbers that no line of a text has: no steps, more than 256, and threads and workers of any number.
use crate::playing::{Player, check, replayed, verified};
use crate::texts::{AMPLE, BOTH, FOREVER};
use dv_defs::{Entry, Limits};
use dv_rules::Verified;
use dv_sound::{ReplayError, SafeVm};
use std::alloc::Global;
use std::process::Abort;

/// At which entry a schedule is refused, or with how many it stops early.
#[derive(Clone, Copy)]
enum Refusal {
    NotRunnable(u32),
    Long(u32),
    Short(u32),
}

fn error_of(refusal: Refusal) -> ReplayError {
    match refusal {
        Refusal::NotRunnable(entry) => ReplayError::NotRunnable(entry),
        Refusal::Long(entry) => ReplayError::Long(entry),
        Refusal::Short(entries) => ReplayError::Short(entries),
    }
}

/// Entries, of a thread and its steps, and why they are refused, if they are.
type Replay = (&'static [(u32, u32)], Option<Refusal>);

/// The schedule of these entries, whose workers count down from the highest number.
fn schedule_of<R: Abort>(rt: &R, alloc: Global, entries: &[(u32, u32)]) -> Vec<Entry> {
    let mut schedule = Vec::new(alloc);
    let mut worker = u32::MAX;
    for (thread, steps) in entries {
        let entry = Entry {
            worker,
            thread: *thread,
            steps: *steps,
        };
        assert!(rt; schedule.push(entry).is_ok());
        worker = worker.saturating_sub(1);
    }
    schedule
}

/// A schedule that is replayed isn't one of a refusal; it leads to an ending, and is the log of the replay.
fn assert_replayed<R: Abort>(rt: &R, run: &SafeVm, schedule: &[Entry], row: &Replay) {
    let (entries, refused) = row;
    check(rt, refused.is_none(), "not refused", entries);
    check(rt, run.ending().is_some(), "an ending", entries);
    check(rt, run.log() == schedule, "the log", entries);
}

/// A schedule is refused so.
fn assert_refused<R: Abort>(rt: &R, error: &ReplayError, row: &Replay) {
    let (entries, refused) = row;
    let is_so = match *refused {
        Some(refusal) => *error == error_of(refusal),
        None => false,
    };
    assert!(rt; is_so, "{error:?}: {entries:?}");
}

/// A schedule leads to an ending, or it is refused.
fn assert_schedule<R: Abort>(
    rt: &R,
    alloc: Global,
    player: Player<'_>,
    schedule: &[Entry],
    row: &Replay,
) {
    match replayed(rt, alloc, player, schedule) {
        Ok(run) => {
            assert_replayed(rt, &run, schedule, row);
            drop(run);
        }
        Err(error) => assert_refused(rt, &error, row),
    }
}

fn assert_replay<R: Abort>(rt: &R, alloc: Global, player: Player<'_>, row: &Replay) {
    let schedule = schedule_of(rt, alloc, row.0);
    assert_schedule(rt, alloc, player, &schedule, row);
    drop(schedule);
}

fn assert_replays<R: Abort>(
    rt: &R,
    alloc: Global,
    verified: &Verified,
    budget: u64,
    rows: &[Replay],
) {
    let limits = Limits { budget, ..AMPLE };
    for row in rows {
        assert_replay(rt, alloc, Player { verified, limits }, row);
    }
}

/// Main does twelve steps and starts a thread, which does four. An entry of no steps asks for nothing: not for its thread, nor that the run
/// goes on.
static ANY_NUMBERS: [Replay; 11] = [
    (&[(0, 12), (1, 4)], None),
    (&[(0, 0), (0, 12), (0, 0), (1, 4), (0, 0)], None),
    (&[(63, 0), (0, 12), (2, 0), (1, 4), (u32::MAX, 0)], None),
    (&[(63, 0)], Some(Refusal::Short(1))),
    (&[(0, 0), (1, 0), (0, 12)], Some(Refusal::Short(3))),
    (&[(0, 12), (1, 4), (0, 0), (1, 1)], Some(Refusal::Long(3))),
    (&[(64, 1)], Some(Refusal::NotRunnable(0))),
    (&[(u32::MAX, 1)], Some(Refusal::NotRunnable(0))),
    (&[(0, u32::MAX)], Some(Refusal::NotRunnable(0))),
    (&[(0, 12), (1, u32::MAX)], Some(Refusal::Long(1))),
    // the ending goes before the thread
    (&[(0, 12), (1, 4), (u32::MAX, 1)], Some(Refusal::Long(2))),
];

/// An entry may have more steps than a turn.
static MANY_STEPS: [Replay; 3] = [
    (&[(0, 300)], None),
    (&[(0, 301)], Some(Refusal::Long(0))),
    (&[(0, 299)], Some(Refusal::Short(1))),
];

/// As the run begins, its budget of no steps is spent.
static NO_STEPS: [Replay; 3] = [
    (&[], None),
    (&[(0, 0)], None),
    (&[(0, 1)], Some(Refusal::Long(0))),
];

#[test]
fn entries_may_have_any_numbers(rt: HostRuntime) {
    let alloc = rt.alloc();
    let both = verified(&rt, alloc, BOTH);
    assert_replays(&rt, alloc, &both, 1_000_000, ANY_NUMBERS.as_slice());
    drop(both);
}

#[test]
fn entries_may_have_many_steps(rt: HostRuntime) {
    let alloc = rt.alloc();
    let forever = verified(&rt, alloc, FOREVER);
    assert_replays(&rt, alloc, &forever, 300, MANY_STEPS.as_slice());
    assert_replays(&rt, alloc, &forever, 0, NO_STEPS.as_slice());
    drop(forever);
}

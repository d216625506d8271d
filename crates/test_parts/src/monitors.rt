// What a wait keeps, monitors that move to lower slots, and want of memory: the call changes nothing then.
use dv_monitor::{Entry, MonitorError, Monitors, Wait};
use std::alloc::AllocError;
use std::process::Abort;
use std::test::Fail;

/// What a call answers: nothing, or that the thread isn't the owner.
#[derive(Clone, Copy, PartialEq, Eq)]
pub enum Answer {
    Done,
    OwnedBy(Option<u32>),
}

use Answer::{Done, OwnedBy};

fn enter(rt: &impl Abort, m: &mut Monitors, object: u32, thread: u32) -> Result<(), AllocError> {
    let owner = m.owner(object);
    assert!(rt; owner.is_none() || owner == Some(thread));
    assert!(rt; m.count(object) < u64::MAX);
    m.enter(object, thread)
}

fn wait(rt: &impl Abort, m: &mut Monitors, object: u32, thread: u32) -> Result<Answer, AllocError> {
    assert!(rt; !m.waiting(thread));
    match m.wait(object, thread) {
        Ok(()) => Ok(Done),
        Err(MonitorError::NotOwner(refused)) => Ok(OwnedBy(refused.owner)),
        Err(MonitorError::Memory(e)) => Err(e),
    }
}

fn assert_kept(rt: &impl Abort, m: &mut Monitors) -> Result<(), AllocError> {
    enter(rt, m, 9, 3)?;
    enter(rt, m, 9, 3)?;
    let answer = wait(rt, m, 9, 3)?;
    assert!(rt; answer == Done);
    let waits = Wait {
        thread: 3,
        object: 9,
        kept: 2,
        notified: false,
    };
    assert!(rt; m.wait_of(3) == Some(waits));
    assert!(rt; m.waiting(3) && !m.notified(3) && !m.waiting(9));
    Ok(())
}

#[test]
fn a_wait_keeps_the_count(rt: HostRuntime) -> Result<(), Fail> {
    let mut m = Monitors::new(rt.alloc());
    let done = assert_kept(&rt, &mut m);
    drop(m);
    done?;
    Ok(())
}

// The call that wants memory changes nothing, and done again it goes on.
fn enter_again(rt: &impl Abort, m: &mut Monitors, thread: u32) -> Result<(), AllocError> {
    if enter(rt, m, 1, thread).is_ok() {
        return Ok(());
    }
    assert!(rt; m.owner(1).is_none());
    enter(rt, m, 1, thread)
}

fn wait_again(rt: &impl Abort, m: &mut Monitors, thread: u32) -> Result<(), AllocError> {
    if wait(rt, m, 1, thread).is_err() {
        assert!(rt; m.owner(1) == Some(thread) && !m.waiting(thread));
        let answer = wait(rt, m, 1, thread)?;
        assert!(rt; answer == Done);
    }
    assert!(rt; m.owner(1).is_none() && m.waiting(thread));
    Ok(())
}

fn assert_unchanged(rt: &impl Abort, m: &mut Monitors) -> Result<(), AllocError> {
    for thread in 0..64 {
        enter_again(rt, m, thread)?;
        wait_again(rt, m, thread)?;
    }
    if m.reserve().is_err() {
        assert!(rt; m.owner(1).is_none() && m.waiting(63));
        m.reserve()?;
    }
    Ok(())
}

// Tried with each allocation failing in turn.
#[test]
fn want_of_memory_changes_nothing(rt: HostRuntime) -> Result<(), Fail> {
    let mut m = Monitors::new(rt.alloc());
    let done = assert_unchanged(&rt, &mut m);
    drop(m);
    done?;
    Ok(())
}

// How many monitors are held at once.
const HELD: u32 = 40;

fn enter_twice(rt: &impl Abort, m: &mut Monitors, object: u32) -> Result<(), AllocError> {
    let first = m.try_enter(object, 3)?;
    let second = m.try_enter(object, 3)?;
    let other = m.try_enter(object, 4)?;
    assert!(rt; first == Entry::Entered && second == Entry::Entered && other == Entry::Taken);
    Ok(())
}

fn leave(rt: &impl Abort, m: &mut Monitors, object: u32) {
    assert!(rt; m.exit(object, 3).is_ok() && m.count(object) == 1);
    assert!(rt; m.exit(object, 3).is_ok() && m.count(object) == 0);
    assert!(rt; m.owner(object).is_none());
}

fn assert_held(rt: &impl Abort, m: &Monitors, first: u32) {
    for place in 0..HELD {
        let object = first.wrapping_add(place);
        assert!(rt; m.owner(object) == Some(3) && m.count(object) == 2);
    }
}

// The monitor that is held longest is left, and a new one is held in its place: so the slots below are empty, until they are closed up and eight of
// the monitors stand in the first eight.
fn assert_found(rt: &impl Abort, m: &mut Monitors) -> Result<(), AllocError> {
    for object in 0..HELD {
        enter_twice(rt, m, object)?;
    }
    for object in 0..300 {
        assert_held(rt, m, object);
        enter_twice(rt, m, object + HELD)?;
        leave(rt, m, object);
    }
    Ok(())
}

// Those that are left are left from the middle on, first up and then down.
fn assert_left(rt: &impl Abort, m: &mut Monitors) {
    assert_held(rt, m, 300);
    for object in 320..340 {
        leave(rt, m, object);
    }
    for place in 0..20 {
        assert!(rt; m.owner(300) == Some(3));
        leave(rt, m, 319 - place);
    }
}

#[test]
fn monitors_are_found_where_slots_are_closed_up(rt: HostRuntime) -> Result<(), Fail> {
    let mut m = Monitors::new(rt.alloc());
    let done = assert_found(&rt, &mut m);
    if done.is_ok() {
        assert_left(&rt, &mut m);
    }
    drop(m);
    done?;
    Ok(())
}

// Entering and leaving monitors, and notifying (JLS 17.1, 17.2.2).
ghost use Rattle.std.specs.Prelude.{◌-◌, ◌<◌, ◌≤◌, ◌^◌, is_none, length};
ghost use Rattle.dv_machine.specs.Mem.{on_object};
ghost use Rattle.dv_monitor.specs.State.{count_of};
ghost use Rattle.dv_words.specs.State.{WordThread};
ghost use Rattle.dv_words.specs.Answering.{Leads};
ghost use Rattle.dv_words.specs.Running.{blocked_enter};
ghost use Rattle.dv_words.specs.Steps.{At};
ghost use Rattle.dv_words.specs.Threads as steps;
ghost use Rattle.dv_threads.specs.Kept.{Answers, AreAsBefore, IsThreadOf, LeavesThreads};
ghost use Rattle.dv_threads.specs.Owning.{TriesTo};

use crate::stacks::go_on;
use crate::threads::{Threads, is_there};
use dv_defs::{Named, Next};
use dv_monitor::Entry;
use std::alloc::AllocError;

/// monitor-enter of the object, tried: none where another thread owns the monitor, and all is as before then. Null throws. What is entered 2^64 - 1
/// times isn't entered again.
///
/// # Errors
///
/// Want of memory; all is as before then.
pub fn try_monitor_enter(
    threads: &mut Threads,
    thread: u32,
    next: u32,
    object: u32,
) -> Result<Option<Next>, AllocError>
    ensures does { (own : WordThread) (h : At) → IsThreadOf threads.old thread next own h → count_of threads.old.monitors.monitors object < 2 ^ 64 - 1 →
        TriesTo result (is_none (blocked_enter h.shared.monitors h.thread object)) (on_object (steps.monitor_enter h) object) (LeavesThreads threads.old threads.new own h)
        (AreAsBefore threads.old threads.new) }
    ensures absent { length threads.old.stacks.items ≤ thread → AreAsBefore threads.old threads.new }
{
    if !is_there(threads, thread) {
        return Ok(Some(Next::On));
    }
    if object == 0 {
        return Ok(Some(Next::Throw(Named::NullPointer)));
    }
    match threads.monitors.try_enter(object, thread)? {
        Entry::Entered => {
            go_on(&mut threads.stacks, thread, next);
            Ok(Some(Next::On))
        }
        Entry::Taken => Ok(None),
        Entry::Full => Ok(Some(Next::On)),
    }
}

/// monitor-enter of the object: null throws, and a thread that has to wait for another stays where it is. What is entered 2^64 - 1 times
/// isn't entered again.
///
/// # Errors
///
/// Want of memory; all is as before then.
pub fn monitor_enter(
    threads: &mut Threads,
    thread: u32,
    next: u32,
    object: u32,
) -> Result<Next, AllocError>
    ensures does { (own : WordThread) (h : At) → IsThreadOf threads.old thread next own h → count_of threads.old.monitors.monitors object < 2 ^ 64 - 1 →
        Leads result (on_object (steps.monitor_enter h) object) (LeavesThreads threads.old threads.new own h) (AreAsBefore threads.old threads.new) }
    ensures absent { length threads.old.stacks.items ≤ thread → AreAsBefore threads.old threads.new }
{
    match try_monitor_enter(threads, thread, next, object)? {
        Some(answer) => Ok(answer),
        None => Ok(Next::On),
    }
}

/// monitor-exit of the object, for its owner.
fn exit(threads: &mut Threads, thread: u32, next: u32, object: u32) -> Next
    ensures { (own : WordThread) (h : At) → IsThreadOf threads.old thread next own h →
        Answers result (steps.monitor_exit h object) (LeavesThreads threads.old threads.new own h) (AreAsBefore threads.old threads.new) }
{
    let Ok(()) = threads.monitors.exit(object, thread) else {
        return Next::Throw(Named::IllegalMonitorState);
    };
    go_on(&mut threads.stacks, thread, next);
    Next::On
}

/// monitor-exit of the object: null throws, and only the owner goes on.
///
/// # Errors
///
/// None: it takes no memory.
pub fn monitor_exit(
    threads: &mut Threads,
    thread: u32,
    next: u32,
    object: u32,
) -> Result<Next, AllocError>
    ensures does { (own : WordThread) (h : At) → IsThreadOf threads.old thread next own h →
        Leads result (on_object (steps.monitor_exit h) object) (LeavesThreads threads.old threads.new own h) (AreAsBefore threads.old threads.new) }
    ensures absent { length threads.old.stacks.items ≤ thread → AreAsBefore threads.old threads.new }
{
    if !is_there(threads, thread) {
        return Ok(Next::On);
    }
    if object == 0 {
        return Ok(Next::Throw(Named::NullPointer));
    }
    Ok(exit(threads, thread, next, object))
}

/// Object.notify, for the owner.
pub fn notify(threads: &mut Threads, thread: u32, next: u32, object: u32) -> Next
    ensures { (own : WordThread) (h : At) → IsThreadOf threads.old thread next own h →
        Answers result (steps.notify_on h object) (LeavesThreads threads.old threads.new own h) (AreAsBefore threads.old threads.new) }
{
    let Ok(()) = threads.monitors.notify(object, thread) else {
        return Next::Throw(Named::IllegalMonitorState);
    };
    go_on(&mut threads.stacks, thread, next);
    Next::On
}

/// Object.notifyAll, for the owner.
pub fn notify_all(threads: &mut Threads, thread: u32, next: u32, object: u32) -> Next
    ensures { (own : WordThread) (h : At) → IsThreadOf threads.old thread next own h →
        Answers result (steps.notify_all_on h object) (LeavesThreads threads.old threads.new own h) (AreAsBefore threads.old threads.new) }
{
    let Ok(()) = threads.monitors.notify_all(object, thread) else {
        return Next::Throw(Named::IllegalMonitorState);
    };
    go_on(&mut threads.stacks, thread, next);
    Next::On
}

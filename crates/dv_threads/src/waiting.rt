// Waiting for an object (JLS 17.2.1).
ghost use Rattle.std.specs.Prelude.{◌≡◌, ℕ, None, Some};
ghost use Rattle.dv_machine.specs.Monitors.{wait_of};
ghost use Rattle.dv_monitor.specs.Waits.{wait_value};
ghost use Rattle.dv_words.specs.State.{WordThread};
ghost use Rattle.dv_words.specs.Answering.{Leads};
ghost use Rattle.dv_words.specs.Steps.{At};
ghost use Rattle.dv_words.specs.Threads.{wait_on, wait_step};
ghost use Rattle.dv_threads.specs.Kept.{Answers, AreAsBefore, IsThreadOf, LeavesThreads};

use crate::stacks::go_on;
use crate::threads::Threads;
use dv_defs::{Named, Next};
use dv_monitor::{MonitorError, Wait};
use std::alloc::AllocError;

/// The first step: the owner gives the monitor up wholly, and waits where it is.
fn begin_wait(threads: &mut Threads, thread: u32, object: u32) -> Result<Next, AllocError>
    requires { wait_of threads.old.monitors.monitors thread ≡ None }
    ensures { (next : ℕ) (own : WordThread) (h : At) → IsThreadOf threads.old thread next own h →
        Leads result (wait_step h object None) (LeavesThreads threads.old threads.new own h) (AreAsBefore threads.old threads.new) }
{
    match threads.monitors.wait(object, thread) {
        Ok(()) => Ok(Next::On),
        Err(MonitorError::NotOwner(_)) => Ok(Next::Throw(Named::IllegalMonitorState)),
        Err(MonitorError::Memory(error)) => Err(error),
    }
}

/// The second step: a thread that was notified takes the free monitor back as often as it had it.
fn take_back(threads: &mut Threads, thread: u32, next: u32, wait: &Wait) -> Next
    requires { wait_of threads.old.monitors.monitors thread ≡ Some (wait_value wait.now) }
    ensures { (own : WordThread) (h : At) (object : ℕ) → IsThreadOf threads.old thread next own h →
        Answers result (wait_step h object (Some (wait_value wait.now))) (LeavesThreads threads.old threads.new own h) (AreAsBefore threads.old threads.new) }
{
    if !wait.notified {
        return Next::On;
    }
    if threads.monitors.owner(wait.object).is_some() {
        return Next::On;
    }
    threads.monitors.resume(wait.object, thread);
    go_on(&mut threads.stacks, thread, next);
    Next::On
}

/// Object.wait, of which this is the first or the second step.
pub fn wait(threads: &mut Threads, thread: u32, next: u32, object: u32) -> Result<Next, AllocError>
    ensures { (own : WordThread) (h : At) → IsThreadOf threads.old thread next own h →
        Leads result (wait_on h object) (LeavesThreads threads.old threads.new own h) (AreAsBefore threads.old threads.new) }
{
    match threads.monitors.wait_of(thread) {
        None => begin_wait(threads, thread, object),
        Some(wait) => Ok(take_back(threads, thread, next, &wait)),
    }
}

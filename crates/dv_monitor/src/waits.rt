// The threads that wait, in the order of waiting.
ghost use Rattle.std.specs.Prelude.{◌≡◌, ◌+◌, ◌==◌, ◌&&◌, IsSome, Some, find, not, position, vec_capacity, vec_len};
ghost use Rattle.dv_machine.specs.Monitors.{notify_each, notify_first, wait_in, without};
ghost use Rattle.dv_monitor.specs.Waits.{wait_value, wait_values};

use crate::wait::Wait;

/// What a thread waits for, if it waits.
pub fn find(waits: &[Wait], thread: u32) -> Option<Wait>
    ensures { result ≡ find (λ w. w.thread == thread) waits.now }
{
    waits.iter().copied().find(|wait| wait.thread == thread)
}

/// Takes out a thread that waits.
pub fn take(waits: &mut Vec<Wait>, thread: u32) -> Wait
    requires { IsSome (wait_in thread (wait_values waits.old.items)) }
    ensures value { wait_in thread (wait_values waits.old.items) ≡ Some (wait_value result) }
    ensures waits { wait_values waits.new.items ≡ without thread (wait_values waits.old.items) }
    ensures len { vec_len waits.new + 1 ≡ vec_len waits.old }
    ensures capacity { vec_capacity waits.new ≡ vec_capacity waits.old }
{
    let place = place_of(waits, thread).unwrap();
    waits.remove(place)
}

/// Notifies the thread that waits longest for the object and isn't notified yet.
pub fn notify_oldest(waits: &mut [Wait], object: u32)
    ensures { wait_values waits.new ≡ notify_first object (wait_values waits.old) }
{
    if let Some(place) = oldest(waits, object) {
        waits[place].notified = true;
    }
}

/// Notifies all that wait for the object.
pub fn notify_all(waits: &mut [Wait], object: u32)
    ensures { wait_values waits.new ≡ notify_each object (wait_values waits.old) }
{
    for wait in waits.iter_mut() {
        if wait.object == object {
            wait.notified = true;
        }
    }
}

// The place of a thread that waits.
fn place_of(waits: &[Wait], thread: u32) -> Option<usize>
    ensures { result ≡ position (λ w. w.thread == thread) waits.now }
{
    waits.iter().position(|wait| wait.thread == thread)
}

// The place of the thread that waits longest for the object and isn't notified yet.
fn oldest(waits: &[Wait], object: u32) -> Option<usize>
    ensures { result ≡ position (λ w. w.object == object && not w.notified) waits.now }
{
    waits
        .iter()
        .position(|wait| wait.object == object && !wait.notified)
}

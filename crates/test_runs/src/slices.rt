// Runs in slices: many local steps of a thread at once, and then one other step.
use crate::running::{check, lowest, step};
use dv_core::Vm;
use dv_defs::Image;
use dv_words::Frame;
use std::process::Abort;

/// A slice has no more local steps than these.
const LONGEST: u32 = 3;

/// A run has no more slices than these.
const MOST: u64 = 200_000;

/// The local steps that a slice may have, by the budget that is left.
fn most_of(vm: &Vm) -> u32 {
    let left = vm.limits.budget.saturating_sub(vm.steps);
    if left < u64::from(LONGEST) {
        left as u32
    } else {
        LONGEST
    }
}

/// The frame on top of a thread, where it has one.
fn top<R: Abort>(rt: &R, vm: &Vm, thread: u32) -> Option<Frame> {
    vm.copy_top(thread).ok().expect(rt, "memory")
}

/// So many steps are done, and this frame is on top of a thread.
fn assert_at<R: Abort>(rt: &R, vm: &Vm, thread: u32, frame: &Frame, steps: u64) {
    assert_eq!(rt; vm.steps, steps);
    let found = top(rt, vm, thread).expect(rt, "a frame");
    assert!(rt; found == *frame);
    drop(found);
}

/// Local steps that were done from a frame on are taken back, and done again by the frame that they led to.
fn assert_redone<R: Abort>(rt: &R, vm: &mut Vm, thread: u32, start: &Frame, done: u32) {
    let after = vm.steps;
    let end = top(rt, vm, thread).expect(rt, "a frame");
    vm.take_back(thread, start, done);
    assert_at(rt, vm, thread, start, after.saturating_sub(u64::from(done)));
    vm.advance(thread, &end, done);
    assert_at(rt, vm, thread, &end, after);
    drop(end);
}

/// Does local steps of a thread, and gives how many. They may be taken back, and done again by the frame that they led to.
fn run_locally<R: Abort>(rt: &R, image: &Image, vm: &mut Vm, thread: u32, most: u32) -> u32 {
    let before = vm.steps;
    let start = top(rt, vm, thread);
    let done = vm.run(image, thread, most);
    assert_eq!(rt; vm.steps, before.saturating_add(u64::from(done)));
    match &start {
        Some(start) => assert_redone(rt, vm, thread, start, done),
        None => assert_eq!(rt; done, 0),
    }
    drop(start);
    done
}

/// A slice of a runnable thread: its local steps, and then, where it may have more and goes on, one other step.
fn slice<R: Abort>(rt: &R, image: &Image, vm: &mut Vm, thread: u32, text: &str) {
    let most = most_of(vm);
    let is_local = vm.next_is_local(image, thread);
    let done = run_locally(rt, image, vm, thread, most);
    check(rt, (done > 0) == is_local, "local steps", text);
    if done < most {
        let is_local = vm.next_is_local(image, thread);
        check(rt, !is_local, "no further local step", text);
        if vm.runnable(image, thread) {
            step(rt, image, vm, thread, text);
        }
    }
}

/// The lowest runnable thread has a slice, until the run ends.
pub fn run_in_slices<R: Abort>(rt: &R, image: &Image, vm: &mut Vm, text: &str) {
    for _ in 0..MOST {
        if vm.ending(image).is_some() {
            return;
        }
        let thread = lowest(image, vm).expect(rt, "a runnable thread");
        slice(rt, image, vm, thread, text);
    }
}

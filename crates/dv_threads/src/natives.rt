// The natives of threads and monitors.
ghost use Rattle.std.specs.Prelude.{◌≡◌, ◌≤◌, Some, false, length, map, slice_get, true};
ghost use Rattle.dv_defs.specs.Op.{named_registers};
ghost use Rattle.dv_words.specs.Stacks.{arg_words};
ghost use Rattle.dv_words.specs.State.{WordStack, WordThread};
ghost use Rattle.dv_words.specs.Answering.{Leads};
ghost use Rattle.dv_words.specs.Local.{reg_word};
ghost use Rattle.dv_words.specs.Natives as steps;
ghost use Rattle.dv_words.specs.Natives.{arg};
ghost use Rattle.dv_words.specs.Steps.{At};
ghost use Rattle.dv_threads.specs.Kept.{AreAsBefore, HasRoom, IsThreadOf, LeavesThreads, Sees};
ghost use Rattle.dv_threads.specs.Stepping.{is_of_threads};

use crate::monitors::{notify, notify_all};
use crate::starting::{current, join, start};
use crate::threads::{Threads, is_there};
use crate::waiting::wait;
use dv_defs::{Image, Limits, Native, Next, Regs};
use dv_frames::Stack;
use dv_heap::Heap;
use std::alloc::AllocError;

/// The word of the first register that is named, 0 where none is.
pub fn first_word(stacks: &[Stack], thread: u32, regs: &Regs) -> u32
    ensures { (s : WordStack) → slice_get stacks.now thread ≡ Some s → result ≡ arg (arg_words s regs.now) 0 }
{
    if regs.count == 0 {
        return 0;
    }
    match stacks.get(thread as usize) {
        Some(stack) => stack.word(u32::from(regs.first[0])),
        None => 0,
    }
}

/// A native of threads and monitors with the registers that its invoke names: Object's wait, notify and notifyAll, Thread's start, join and
/// currentThread. Of the others nothing is done.
///
/// # Errors
///
/// Want of memory; all is as before then.
pub fn native_step(
    image: &Image,
    heap: &Heap,
    limits: &Limits,
    threads: &mut Threads,
    thread: u32,
    next: u32,
    native: Native,
    regs: &Regs,
) -> Result<Next, AllocError>
    ensures does { (own : WordThread) (h : At) → IsThreadOf threads.old thread next own h → Sees image.now heap.now limits.now h → HasRoom h.limits → is_of_threads native ≡ true →
        Leads result (steps.native_step h native (map (reg_word h.frame) (named_registers regs.now))) (LeavesThreads threads.old threads.new own h) (AreAsBefore threads.old threads.new) }
    ensures other { is_of_threads native ≡ false → AreAsBefore threads.old threads.new }
    ensures absent { length threads.old.stacks.items ≤ thread → AreAsBefore threads.old threads.new }
{
    if !is_there(threads, thread) {
        return Ok(Next::On);
    }
    let object = first_word(&threads.stacks, thread, regs);
    match native {
        Native::Wait => wait(threads, thread, next, object),
        Native::Notify => Ok(notify(threads, thread, next, object)),
        Native::NotifyAll => Ok(notify_all(threads, thread, next, object)),
        Native::Start => start(image, heap, limits, threads, thread, next, object),
        Native::Join => Ok(join(threads, thread, next, object)),
        Native::CurrentThread => Ok(current(threads, thread, next)),
        _ => Ok(Next::On),
    }
}

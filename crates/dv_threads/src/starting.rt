// Starting threads and joining them.
ghost use Rattle.std.specs.Prelude.{◌≡◌, ◌+◌, ◌≤◌, ◌<◌, ◌++◌, ◌∷◌, ℕ, [], IfOk, OnOk, position, vec_capacity, vec_len, ◌==◌};
ghost use Rattle.dv_defs.specs.declared.machine.End.TheVariants as end;
ghost use Rattle.dv_words.specs.declared.state.Level.TheVariants as level;
ghost use Rattle.dv_words.specs.Stacks.{empty, entered};
ghost use Rattle.dv_words.specs.State.{WordThread};
ghost use Rattle.dv_words.specs.Answering.{Leads};
ghost use Rattle.dv_words.specs.Steps.{At};
ghost use Rattle.dv_words.specs.Threads as steps;
ghost use Rattle.dv_threads.specs.Kept.{Answers, AreAsBefore, HasRoom, IsThreadOf, LeavesThreads, Sees};
ghost use Rattle.dv_words.specs.Natives.{gives};
ghost use Rattle.dv_threads.specs.Starting.{IsFirst, begun, other_lives, run_of, started_by};

use crate::running::{registers_of, run_landing};
use crate::stacks::{give, go_on};
use crate::threads::Threads;
use dv_defs::{End, Image, Limits, MethodId, Named, Next};
use dv_frames::{Full, Stack};
use dv_heap::Heap;
use std::alloc::{AllocError, Global};

/// The thread of a Thread object, if it has one.
fn thread_with(objects: &[u32], object: u32) -> Option<usize>
    ensures { result ≡ position (λ own. own == object) objects.now }
{
    objects.iter().position(|own| *own == object)
}

/// Whether a thread has neither returned nor died.
fn is_alive(end: End) -> bool
    ensures { result ≡ steps.is_alive end }
{
    matches!(end, End::Living | End::Flying(_))
}

/// The stack of a thread that begins with a method on an object.
fn first_stack(
    alloc: Global,
    limits: &Limits,
    method: MethodId,
    registers: u16,
    object: u32,
) -> Result<Result<Stack, Full>, AllocError>
    ensures { IfOk result (IsFirst (empty limits.now.levels limits.now.words) (entered method registers (object ∷ []))) }
{
    let mut stack = Stack::new(alloc, limits.levels, limits.words)?;
    match stack.push(method, registers, &[object]) {
        Ok(()) => Ok(Ok(stack)),
        Err(full) => Ok(Err(full)),
    }
}

/// Takes room for one thread more.
fn reserve(threads: &mut Threads) -> Result<(), AllocError>
    ensures stacks { threads.new.stacks.items ≡ threads.old.stacks.items }
    ensures ends { threads.new.ends.items ≡ threads.old.ends.items }
    ensures objects { threads.new.objects.items ≡ threads.old.objects.items }
    ensures monitors { threads.new.monitors ≡ threads.old.monitors }
    ensures stack_room { OnOk result (vec_len threads.new.stacks < vec_capacity threads.new.stacks) }
    ensures end_room { OnOk result (vec_len threads.new.ends < vec_capacity threads.new.ends) }
    ensures object_room { OnOk result (vec_len threads.new.objects < vec_capacity threads.new.objects) }
{
    threads.stacks.reserve(1)?;
    threads.ends.reserve(1)?;
    threads.objects.reserve(1)
}

/// Adds a living thread where there is room.
fn add(threads: &mut Threads, stack: Stack, object: u32)
    requires stack_room { vec_len threads.old.stacks < vec_capacity threads.old.stacks }
    requires end_room { vec_len threads.old.ends < vec_capacity threads.old.ends }
    requires object_room { vec_len threads.old.objects < vec_capacity threads.old.objects }
    ensures stacks { threads.new.stacks.items ≡ threads.old.stacks.items ++ stack ∷ [] }
    ensures ends { threads.new.ends.items ≡ threads.old.ends.items ++ end.Living ∷ [] }
    ensures objects { threads.new.objects.items ≡ threads.old.objects.items ++ object ∷ [] }
    ensures monitors { threads.new.monitors ≡ threads.old.monitors }
{
    threads.stacks.push_reserved(stack);
    threads.ends.push_reserved(End::Living);
    threads.objects.push_reserved(object);
}

/// Thread.start of an object that has no thread, by the method with which it begins.
pub fn start_with(
    limits: &Limits,
    threads: &mut Threads,
    thread: u32,
    next: u32,
    object: u32,
    method: MethodId,
    registers: u16,
) -> Result<Next, AllocError>
    requires { registers ≤ 256 }
    ensures { (own : WordThread) (h : At) → IsThreadOf threads.old thread next own h → h.limits ≡ limits.now → HasRoom h.limits →
        Leads result (started_by h (begun method registers object)) (LeavesThreads threads.old threads.new own h) (AreAsBefore threads.old threads.new) }
{
    let alloc = *threads.stacks.allocator();
    let Ok(stack) = first_stack(alloc, limits, method, registers, object)? else {
        return Ok(Next::NoRoom);
    };
    reserve(threads)?;
    go_on(&mut threads.stacks, thread, next);
    add(threads, stack, object);
    Ok(Next::On)
}

/// Thread.start of an object that has no thread, where there may be one thread more.
fn start_new(
    image: &Image,
    heap: &Heap,
    limits: &Limits,
    threads: &mut Threads,
    thread: u32,
    next: u32,
    object: u32,
) -> Result<Next, AllocError>
    ensures { (own : WordThread) (h : At) → IsThreadOf threads.old thread next own h → Sees image.now heap.now limits.now h → HasRoom h.limits →
        Leads result (steps.started_on h object (run_of h object)) (LeavesThreads threads.old threads.new own h) (AreAsBefore threads.old threads.new) }
{
    match run_landing(image, heap, object) {
        Ok(method) => {
            let registers = registers_of(method.def);
            start_with(limits, threads, thread, next, object, method.id, registers)
        }
        Err(named) => Ok(Next::Throw(named)),
    }
}

/// Thread.start.
///
/// # Errors
///
/// Want of memory; all is as before then.
pub fn start(
    image: &Image,
    heap: &Heap,
    limits: &Limits,
    threads: &mut Threads,
    thread: u32,
    next: u32,
    object: u32,
) -> Result<Next, AllocError>
    ensures { (own : WordThread) (h : At) → IsThreadOf threads.old thread next own h → Sees image.now heap.now limits.now h → HasRoom h.limits →
        Leads result (steps.start_on h object) (LeavesThreads threads.old threads.new own h) (AreAsBefore threads.old threads.new) }
{
    if thread_with(&threads.objects, object).is_some() {
        return Ok(Next::Throw(Named::IllegalThreadState));
    }
    if threads.objects.len() >= limits.threads as usize {
        return Ok(Next::Throw(Named::OutOfMemory));
    }
    start_new(image, heap, limits, threads, thread, next, object)
}

/// Whether the thread of an object, if it has one, lives.
fn lives(threads: &Threads, object: u32) -> bool
    ensures { (own : WordThread) (thread next : ℕ) (h : At) → IsThreadOf threads.now thread next own h → result ≡ other_lives h (steps.thread_with h.threads object) }
{
    match thread_with(&threads.objects, object) {
        Some(other) => match threads.ends.get(other) {
            Some(end) => is_alive(*end),
            None => false,
        },
        None => false,
    }
}

/// Thread.join: a thread stays where it is while the object's thread lives.
pub fn join(threads: &mut Threads, thread: u32, next: u32, object: u32) -> Next
    ensures { (own : WordThread) (h : At) → IsThreadOf threads.old thread next own h →
        Answers result (steps.join_on h object) (LeavesThreads threads.old threads.new own h) (AreAsBefore threads.old threads.new) }
{
    if lives(threads, object) {
        return Next::On;
    }
    go_on(&mut threads.stacks, thread, next);
    Next::On
}

/// Thread.currentThread: the Thread object of the thread that steps.
pub fn current(threads: &mut Threads, thread: u32, next: u32) -> Next
    ensures { (own : WordThread) (h : At) → IsThreadOf threads.old thread next own h →
        Answers result (gives h (steps.own_object h)) (LeavesThreads threads.old threads.new own h) (AreAsBefore threads.old threads.new) }
{
    let Some(object) = threads.objects.get(thread as usize) else {
        return Next::On;
    };
    let object = *object;
    give(&mut threads.stacks, thread, next, object);
    Next::On
}

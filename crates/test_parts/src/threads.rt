// Steps of guest threads that change nothing, in states that no program comes to: a thread that isn't there, a stack without room for a new
// thread's frame, a native on null, a start of an object that is no thread, and instructions of other parts.
use crate::fixtures::{Made, add_method, heap_of, insn_at, linked, method_among, same_stacks};
use dv_defs::{End, Image, Limits, MethodId, Named, Native, Next};
use dv_frames::Stack;
use dv_heap::Heap;
use dv_monitor::Monitors;
use dv_threads::{Threads, thread_step};
use dv_words::Kept;
use std::alloc::{AllocError, Global};
use std::process::Abort;

/// Classes of threads: with a run of its own, with one of all registers, and with an abstract one. The rows are methods of the last class.
const CLASSES: &str = "
    .class LWorker;
    .super Ljava/lang/Thread;
    .method run()V
    .registers 3
    return-void
    .end method
    .class LWide;
    .super Ljava/lang/Thread;
    .method run()V
    .registers 256
    return-void
    .end method
    .class abstract LDraft;
    .super Ljava/lang/Thread;
    .method abstract run()V
    .end method
    .class LHollow;
    .super LDraft;
    .class LMain;
    .super Ljava/lang/Object;
";

/// The objects, by their numbers from 1 on.
const OBJECTS: &[Made] = &[
    Made::Of("Ljava/lang/Object;"),
    Made::Text(&[97]),
    Made::Of("Ljava/lang/Thread;"),
    Made::Of("LWorker;"),
    Made::Of("LWorker;"),
    Made::Of("LWide;"),
    Made::Of("LHollow;"),
];

const NULL: u32 = 0;

/// Its monitor is owned by thread 0.
const LOCK: u32 = 1;

const TEXT: u32 = 2;

/// The objects of the threads 0 and 1, which live.
const FIRST: u32 = 3;

const SECOND: u32 = 4;

const WORKER: u32 = 5;

const WIDE: u32 = 6;

const HOLLOW: u32 = 7;

/// Two threads that live, and room for one more with one frame of any method.
const AMPLE: Limits = Limits {
    budget: 1000,
    heap: 1000,
    output: 100,
    threads: 3,
    levels: 1,
    words: 256,
};

const NARROW: Limits = Limits {
    words: 255,
    ..AMPLE
};

/// No frame fits.
const NONE: Limits = Limits { levels: 0, ..AMPLE };

/// Nor may there be another thread.
const FULL: Limits = Limits { threads: 2, ..NONE };

/// An instruction, the native on which it lands, the limits, the object of thread 1, the thread that steps, the object in v2, and the answer.
type Row = (&'static str, Option<Native>, Limits, u32, u32, u32, Next);

const ENTER: &str = "monitor-enter v2";

const EXIT: &str = "monitor-exit v2";

const WAIT: &str = "invoke-virtual {v2}, Ljava/lang/Object;->wait()V";

const NOTIFY: &str = "invoke-virtual {v2}, Ljava/lang/Object;->notify()V";

const ALL: &str = "invoke-virtual {v2}, Ljava/lang/Object;->notifyAll()V";

const START: &str = "invoke-virtual {v2}, Ljava/lang/Thread;->start()V";

const JOIN: &str = "invoke-virtual {v2}, Ljava/lang/Thread;->join()V";

const CURRENT: &str = "invoke-static {}, Ljava/lang/Thread;->currentThread()Ljava/lang/Thread;";

const LENGTH: &str = "invoke-virtual {v2}, Ljava/lang/String;->length()I";

const RUN: &str = "invoke-virtual {v2}, Ljava/lang/Thread;->run()V";

const BEGIN: Option<Native> = Some(Native::Start);

const ILLEGAL: Next = Next::Throw(Named::IllegalMonitorState);

const AGAIN: Next = Next::Throw(Named::IllegalThreadState);

const MANY: Next = Next::Throw(Named::OutOfMemory);

const ABSTRACT: Next = Next::Throw(Named::AbstractMethod);

const ON: Next = Next::On;

/// There is no thread 2.
const ABSENT: &[Row] = &[
    (ENTER, None, AMPLE, SECOND, 2, TEXT, ON),
    (EXIT, None, AMPLE, SECOND, 2, LOCK, ON),
    (WAIT, Some(Native::Wait), AMPLE, SECOND, 2, LOCK, ON),
    (START, BEGIN, AMPLE, SECOND, 2, WORKER, ON),
    (JOIN, Some(Native::Join), AMPLE, SECOND, 2, WORKER, ON),
    (
        CURRENT,
        Some(Native::CurrentThread),
        AMPLE,
        SECOND,
        2,
        WORKER,
        ON,
    ),
];

/// The invoke tells of null before it lands on a native, where nobody owns null's monitor.
const ON_NULL: &[Row] = &[
    (WAIT, Some(Native::Wait), AMPLE, SECOND, 0, NULL, ILLEGAL),
    (
        NOTIFY,
        Some(Native::Notify),
        AMPLE,
        SECOND,
        0,
        NULL,
        ILLEGAL,
    ),
    (
        ALL,
        Some(Native::NotifyAll),
        AMPLE,
        SECOND,
        0,
        NULL,
        ILLEGAL,
    ),
];

/// Each two of these: the object has a thread, there are as many as may be, its run is abstract, and there is no room. The earlier one is told.
const STARTS: &[Row] = &[
    (START, BEGIN, AMPLE, SECOND, 0, LOCK, ABSTRACT),
    (START, BEGIN, NARROW, SECOND, 1, WIDE, Next::NoRoom),
    (START, BEGIN, NONE, SECOND, 0, SECOND, AGAIN),
    (START, BEGIN, NONE, SECOND, 0, HOLLOW, ABSTRACT),
    (START, BEGIN, NONE, SECOND, 0, WORKER, Next::NoRoom),
    (START, BEGIN, FULL, SECOND, 0, WORKER, MANY),
    (START, BEGIN, AMPLE, HOLLOW, 0, HOLLOW, AGAIN),
];

/// A native of texts, and instructions that are neither on monitors nor calls of natives.
const OTHERS: &[Row] = &[
    (LENGTH, Some(Native::Length), AMPLE, SECOND, 1, TEXT, ON),
    (RUN, None, AMPLE, SECOND, 0, WORKER, ON),
    ("const/4 v2, 1", None, AMPLE, SECOND, 1, LOCK, ON),
];

fn add_rows(alloc: Global, text: &mut String, rows: &[Row]) -> Result<(), AllocError> {
    text.push_str(CLASSES)?;
    for (n, row) in rows.iter().enumerate() {
        add_method(alloc, text, n, 4, row.0)?;
    }
    Ok(())
}

/// The classes, with the rows as the last methods.
fn program<R: Abort>(rt: &R, alloc: Global, rows: &[Row]) -> String {
    let mut text = String::new(alloc);
    assert!(rt; add_rows(alloc, &mut text, rows).is_ok());
    text
}

/// A frame at the row's instruction, with the object in its register v2 and a result from a call before.
fn stack_of<R: Abort>(rt: &R, alloc: Global, method: MethodId, mark: u32, object: u32) -> Stack {
    let mut stack = Stack::new(alloc, 2, 8).ok().expect(rt, "memory");
    assert!(rt; stack.push(method, 4, &[mark, 0, object, mark]).is_ok());
    stack.give(Kept::One(mark));
    stack
}

fn stacks_of<R: Abort>(rt: &R, alloc: Global, method: MethodId, object: u32) -> Vec<Stack> {
    let one = stack_of(rt, alloc, method, 70, object);
    let other = stack_of(rt, alloc, method, 80, object);
    vec![in alloc; one, other].ok().expect(rt, "memory")
}

fn monitors_of<R: Abort>(rt: &R, alloc: Global) -> Monitors {
    let mut monitors = Monitors::new(alloc);
    assert!(rt; monitors.owner(LOCK).is_none());
    assert!(rt; monitors.count(LOCK) < u64::MAX);
    assert!(rt; monitors.enter(LOCK, 0).is_ok());
    monitors
}

/// The threads before a step.
fn threads_of<R: Abort>(rt: &R, alloc: Global, method: MethodId, row: &Row) -> Threads {
    Threads {
        ends: Vec::from_slice(alloc, &[End::Living, End::Living])
            .ok()
            .expect(rt, "memory"),
        objects: Vec::from_slice(alloc, &[FIRST, row.3])
            .ok()
            .expect(rt, "memory"),
        monitors: monitors_of(rt, alloc),
        stacks: stacks_of(rt, alloc, method, row.5),
    }
}

/// Whether monitors are owned as before, and no thread waits.
fn are_same_monitors(one: &Monitors, other: &Monitors) -> bool {
    for object in 0..8 {
        let owner = (one.owner(object), one.count(object));
        if owner != (other.owner(object), other.count(object)) {
            return false;
        }
    }
    for thread in 0..3 {
        if one.wait_of(thread).is_some() {
            return false;
        }
    }
    true
}

/// Whether there are two stacks, and the same two.
fn are_same_stacks(one: &[Stack], other: &[Stack]) -> bool {
    match (one, other) {
        ([a, b], [c, d]) => same_stacks(a, c) && same_stacks(b, d),
        _ => false,
    }
}

fn are_same(one: &Threads, other: &Threads) -> bool {
    are_same_stacks(one.stacks.as_slice(), other.stacks.as_slice())
        && are_same_monitors(&one.monitors, &other.monitors)
        && one.ends.as_slice() == other.ends.as_slice()
        && one.objects.as_slice() == other.objects.as_slice()
}

/// What is answered.
fn step(image: &Image, heap: &Heap, threads: &mut Threads, row: &Row) -> Option<Next> {
    let (_, native, limits, _, thread, _, _) = row;
    let insn = insn_at(image, threads.stacks.first()?)?;
    thread_step(image, heap, limits, threads, *thread, *native, &insn).ok()
}

fn assert_step<R: Abort>(
    rt: &R,
    image: &Image,
    heap: &Heap,
    before: &Threads,
    threads: &mut Threads,
    row: &Row,
) {
    let answer = step(image, heap, threads, row);
    assert_eq!(rt; answer, Some(row.6), "{} {}", row.0, row.5);
    assert!(rt; are_same(threads, before), "{} {}", row.0, row.5);
}

fn assert_row<R: Abort>(
    rt: &R,
    alloc: Global,
    image: &Image,
    heap: &Heap,
    method: MethodId,
    row: &Row,
) {
    let before = threads_of(rt, alloc, method, row);
    let mut threads = threads_of(rt, alloc, method, row);
    assert_step(rt, image, heap, &before, &mut threads, row);
    drop(threads);
    drop(before);
}

fn assert_each<R: Abort>(rt: &R, alloc: Global, image: &Image, heap: &Heap, rows: &[Row]) {
    for (n, row) in rows.iter().enumerate() {
        let method = method_among(rt, image, rows.len(), n);
        assert_row(rt, alloc, image, heap, method, row);
    }
}

fn assert_rows<R: Abort>(rt: &R, alloc: Global, rows: &[Row]) {
    let text = program(rt, alloc, rows);
    let image = linked(rt, alloc, &text);
    drop(text);
    let heap = heap_of(rt, alloc, &image, OBJECTS, 0);
    assert_each(rt, alloc, &image, &heap, rows);
    drop(heap);
    drop(image);
}

#[test]
fn threads_that_are_not_there_do_nothing(rt: HostRuntime) {
    assert_rows(&rt, rt.alloc(), ABSENT);
}

#[test]
fn natives_on_null_are_illegal(rt: HostRuntime) {
    assert_rows(&rt, rt.alloc(), ON_NULL);
}

#[test]
fn starts_are_refused_in_an_order(rt: HostRuntime) {
    assert_rows(&rt, rt.alloc(), STARTS);
}

#[test]
fn other_instructions_are_left_alone(rt: HostRuntime) {
    assert_rows(&rt, rt.alloc(), OTHERS);
}

// Records of classes under an exception in flight, one step each, above frames that no program has there (JLS 12.4.2).
use crate::fixtures::{
    Made, class_named, linked, method_named, name_of, same_but, same_heaps, same_stacks,
};
use crate::unwinding::{Stage, same_states, stage_of, step};
use Level::{Frame, Record};
use Next::{NoWords, ThrowRef};
use dv_clinit::{ClassStates, State};
use dv_defs::{Ask, ClassId, Image, Next};
use dv_frames::Stack;
use dv_heap::Heap;
use dv_words::Kind;
use std::alloc::Global;
use std::process::Abort;

/// X and Y, which is under X, have initialisers. Main's method has a catch-all before another handler.
pub const CLASSES: &str = "
    .class LMid;
    .super Ljava/lang/RuntimeException;
    .field extra:J
    .class LFault;
    .super Ljava/lang/LinkageError;
    .class LX;
    .super Ljava/lang/Object;
    .method static constructor <clinit>()V
    .registers 0
    return-void
    .end method
    .method static run()V
    .registers 2
    return-void
    .end method
    .class LY;
    .super LX;
    .method static constructor <clinit>()V
    .registers 0
    return-void
    .end method
    .method static run()V
    .registers 2
    return-void
    .end method
    .class LMain;
    .super Ljava/lang/Object;
    .method static run()V
    .registers 2
    :a
    invoke-static {}, LX;->run()V
    :b
    return-void
    :all
    nop
    :mid
    return-void
    .catchall {:a .. :b} :all
    .catch LMid; {:a .. :b} :mid
    .end method
";

/// The objects, by their numbers from 1 on.
pub const OBJECTS: &[Made] = &[
    Made::Of("LMid;"),
    Made::Of("LFault;"),
    Made::Of("Ljava/lang/Exception;"),
];

pub const MID: u32 = 1;

pub const FAULT: u32 = 2;

const EXCEPTION: u32 = 3;

/// The number of a new object.
const NEW: u32 = 4;

/// A frame's registers.
const WORDS: &[u32] = &[11, 12];

/// A level: the frame of a method of a class; or the record of a class, and whether the initialiser was called.
#[derive(Clone, Copy)]
enum Level {
    Frame(&'static str),
    Record(&'static str, bool),
}

/// X's record.
const RECORD: Level = Record("LX;", true);

/// The levels of an opening.
const OPENING: &[Level] = &[Frame("LX;"), RECORD];

const CALLED: &[Level] = &[Frame("LX;"), Frame("LX;"), RECORD];

/// A method of another class, though one under X.
const OTHER: &[Level] = &[Frame("LY;"), RECORD];

/// A thread, its levels, how many of them are left, the object in flight, how many words the heap has left, and the answer.
type Ending = (u32, &'static [Level], usize, u32, u32, Next);

/// The first frame goes with its record in thread 0 alone, where it is the only one and of the record's class; also where words are lacking.
const ENDINGS: &[Ending] = &[
    (0, OPENING, 0, FAULT, 0, ThrowRef(FAULT)),
    (1, OPENING, 1, FAULT, 0, ThrowRef(FAULT)),
    (0, CALLED, 2, FAULT, 0, ThrowRef(FAULT)),
    (0, OTHER, 1, FAULT, 0, ThrowRef(FAULT)),
    (1, OPENING, 1, EXCEPTION, 4, ThrowRef(NEW)),
    (0, CALLED, 2, MID, 5, ThrowRef(NEW)),
    (1, CALLED, 2, MID, 3, NoWords),
    (0, OPENING, 0, MID, 0, NoWords),
];

fn class_of<R: Abort>(rt: &R, image: &Image, name: &str) -> ClassId {
    class_named(image, name).expect(rt, "a class")
}

fn add_frame<R: Abort>(rt: &R, image: &Image, stack: &mut Stack, name: &str) {
    let method = method_named(image, name, "run").expect(rt, "a method");
    assert!(rt; stack.push(method, 2, WORDS).is_ok());
}

fn add_record<R: Abort>(rt: &R, stack: &mut Stack, class: ClassId, running: bool) {
    assert!(rt; stack.push_record(class).is_ok());
    if running {
        stack.start_record();
    }
}

/// The thread is at a class from now on.
fn begin<R: Abort>(rt: &R, states: &mut ClassStates, class: ClassId, thread: u32) {
    assert!(rt; states.ask(class, thread) == Ask::Begin);
    states.begin(class, thread);
}

/// Adds a level. The thread is at the class of a record.
fn add_level<R: Abort>(rt: &R, image: &Image, stage: &mut Stage, thread: u32, level: &Level) {
    match level {
        Level::Frame(name) => add_frame(rt, image, &mut stage.stack, name),
        Level::Record(name, running) => {
            let class = class_of(rt, image, name);
            add_record(rt, &mut stage.stack, class, *running);
            begin(rt, &mut stage.states, class, thread);
        }
    }
}

fn add_levels<R: Abort>(rt: &R, image: &Image, stage: &mut Stage, thread: u32, levels: &[Level]) {
    for level in levels {
        add_level(rt, image, stage, thread, level);
    }
}

/// A thread with these levels.
fn stage_with<R: Abort>(
    rt: &R,
    alloc: Global,
    image: &Image,
    thread: u32,
    levels: &[Level],
    room: u32,
) -> Stage {
    let mut stage = stage_of(rt, alloc, image, room);
    add_levels(rt, image, &mut stage, thread, levels);
    stage
}

fn is_of(image: &Image, kind: &Kind, name: &str) -> bool {
    match kind {
        Kind::Object(class) => name_of(image, *class) == Some(name),
        _ => false,
    }
}

/// Whether an object is an error of an initialiser, with no message and with this cause.
fn is_wrapped(image: &Image, heap: &Heap, object: u32, cause: u32) -> bool {
    let name = "Ljava/lang/ExceptionInInitializerError;";
    heap.exists(object)
        && is_of(image, heap.kind(object), name)
        && heap.words(object) == [0, cause].as_slice()
}

/// Whether the heap has nothing new but what flies on, an error with this cause.
fn is_heap_left(image: &Image, stage: &Stage, before: &Stage, cause: u32, answer: Next) -> bool {
    if answer != Next::ThrowRef(NEW) {
        return same_heaps(&stage.heap, &before.heap);
    }
    is_wrapped(image, &stage.heap, NEW, cause)
        && same_but(&stage.heap, &before.heap, NEW)
        && stage.heap.used() == 4
}

/// Whether X is erroneous, and the other classes are in their states.
fn are_states_left(image: &Image, stage: &Stage, before: &Stage, x: ClassId) -> bool {
    stage.states.state(x) == State::Erroneous
        && same_states(image, &stage.states, &before.states, x.0)
}

fn assert_step<R: Abort>(
    rt: &R,
    image: &Image,
    n: usize,
    row: &Ending,
    before: &Stage,
    stage: &mut Stage,
) {
    let (thread, _, _, flying, _, answer) = row;
    let seen = step(image, stage, *thread, *flying);
    assert_eq!(rt; seen, Some(*answer), "{n}");
    assert!(rt; is_heap_left(image, stage, before, *flying, *answer), "{n}");
    let x = class_of(rt, image, "LX;");
    assert!(rt; are_states_left(image, stage, before, x), "{n}");
}

/// The levels that are left are the first ones.
fn assert_levels<R: Abort>(
    rt: &R,
    alloc: Global,
    image: &Image,
    n: usize,
    row: &Ending,
    stack: &Stack,
) {
    let (thread, levels, left, _, _, _) = row;
    let levels = levels.get(..*left).expect(rt, "levels");
    let wanted = stage_with(rt, alloc, image, *thread, levels, 0);
    assert!(rt; same_stacks(stack, &wanted.stack), "{n}");
    drop(wanted);
}

fn assert_row<R: Abort>(rt: &R, alloc: Global, image: &Image, n: usize, row: &Ending) {
    let (thread, levels, _, _, room, _) = row;
    let before = stage_with(rt, alloc, image, *thread, levels, *room);
    let mut stage = stage_with(rt, alloc, image, *thread, levels, *room);
    assert_step(rt, image, n, row, &before, &mut stage);
    drop(before);
    assert_levels(rt, alloc, image, n, row, &stage.stack);
    drop(stage);
}

fn assert_rows<R: Abort>(rt: &R, alloc: Global, image: &Image, rows: &[Ending]) {
    for (n, row) in rows.iter().enumerate() {
        assert_row(rt, alloc, image, n, row);
    }
}

#[test]
fn the_first_frame_goes_with_the_record_of_an_opening(rt: HostRuntime) {
    let image = linked(&rt, rt.alloc(), CLASSES);
    assert_rows(&rt, rt.alloc(), &image, ENDINGS);
    drop(image);
}

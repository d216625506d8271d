// Natives of texts whose bytes don't fit the output, to the last byte, and natives that aren't of texts: nothing is changed.
use crate::fixtures::{
    Made, add_method, heap_of, insn_at, linked, method_among, same_heaps, same_stacks,
};
use Next::{NoOutput, On};
use dv_builtin::builtin_step;
use dv_defs::{Image, MethodId, Native, Next};
use dv_frames::Stack;
use dv_heap::Heap;
use dv_words::Kept;
use std::alloc::{AllocError, Global};
use std::process::Abort;

/// The objects: three letters, the two surrogates of one character and the second one alone, characters of two and of three bytes, an object.
const OBJECTS: &[Made] = &[
    Made::Text(&[97, 98, 99]),
    Made::Text(&[0xd83d, 0xde00]),
    Made::Text(&[0xde00]),
    Made::Text(&[0xe9, 0x20ac]),
    Made::Of("Ljava/lang/Object;"),
];

const PRINT: &str = "invoke-static {v0}, Ldvm/Console;->print(Ljava/lang/String;)V";

const PRINTLN: &str = "invoke-static {v0}, Ldvm/Console;->println(I)V";

/// A native, the instruction that calls it, the register v0, how many bytes may be printed yet, and the answer.
type Row = (Native, &'static str, u32, u32, Next);

const ROWS: &[Row] = &[
    (Native::Print, PRINT, 1, 2, NoOutput),
    (Native::Print, PRINT, 2, 3, NoOutput),
    (Native::Print, PRINT, 3, 0, NoOutput),
    (Native::Print, PRINT, 4, 4, NoOutput),
    (Native::Println, PRINTLN, 0, 1, NoOutput),
    (Native::Println, PRINTLN, 0x8000_0000, 11, NoOutput),
    (
        Native::CurrentThread,
        "invoke-static {}, Ljava/lang/Thread;->currentThread()Ljava/lang/Thread;",
        7,
        9,
        On,
    ),
    (
        Native::Wait,
        "invoke-virtual {v0}, Ljava/lang/Object;->wait()V",
        5,
        9,
        On,
    ),
];

/// What was printed before a step.
const BEFORE: &[u8] = b"ab";

/// What a step may change.
#[derive(Drop)]
struct Stage {
    heap: Heap,
    stack: Stack,
    output: Vec<u8>,
}

/// A frame at the call, which has a result from a call before.
fn stack_of<R: Abort>(rt: &R, alloc: Global, method: MethodId, word: u32) -> Stack {
    let mut stack = Stack::new(alloc, 1, 4).ok().expect(rt, "memory");
    assert!(rt; stack.push(method, 4, &[word, 7, 7, 7]).is_ok());
    stack.give(Kept::One(99));
    stack
}

/// What stands before the step.
fn before_step<R: Abort>(
    rt: &R,
    alloc: Global,
    image: &Image,
    method: MethodId,
    word: u32,
) -> Stage {
    Stage {
        output: Vec::from_slice(alloc, BEFORE).ok().expect(rt, "memory"),
        stack: stack_of(rt, alloc, method, word),
        heap: heap_of(rt, alloc, image, OBJECTS, 9),
    }
}

fn is_same(one: &Stage, other: &Stage) -> bool {
    same_heaps(&one.heap, &other.heap)
        && same_stacks(&one.stack, &other.stack)
        && one.output.as_slice() == other.output.as_slice()
}

/// What is answered where so many bytes more may be printed.
fn step(image: &Image, stage: &mut Stage, room: u32, native: Native) -> Option<Next> {
    let insn = insn_at(image, &stage.stack)?;
    let limit = room.saturating_add(2);
    let answer = builtin_step(
        image,
        &mut stage.heap,
        &mut stage.stack,
        &mut stage.output,
        limit,
        native,
        &insn,
    );
    answer.ok()
}

fn assert_step<R: Abort>(rt: &R, image: &Image, before: &Stage, stage: &mut Stage, row: &Row) {
    let (native, insn, _, room, answer) = row;
    let answered = step(image, stage, *room, *native);
    assert_eq!(rt; answered, Some(*answer), "{insn} {room}");
    assert!(rt; is_same(stage, before), "{insn} {room}");
}

fn assert_row<R: Abort>(rt: &R, alloc: Global, image: &Image, method: MethodId, row: &Row) {
    let before = before_step(rt, alloc, image, method, row.2);
    let mut stage = before_step(rt, alloc, image, method, row.2);
    assert_step(rt, image, &before, &mut stage, row);
    drop(stage);
    drop(before);
}

fn assert_rows<R: Abort>(rt: &R, alloc: Global, image: &Image, rows: &[Row]) {
    for (n, row) in rows.iter().enumerate() {
        let method = method_among(rt, image, rows.len(), n);
        assert_row(rt, alloc, image, method, row);
    }
}

fn add_rows(alloc: Global, text: &mut String, rows: &[Row]) -> Result<(), AllocError> {
    text.push_str(".class LMain;\n.super Ljava/lang/Object;\n")?;
    for (n, row) in rows.iter().enumerate() {
        add_method(alloc, text, n, 4, row.1)?;
    }
    Ok(())
}

fn program<R: Abort>(rt: &R, alloc: Global, rows: &[Row]) -> String {
    let mut text = String::new(alloc);
    assert!(rt; add_rows(alloc, &mut text, rows).is_ok());
    text
}

#[test]
fn what_is_not_printed_changes_nothing(rt: HostRuntime) {
    let rows = ROWS;
    let text = program(&rt, rt.alloc(), rows);
    let image = linked(&rt, rt.alloc(), &text);
    drop(text);
    assert_rows(&rt, rt.alloc(), &image, rows);
    drop(image);
}

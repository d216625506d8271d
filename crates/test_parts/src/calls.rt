// Instructions that are no invokes, and an invoke without a register for its object: nothing is done.
use crate::fixtures::{add_method, heap_of, insn_at, linked, method_among, same_stacks};
use dv_call::call_step;
use dv_defs::{Image, MethodId, Next};
use dv_frames::Stack;
use dv_heap::Heap;
use dv_words::Kept;
use std::alloc::{AllocError, Global};
use std::process::Abort;

const ROWS: &[&str] = &[
    "invoke-virtual {}, LMain;->f()V",
    "const/4 v0, 1",
    "monitor-enter v0",
    "nop",
    "add-int v0, v1, v2",
    "move-result v0",
    "throw v0",
    "new-instance v0, LMain;",
    "iget-object v0, v1, Ljava/lang/Throwable;->cause:Ljava/lang/Throwable;",
];

fn add_rows(alloc: Global, text: &mut String, rows: &[&str]) -> Result<(), AllocError> {
    text.push_str(".class LMain;\n.super Ljava/lang/Object;\n")?;
    text.push_str(".method f()V\n.registers 1\nreturn-void\n.end method\n")?;
    for (n, body) in rows.iter().enumerate() {
        add_method(alloc, text, n, 6, body)?;
    }
    Ok(())
}

/// A class whose last methods have these bodies.
fn program<R: Abort>(rt: &R, alloc: Global, rows: &[&str]) -> String {
    let mut text = String::new(alloc);
    assert!(rt; add_rows(alloc, &mut text, rows).is_ok());
    text
}

/// A frame at the first address of a method. It has a result from a call before.
fn caller<R: Abort>(rt: &R, alloc: Global, method: MethodId) -> Stack {
    let mut stack = Stack::new(alloc, 2, 32).ok().expect(rt, "memory");
    assert!(rt; stack.push(method, 6, &[0, 8, 9, 0, 0, 0]).is_ok());
    stack.give(Kept::One(99));
    stack
}

fn assert_step<R: Abort>(
    rt: &R,
    image: &Image,
    heap: &Heap,
    before: &Stack,
    stack: &mut Stack,
    body: &str,
) {
    let insn = insn_at(image, stack).expect(rt, "an instruction");
    let answer = call_step(image, heap, stack, &insn);
    assert_eq!(rt; answer, Next::On, "{body}");
    assert!(rt; same_stacks(stack, before), "{body}");
}

fn assert_row<R: Abort>(
    rt: &R,
    alloc: Global,
    image: &Image,
    heap: &Heap,
    method: MethodId,
    body: &str,
) {
    let before = caller(rt, alloc, method);
    let mut stack = caller(rt, alloc, method);
    assert_step(rt, image, heap, &before, &mut stack, body);
    drop(stack);
    drop(before);
}

fn assert_rows<R: Abort>(rt: &R, alloc: Global, image: &Image, heap: &Heap, rows: &[&str]) {
    for (n, body) in rows.iter().enumerate() {
        let method = method_among(rt, image, rows.len(), n);
        assert_row(rt, alloc, image, heap, method, body);
    }
}

#[test]
fn other_instructions_are_no_calls(rt: HostRuntime) {
    let alloc = rt.alloc();
    let rows = ROWS;
    let text = program(&rt, alloc, rows);
    let image = linked(&rt, alloc, &text);
    drop(text);
    let heap = heap_of(&rt, alloc, &image, &[], 0);
    assert_rows(&rt, alloc, &image, &heap, rows);
    drop(heap);
    drop(image);
}

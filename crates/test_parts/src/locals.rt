// Local instructions by the frame: one step, and a slice of them.
use crate::fixtures::{add_method, linked, method_among};
use crate::local_rows::{LOCAL, OTHER, Row, SLICE, SLICES};
use dv_defs::{Image, Insn, MethodId, Seq};
use dv_local::{Slice, is_local, local_step, run_slice};
use dv_ops::{coded_at, units_of};
use dv_units::decode;
use dv_words::{Frame, Kept};
use std::alloc::{AllocError, Global};
use std::process::Abort;

fn add_rows(alloc: Global, text: &mut String, rows: &[Row]) -> Result<(), AllocError> {
    text.push_str(".class LMain;\n.super Ljava/lang/Object;\n")?;
    for (n, row) in rows.iter().enumerate() {
        add_method(alloc, text, n, 6, row.body)?;
    }
    Ok(())
}

/// A class whose methods have these bodies.
fn program<R: Abort>(rt: &R, alloc: Global, rows: &[Row]) -> String {
    let mut text = String::new(alloc);
    assert!(rt; add_rows(alloc, &mut text, rows).is_ok());
    text
}

/// A frame with six registers, at the first address of a method.
fn framed<R: Abort>(
    rt: &R,
    alloc: Global,
    method: MethodId,
    words: &[u32; 6],
    kept: Kept,
    caught: Option<u32>,
) -> Frame {
    let regs = Vec::from_slice(alloc, words).ok().expect(rt, "memory");
    Frame {
        method,
        at: 0,
        regs: Seq::of(regs),
        result: kept,
        caught,
    }
}

/// The instruction at the first address of a method.
fn first_insn(image: &Image, method: MethodId) -> Option<Insn> {
    let code = coded_at(image, method)?;
    let units = units_of(&code);
    if units.is_empty() {
        return None;
    }
    let (insn, _) = decode(units, 0).ok()?;
    Some(insn)
}

/// The frame of a row before its step.
fn before<R: Abort>(rt: &R, alloc: Global, method: MethodId, row: &Row) -> Frame {
    framed(rt, alloc, method, &row.before, row.result, row.caught)
}

/// The frame after a local step: nothing is kept for it, and nothing is caught.
fn after<R: Abort>(rt: &R, alloc: Global, method: MethodId, row: &Row) -> Frame {
    let mut frame = framed(rt, alloc, method, &row.after, Kept::None, None);
    frame.at = row.at;
    frame
}

/// What a step makes of a frame, and whether the instruction is local.
fn assert_step<R: Abort>(
    rt: &R,
    image: &Image,
    frame: &mut Frame,
    wanted: &Frame,
    body: &str,
    local: bool,
) {
    let method = frame.method;
    assert!(rt; local_step(image, frame) == local, "{body}");
    assert!(rt; *frame == *wanted, "{body}");
    let insn = first_insn(image, method).expect(rt, "an instruction");
    assert!(rt; is_local(&insn) == local, "{body}");
}

fn assert_row<R: Abort>(rt: &R, alloc: Global, image: &Image, method: MethodId, row: &Row) {
    let wanted = after(rt, alloc, method, row);
    let mut frame = before(rt, alloc, method, row);
    assert_step(rt, image, &mut frame, &wanted, row.body, true);
    drop(frame);
    drop(wanted);
}

/// An instruction that isn't local leaves the frame as it is.
fn assert_other<R: Abort>(rt: &R, alloc: Global, image: &Image, method: MethodId, row: &Row) {
    let wanted = before(rt, alloc, method, row);
    let mut frame = before(rt, alloc, method, row);
    assert_step(rt, image, &mut frame, &wanted, row.body, false);
    drop(frame);
    drop(wanted);
}

fn linked_rows<R: Abort>(rt: &R, alloc: Global, rows: &[Row]) -> Image {
    let text = program(rt, alloc, rows);
    let image = linked(rt, alloc, &text);
    drop(text);
    image
}

fn assert_rows<R: Abort>(rt: &R, alloc: Global, image: &Image, rows: &[Row]) {
    for (n, row) in rows.iter().enumerate() {
        let method = method_among(rt, image, rows.len(), n);
        assert_row(rt, alloc, image, method, row);
    }
}

#[test]
fn local_instructions_touch_their_frame_alone(rt: HostRuntime) {
    let rows = LOCAL;
    let image = linked_rows(&rt, rt.alloc(), rows);
    assert_rows(&rt, rt.alloc(), &image, rows);
    drop(image);
}

fn assert_others<R: Abort>(rt: &R, alloc: Global, image: &Image, rows: &[Row]) {
    for (n, row) in rows.iter().enumerate() {
        let method = method_among(rt, image, rows.len(), n);
        assert_other(rt, alloc, image, method, row);
    }
}

#[test]
fn other_instructions_are_no_local_steps(rt: HostRuntime) {
    let rows = OTHER;
    let image = linked_rows(&rt, rt.alloc(), rows);
    assert_others(&rt, rt.alloc(), &image, rows);
    drop(image);
}

/// The frame before the first step of a slice.
fn start_of<R: Abort>(rt: &R, alloc: Global, method: MethodId) -> Frame {
    framed(rt, alloc, method, &SLICE.before, Kept::None, None)
}

/// A slice that has so many steps already, at the first address of a method.
fn sliced<R: Abort>(rt: &R, alloc: Global, method: MethodId, steps: u32) -> Slice {
    Slice {
        thread: 3,
        start: start_of(rt, alloc, method),
        steps,
        end: start_of(rt, alloc, method),
    }
}

/// A row of `SLICES`.
type Sliced = (u32, u32, u32, u32, u32);

fn assert_run<R: Abort>(rt: &R, image: &Image, slice: &mut Slice, start: &Frame, row: &Sliced) {
    let (before, most, done, register, at) = row;
    assert_eq!(rt; run_slice(image, slice, *most), *done, "{most}");
    assert_eq!(rt; slice.steps, before.wrapping_add(*done), "{most}");
    assert_eq!(rt; slice.end.regs.items().first(), Some(register), "{most}");
    assert_eq!(rt; slice.end.at, *at, "{most}");
    assert_eq!(rt; slice.thread, 3);
    assert!(rt; slice.start == *start, "{most}");
}

fn assert_slice<R: Abort>(rt: &R, alloc: Global, image: &Image, method: MethodId, row: &Sliced) {
    let start = start_of(rt, alloc, method);
    let mut slice = sliced(rt, alloc, method, row.0);
    assert_run(rt, image, &mut slice, &start, row);
    drop(slice);
    drop(start);
}

fn assert_slices<R: Abort>(rt: &R, alloc: Global, image: &Image, rows: &[Sliced]) {
    let method = method_among(rt, image, 1, 0);
    for row in rows {
        assert_slice(rt, alloc, image, method, row);
    }
}

#[test]
fn a_slice_ends_where_the_next_instruction_is_not_local(rt: HostRuntime) {
    let image = linked_rows(&rt, rt.alloc(), &[SLICE]);
    assert_slices(&rt, rt.alloc(), &image, SLICES);
    drop(image);
}

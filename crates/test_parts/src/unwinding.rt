// An exception in flight, one step: without levels, and at a catch-all behind which another handler stands, which the verifier refuses (S18).
use crate::fixtures::{heap_of, linked, method_named, same_heaps, same_stacks};
use crate::records::{CLASSES, FAULT, MID, OBJECTS};
use dv_clinit::ClassStates;
use dv_defs::{ClassId, Image, Next};
use dv_frames::{Head, Stack};
use dv_heap::Heap;
use dv_throw::unwind_step;
use dv_words::Kept;
use std::alloc::{AllocError, Global};
use std::process::Abort;

/// What a step may change.
#[derive(Drop)]
pub struct Stage {
    pub heap: Heap,
    pub stack: Stack,
    pub states: ClassStates,
}

/// No levels, and a heap with so much room.
pub fn stage_of<R: Abort>(rt: &R, alloc: Global, image: &Image, room: u32) -> Stage {
    Stage {
        heap: heap_of(rt, alloc, image, OBJECTS, room),
        stack: Stack::new(alloc, 4, 16).ok().expect(rt, "memory"),
        states: ClassStates::new(alloc, image).ok().expect(rt, "memory"),
    }
}

/// Whether all classes but one are in the same state.
pub fn same_states(image: &Image, one: &ClassStates, other: &ClassStates, but: u32) -> bool {
    for (class, _) in (0..).zip(image.classes.items()) {
        if class != but && one.state(ClassId(class)) != other.state(ClassId(class)) {
            return false;
        }
    }
    true
}

fn is_same(image: &Image, one: &Stage, other: &Stage) -> bool {
    same_heaps(&one.heap, &other.heap)
        && same_stacks(&one.stack, &other.stack)
        && same_states(image, &one.states, &other.states, u32::MAX)
}

fn unwind(image: &Image, stage: &mut Stage, thread: u32, flying: u32) -> Result<Next, AllocError> {
    unwind_step(
        image,
        &mut stage.heap,
        &mut stage.stack,
        &mut stage.states,
        thread,
        flying,
    )
}

/// What is answered. Where memory is wanting all is as before, so that the same call comes to the same again.
pub fn step(image: &Image, stage: &mut Stage, thread: u32, flying: u32) -> Option<Next> {
    match unwind(image, stage, thread, flying) {
        Ok(next) => Some(next),
        Err(_) => unwind(image, stage, thread, flying).ok(),
    }
}

fn assert_caught<R: Abort>(rt: &R, image: &Image, stage: &mut Stage) {
    let method = method_named(image, "LMain;", "run").expect(rt, "a method");
    assert!(rt; stage.stack.push(method, 2, &[11, 12]).is_ok());
    stage.stack.give(Kept::One(99));
    assert_eq!(rt; step(image, stage, 1, MID), Some(Next::On));
    let head = Head {
        method,
        at: 4,
        result: Kept::None,
        caught: Some(MID),
    };
    assert_eq!(rt; stage.stack.head(), Some(head));
}

#[test]
fn a_catch_all_hides_what_stands_behind_it(rt: HostRuntime) {
    let image = linked(&rt, rt.alloc(), CLASSES);
    let mut stage = stage_of(&rt, rt.alloc(), &image, 0);
    assert_caught(&rt, &image, &mut stage);
    drop(stage);
    drop(image);
}

fn assert_flies_on<R: Abort>(rt: &R, image: &Image, before: &Stage, stage: &mut Stage) {
    for flying in [MID, FAULT] {
        let answer = step(image, stage, 0, flying);
        assert_eq!(rt; answer, Some(Next::ThrowRef(flying)));
    }
    assert!(rt; is_same(image, stage, before));
}

#[test]
fn an_exception_flies_on_without_levels(rt: HostRuntime) {
    let image = linked(&rt, rt.alloc(), CLASSES);
    let before = stage_of(&rt, rt.alloc(), &image, 0);
    let mut stage = stage_of(&rt, rt.alloc(), &image, 0);
    assert_flies_on(&rt, &image, &before, &mut stage);
    drop(stage);
    drop(before);
    drop(image);
}

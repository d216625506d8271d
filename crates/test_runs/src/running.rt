// Programs are linked behind the boot classes, verified, and run step by step.
use crate::run::{Hold, Run, Stands};
use crate::slices::run_in_slices;
use dv_core::{Step, Vm};
use dv_defs::{Blocked, End, Ending, Image};
use dv_load::read_program;
use dv_objects::class_of_object;
use dv_pverify::verify_one_by_one;
use dv_resolve::find_main;
use dv_rules::Verified;
use std::alloc::{AllocError, Global};
use std::process::Abort;
use std::str;

/// No run does more steps than these.
const MOST: u64 = 200_000;

/// The class LT; under Thread whose `run()V` has so many registers and this body.
fn thread_class(alloc: Global, registers: &str, body: &str) -> Result<String, AllocError> {
    format!(in alloc;
        ".class LT;\n.super Ljava/lang/Thread;\n.method constructor <init>()V\n.registers 1\ninvoke-direct {{p0}}, Ljava/lang/Thread;-><init>()V\nreturn-void\n.end method\n.method run()V\n.registers {registers}\n{body}\n.end method\n"
    )
}

/// The text of a program.
fn text_of(alloc: Global, run: &Run) -> Result<String, AllocError> {
    let thread = match run.thread {
        Some((registers, body)) => thread_class(alloc, registers, body)?,
        None => String::new(alloc),
    };
    let text = format!(in alloc;
        "{}\n{thread}.class LMain;\n.super Ljava/lang/Object;\n{}\n.method static main()V\n.registers {}\n{}\n.end method\n",
        run.classes, run.members, run.registers, run.body
    );
    drop(thread);
    text
}

/// A text, read, linked and verified.
fn verified<R: Abort>(rt: &R, alloc: Global, text: &str) -> Verified {
    assert!(rt; text.len() < 1_000_000, "{text}");
    let image = read_program(alloc, text.as_bytes());
    assert!(rt; image.is_ok(), "refused: {text}");
    let image = image.ok().expect(rt, "an image");
    let verified = verify_one_by_one(alloc, image);
    assert!(rt; verified.is_ok(), "not accepted: {text}");
    verified.ok().expect(rt, "an accepted program")
}

fn opened<R: Abort>(rt: &R, alloc: Global, image: &Image, run: &Run) -> Vm {
    let main = find_main(alloc, image, b"LMain;").ok().expect(rt, "a main");
    Vm::open(alloc, image, main, run.limits)
        .ok()
        .expect(rt, "memory")
}

/// The descriptor of the class at a place.
fn name_of(image: &Image, place: usize) -> Option<&str> {
    let info = image.classes.items().get(place)?;
    str::from_utf8(info.def.name.bytes()).ok()
}

/// The descriptor of an object's class.
fn class_name<'a>(image: &'a Image, vm: &Vm, object: u32) -> Option<&'a str> {
    name_of(image, class_of_object(image, &vm.guest.heap, object)?)
}

fn hold_of(image: &Image, blocked: Blocked) -> Option<Hold<'_>> {
    match blocked {
        Blocked::Monitor => Some(Hold::Monitor),
        Blocked::Wait => Some(Hold::Wait),
        Blocked::Class(class) => Some(Hold::Class(name_of(image, class.0 as usize)?)),
        Blocked::Join(thread) => Some(Hold::Join(thread)),
    }
}

fn living<'a>(image: &'a Image, vm: &Vm, thread: u32) -> Option<Stands<'a>> {
    match vm.blocked(image, thread) {
        Some(blocked) => Some(Stands::Held(hold_of(image, blocked)?)),
        None => Some(Stands::Runnable),
    }
}

/// How a thread stands.
fn stands<'a>(image: &'a Image, vm: &Vm, thread: u32) -> Option<Stands<'a>> {
    match *vm.guest.threads.ends.get(thread as usize)? {
        End::Living => living(image, vm, thread),
        End::Flying(object) => Some(Stands::Flying(class_name(image, vm, object)?)),
        End::Returned => Some(Stands::Returned),
        End::Died(object) => Some(Stands::Died(class_name(image, vm, object)?)),
    }
}

/// The lowest runnable thread.
pub fn lowest(image: &Image, vm: &Vm) -> Option<u32> {
    for thread in 0..64 {
        if vm.runnable(image, thread) {
            return Some(thread);
        }
    }
    None
}

/// Stops the test where a fact doesn't hold, and tells it with the program.
pub fn check<R: Abort>(rt: &R, holds: bool, fact: &str, text: &str) {
    assert!(rt; holds, "{fact}: {text}");
}

/// A step of a runnable thread, which is counted.
pub fn step<R: Abort>(rt: &R, image: &Image, vm: &mut Vm, thread: u32, text: &str) {
    let before = vm.steps;
    check(rt, vm.ending(image).is_none(), "a run that goes on", text);
    check(rt, vm.runnable(image, thread), "a thread that runs", text);
    let is_done = matches!(vm.step(image, thread), Ok(Step::Done));
    check(rt, is_done, "a step that is done", text);
    let after = before.saturating_add(1);
    check(rt, vm.steps == after, "a step that is counted", text);
}

fn take_turns<R: Abort>(rt: &R, image: &Image, vm: &mut Vm, run: &Run, text: &str) {
    for (thread, steps) in run.turns {
        for _ in 0..*steps {
            step(rt, image, vm, *thread, text);
        }
    }
}

/// The lowest runnable thread steps, until the run ends.
fn run_on<R: Abort>(rt: &R, image: &Image, vm: &mut Vm, text: &str) {
    for _ in 0..MOST {
        if vm.ending(image).is_some() {
            return;
        }
        let thread = lowest(image, vm).expect(rt, "a runnable thread");
        step(rt, image, vm, thread, text);
    }
}

/// A thread stands so, and is told runnable and held up only where it is.
fn assert_thread<R: Abort>(rt: &R, image: &Image, vm: &Vm, thread: u32, wanted: Stands<'_>) {
    let found = stands(image, vm, thread);
    assert_eq!(rt; found, Some(wanted));
    let runs = matches!(wanted, Stands::Runnable | Stands::Flying(_));
    assert!(rt; vm.runnable(image, thread) == runs);
    let is_held = matches!(wanted, Stands::Held(_));
    assert!(rt; vm.blocked(image, thread).is_some() == is_held);
}

fn assert_threads<R: Abort>(rt: &R, image: &Image, vm: &Vm, run: &Run, text: &str) {
    let count = vm.guest.threads.ends.len();
    check(rt, count == run.threads.len(), "so many threads", text);
    for (thread, wanted) in (0..64).zip(run.threads) {
        assert_thread(rt, image, vm, thread, *wanted);
    }
}

fn assert_ended<R: Abort>(rt: &R, image: &Image, vm: &Vm, run: &Run, text: &str) {
    let is_printed = vm.guest.output.as_slice() == run.output.as_bytes();
    check(rt, is_printed, "what is printed", text);
    let is_so = vm.ending(image) == Some(run.ending);
    check(rt, is_so, "how the run ends", text);
    assert_threads(rt, image, vm, run, text);
    if let Some(steps) = run.steps {
        check(rt, vm.steps == steps, "so many steps", text);
    }
}

/// A step of a thread that is held up or has ended tells so, and isn't counted.
fn assert_idle<R: Abort>(rt: &R, image: &Image, vm: &mut Vm, run: &Run) {
    let steps = vm.steps;
    for (thread, _) in (0..64).zip(run.threads) {
        assert!(rt; matches!(vm.step(image, thread), Ok(Step::Held)));
        assert_eq!(rt; vm.steps, steps);
    }
}

/// The image of a program.
pub fn image_of<R: Abort>(rt: &R, alloc: Global, run: &Run) -> Verified {
    let text = text_of(alloc, run).ok().expect(rt, "memory");
    let verified = verified(rt, alloc, &text);
    drop(text);
    verified
}

/// A run behind the turns that are taken first.
fn begun<R: Abort>(rt: &R, alloc: Global, image: &Image, run: &Run, text: &str) -> Vm {
    let mut vm = opened(rt, alloc, image, run);
    take_turns(rt, image, &mut vm, run, text);
    vm
}

/// Runs a program to its end step by step. Where its threads have ended or are held up, further steps change nothing.
fn assert_stepped<R: Abort>(rt: &R, alloc: Global, image: &Image, run: &Run, text: &str) {
    let mut vm = begun(rt, alloc, image, run, text);
    run_on(rt, image, &mut vm, text);
    assert_ended(rt, image, &vm, run, text);
    if run.ending == Ending::NoRunnable || run.ending == Ending::Done {
        assert_idle(rt, image, &mut vm, run);
        let after = Run {
            steps: None,
            ..*run
        };
        assert_ended(rt, image, &vm, &after, text);
    }
    drop(vm);
}

/// Runs a program to its end in slices.
fn assert_sliced<R: Abort>(rt: &R, alloc: Global, image: &Image, run: &Run, text: &str) {
    let mut vm = begun(rt, alloc, image, run, text);
    run_in_slices(rt, image, &mut vm, text);
    assert_ended(rt, image, &vm, run, text);
    drop(vm);
}

/// Runs the program of a text to its end, which is the one that is told, step by step and in slices.
fn assert_text<R: Abort>(rt: &R, alloc: Global, text: &str, run: &Run) {
    let verified = verified(rt, alloc, text);
    assert_stepped(rt, alloc, &verified.image, run, text);
    assert_sliced(rt, alloc, &verified.image, run, text);
    drop(verified);
}

/// Runs a program to its end, which is the one that is told.
fn assert_run<R: Abort>(rt: &R, alloc: Global, run: &Run) {
    let text = text_of(alloc, run).ok().expect(rt, "memory");
    assert_text(rt, alloc, &text, run);
    drop(text);
}

pub fn assert_runs<R: Abort>(rt: &R, alloc: Global, runs: &[Run]) {
    for run in runs {
        assert_run(rt, alloc, run);
    }
}

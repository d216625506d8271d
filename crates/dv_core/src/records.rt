// Records of classes that are being initialised (JLS 12.4.2).
ghost use Rattle.std.specs.Prelude.{◌≡◌, ◌∷◌, Bool, Ok, List, Some as Just, true, false};
ghost use Rattle.std.specs.declared.alloc.AllocError.{AllocError};
ghost use Rattle.dv_defs.specs.declared.machine.Ask.TheVariants as asks;
ghost use Rattle.dv_machine.specs.Classes.{InProgress, Ready, ask_of, state_at};
ghost use Rattle.dv_defs.specs.Prior.{prior_at};
ghost use Rattle.dv_ops.specs.Meaning.{method_of};
ghost use Rattle.dv_words.specs.State.{WordThread};
ghost use Rattle.dv_words.specs.Stacks.{below, with_levels};
ghost use Rattle.dv_words.specs.declared.state.Level.{Level as WordLevel};
ghost use Rattle.dv_words.specs.declared.state.Level.TheVariants as level;
ghost use Rattle.dv_words.specs.Answering.{Leads};
ghost use Rattle.dv_words.specs.Step as steps;
ghost use Rattle.dv_words.specs.Steps.{At};
ghost use Rattle.dv_core.specs.Fitting.{RecordFits};
ghost use Rattle.dv_core.specs.Guests.{IsSeen, Leaves, Stays};
ghost use Rattle.dv_core.specs.Recording.{AreKept, IsBeside, LeavesBoth};

use crate::guest::Guest;
use dv_call::registers_of;
use dv_clinit::{ClassStates, State, initialiser, prior_to};
use dv_defs::{Ask, ClassId, Image, Named, Next};
use dv_frames::Stack;
use dv_ops::Method;

/// Begins to initialise a class: its record is pushed, and the class is in progress by this thread. `NoRoom` where the stack is full; where
/// the class isn't to be begun, nothing is done.
pub fn begin(guest: &mut Guest, thread: u32, class: ClassId) -> Next
    ensures { (own : WordThread) (h : At) → IsSeen h.image h.limits guest.old thread own h → ask_of h.shared.classes class.0 thread ≡ asks.Begin →
        Leads {E = AllocError} (Ok result) (steps.begun h class.0 own.levels) (Leaves guest.old guest.new own h) (Stays h.limits guest.old guest.new) }
{
    let place = thread as usize;
    if place >= guest.threads.stacks.len() {
        return Next::On;
    }
    push_record(
        &mut guest.threads.stacks[place],
        &mut guest.classes,
        thread,
        class,
    )
}

/// A step of a thread whose top level is the record of a class: what is initialised before the class is asked for first, in order, then the
/// class's initialiser begins; once it has returned, the class is ready.
pub fn step_record(
    image: &Image,
    guest: &mut Guest,
    thread: u32,
    class: ClassId,
    running: bool,
) -> Next
    ensures { (own : WordThread) (h : At) → IsSeen image.now h.limits guest.old thread own h → own.levels ≡ level.Init class running ∷ h.rest → RecordFits h class →
        Leads {E = AllocError} (Ok result) (steps.record_step h class.0 running) (Leaves guest.old guest.new own h) (Stays h.limits guest.old guest.new) }
{
    let place = thread as usize;
    if place >= guest.threads.stacks.len() {
        return Next::On;
    }
    go_on(
        image,
        &mut guest.threads.stacks[place],
        &mut guest.classes,
        thread,
        class,
        running,
    )
}

/// The record of a class that is to be begun is pushed, and the class is in progress by this thread.
fn push_record(stack: &mut Stack, classes: &mut ClassStates, thread: u32, class: ClassId) -> Next
    ensures { (h : At) → IsBeside stack.old classes.old thread h → ask_of h.shared.classes class.0 thread ≡ asks.Begin →
        Leads {E = AllocError} (Ok result) (steps.begun h class.0 stack.old.levels) (LeavesBoth h classes.new stack.old stack.new) (AreKept stack.old stack.new classes.old classes.new) }
{
    if classes.ask(class, thread) != Ask::Begin {
        return Next::On;
    }
    if stack.push_record(class).is_err() {
        return Next::NoRoom;
    }
    classes.begin(class, thread);
    Next::On
}

/// The record on top goes on.
fn go_on(
    image: &Image,
    stack: &mut Stack,
    classes: &mut ClassStates,
    thread: u32,
    class: ClassId,
    running: bool,
) -> Next
    ensures { (h : At) → IsBeside stack.old classes.old thread h → h.image ≡ image.now → stack.old.levels ≡ level.Init class running ∷ h.rest → state_at classes.old class.0 ≡ InProgress thread →
        Leads {E = AllocError} (Ok result) (steps.record_step h class.0 running) (LeavesBoth h classes.new stack.old stack.new) (AreKept stack.old stack.new classes.old classes.new) }
{
    if running {
        return finish(stack, classes, thread, class);
    }
    look_at(image, stack, classes, thread, class)
}

/// The first class that is initialised before this one and isn't ready is begun, waited for, or throws; where all are ready, the initialiser
/// begins.
fn look_at(
    image: &Image,
    stack: &mut Stack,
    classes: &mut ClassStates,
    thread: u32,
    class: ClassId,
) -> Next
    ensures { (h : At) → IsBeside stack.old classes.old thread h → h.image ≡ image.now → stack.old.levels ≡ level.Init class false ∷ h.rest → state_at classes.old class.0 ≡ InProgress thread →
        Leads {E = AllocError} (Ok result) (steps.look_at h class.0 (prior_at image.now class.0)) (LeavesBoth h classes.new stack.old stack.new) (AreKept stack.old stack.new classes.old classes.new) }
{
    for prior in prior_to(image, class.0 as usize) {
        match classes.ask(*prior, thread) {
            Ask::Go => {}
            Ask::Begin => return push_record(stack, classes, thread, *prior),
            Ask::Wait(_) => return Next::On,
            Ask::Bad => return Next::Throw(Named::NoClassDef),
        }
    }
    run_initialiser(image, stack, classes, thread, class)
}

/// The class is ready, and its record is dropped.
fn finish(stack: &mut Stack, classes: &mut ClassStates, thread: u32, class: ClassId) -> Next
    ensures { (h : At) → IsBeside stack.old classes.old thread h → below stack.old.levels ≡ h.rest → state_at classes.old class.0 ≡ InProgress thread →
        Leads {E = AllocError} (Ok result) (steps.ended_record h class.0 Ready) (LeavesBoth h classes.new stack.old stack.new) (AreKept stack.old stack.new classes.old classes.new) }
{
    if classes.state(class) != State::InProgress(thread) {
        return Next::On;
    }
    classes.finish(class, thread);
    stack.pop();
    Next::On
}

/// The class's initialiser begins; a class without one is ready.
fn run_initialiser(
    image: &Image,
    stack: &mut Stack,
    classes: &mut ClassStates,
    thread: u32,
    class: ClassId,
) -> Next
    ensures { (h : At) → IsBeside stack.old classes.old thread h → h.image ≡ image.now → stack.old.levels ≡ level.Init class false ∷ h.rest → state_at classes.old class.0 ≡ InProgress thread →
        Leads {E = AllocError} (Ok result) (steps.run_initialiser h class.0) (LeavesBoth h classes.new stack.old stack.new) (AreKept stack.old stack.new classes.old classes.new) }
{
    match initialiser(image, class) {
        None => finish(stack, classes, thread, class),
        Some(method) => start(stack, class, &method),
    }
}

/// The frame of an initialiser is pushed on the record of its class, which is running from then on.
fn start(stack: &mut Stack, class: ClassId, method: &Method<'_>) -> Next
    ensures { (h : At) → stack.old.most_levels ≡ h.limits.levels → stack.old.most_words ≡ h.limits.words → stack.old.levels ≡ level.Init class false ∷ h.rest →
        Leads {E = AllocError} (Ok result) (steps.initialised_by h class.0 (Just (method_of method.now))) (LeavesBoth h h.shared.classes stack.old stack.new) (stack.new ≡ stack.old) }
{
    stack.start_record();
    if stack.push(method.id, registers_of(method), &[]).is_ok() {
        return Next::On;
    }
    put_back(stack, class);
    Next::NoRoom
}

/// The record on top is of a class whose initialiser wasn't called yet.
fn put_back(stack: &mut Stack, class: ClassId)
    ensures { (running : Bool) (rest : List WordLevel) → stack.old.levels ≡ level.Init class running ∷ rest → stack.new ≡ with_levels stack.old (level.Init class false ∷ rest) }
{
    stack.pop();
    let _ = stack.push_record(class);
}

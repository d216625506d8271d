// What holds threads up, and which are runnable (JLS 12.4.2, 17.1, 17.2).
ghost use Rattle.std.specs.Prelude.{◌≡◌, ◌==◌, ◌<◌, ℕ, Option as Maybe, Some as Just, List, ◌∷◌, is_none, not, position, slice_get};
ghost use Rattle.dv_defs.specs.declared.run.Ending.{Ending};
ghost use Rattle.dv_defs.specs.declared.run.Limits.{Limits};
ghost use Rattle.dv_defs.specs.declared.run.Preallocated.{Preallocated};
ghost use Rattle.dv_defs.specs.declared.machine.End.TheVariants as end;
ghost use Rattle.dv_defs.specs.Families.{family_at};
ghost use Rattle.dv_machine.specs.Monitors as waits;
ghost use Rattle.dv_typing.specs.Statics.{fetch};
ghost use Rattle.dv_defs.specs.Images.{Image as Linked};
ghost use Rattle.dv_defs.specs.Op as ops;
ghost use Rattle.dv_defs.specs.Op.{Code, named_registers};
ghost use Rattle.dv_defs.specs.Parts.{Call as Called};
ghost use Rattle.dv_defs.specs.Pools.{method_at};
ghost use Rattle.dv_defs.specs.Prior.{prior_at};
ghost use Rattle.dv_machine.specs.Calls.{receiver_of};
ghost use Rattle.dv_machine.specs.Running as shared;
ghost use Rattle.dv_ops.specs.Meaning.{meant, method_of};
ghost use Rattle.dv_units.specs.Tables.{standard_call};
ghost use Rattle.dv_words.specs.declared.state.Frame.{Frame};
ghost use Rattle.dv_words.specs.declared.state.Level.{Level};
ghost use Rattle.dv_words.specs.declared.state.Level.TheVariants as level;
ghost use Rattle.dv_words.specs.Stacks.{arg_words};
ghost use Rattle.dv_words.specs.State.{WordThread};
ghost use Rattle.dv_words.specs.Running as steps;
ghost use Rattle.law_words.specs.StepLaws.{CallFits};
ghost use Rattle.dv_words.specs.Threads as threads;
ghost use Rattle.dv_threads.specs.Kept.{threads_of};
ghost use Rattle.dv_call.specs.Landings.{IsNumbered, Runs, called, first_of, landed_of};
ghost use Rattle.dv_core.specs.declared.guest.Guest.{Guest as Before};
ghost use Rattle.dv_core.specs.Machines.{machine_of, machine_with, thread_at};
ghost use Rattle.dv_core.specs.Opcodes.{may_hold_up};
ghost use Rattle.dv_core.specs.Watching.{AreNumbered, AreWatchable, IsTopWatched, IsWatched, alive_in, blocked_landed as landed_blocked, AtEachCall, InEachMachine};

use crate::guest::Guest;
use crate::vm::Vm;
use dv_call::{Landed, land};
use dv_clinit::{ClassStates, prior_to};
use dv_defs::{Ask, Blocked, ClassId, End, Flag, Image, Native, Regs};
use dv_fetch::{instruction_of, needs, opcode_of};
use dv_frames::{Stack, Top};
use dv_monitor::Monitors;
use dv_ops::{Method, Op};
use dv_optable::Call;
use dv_threads::Threads;

/// What holds up a thread that is to begin with the initialiser of a class: the first of the classes before it that isn't ready, where another
/// thread initialises that.
fn blocked_record(
    image: &Image,
    classes: &ClassStates,
    thread: u32,
    class: ClassId,
) -> Option<Blocked>
    ensures { result ≡ shared.blocked_record classes.now thread (prior_at image.now class.0) }
{
    for prior in prior_to(image, class.0 as usize) {
        match classes.ask(*prior, thread) {
            Ask::Go => {}
            Ask::Wait(_) => return Some(Blocked::Class(*prior)),
            Ask::Begin | Ask::Bad => return None,
        }
    }
    None
}

/// Whether a thread is held up whose top level is the record of a class.
pub fn is_held_at(
    image: &Image,
    classes: &ClassStates,
    thread: u32,
    class: ClassId,
    running: bool,
) -> bool
    ensures { (g : Before) (s : ℕ) (e : Maybe Ending) (l : Limits) (p : Preallocated) (ls : List Level) → g.classes ≡ classes.now →
        is_none (steps.blocked_levels image.now (machine_with g s e l p) thread (level.Init class running ∷ ls)) ≡ not result }
{
    !running && blocked_record(image, classes, thread, class).is_some()
}

/// The monitor that a thread is to enter, where another one owns it.
fn blocked_enter(monitors: &Monitors, thread: u32, object: u32) -> Option<Blocked>
    ensures { result ≡ steps.blocked_enter monitors.now.monitors thread object }
{
    if object == 0 {
        return None;
    }
    blocked_owner(monitors.owner(object), thread)
}

/// A monitor that another thread owns.
fn blocked_owner(owner: Option<u32>, thread: u32) -> Option<Blocked>
    ensures { result ≡ shared.by_owner thread owner }
{
    if owner? == thread {
        None
    } else {
        Some(Blocked::Monitor)
    }
}

/// What a thread in wait waits for: to be notified, and then the monitor.
fn blocked_wait(monitors: &Monitors, thread: u32) -> Option<Blocked>
    ensures { result ≡ shared.blocked_wait monitors.now.monitors (waits.wait_of monitors.now.monitors thread) }
{
    let wait = monitors.wait_of(thread)?;
    if !wait.notified {
        return Some(Blocked::Wait);
    }
    match monitors.owner(wait.object) {
        Some(_) => Some(Blocked::Monitor),
        None => None,
    }
}

/// Whether a thread has neither returned nor died.
pub fn is_alive(end: End) -> bool
    ensures { result ≡ threads.is_alive end }
{
    matches!(end, End::Living | End::Flying(_))
}

/// The thread of a Thread object, if it has one.
fn thread_with(objects: &[u32], object: u32) -> Option<usize>
    ensures { result ≡ position (λ own. own == object) objects.now }
{
    objects.iter().position(|own| *own == object)
}

/// Whether a thread lives.
fn lives(ends: &[End], thread: usize) -> bool
    ensures { result ≡ alive_in (slice_get ends.now thread) }
{
    match ends.get(thread) {
        Some(end) => is_alive(*end),
        None => false,
    }
}

/// The thread of a Thread object, where it lives: it holds up a thread that joins it.
fn blocked_join(guest: &Guest, object: u32) -> Option<Blocked>
    ensures { AreNumbered guest.now → result ≡ steps.blocked_join (threads_of guest.now.threads) (threads.thread_with (threads_of guest.now.threads) object) }
{
    let place = thread_with(&guest.threads.objects, object)?;
    if !lives(&guest.threads.ends, place) {
        return None;
    }
    let Ok(other) = u32::try_from(place) else {
        return None;
    };
    Some(Blocked::Join(other))
}

/// What holds up a thread whose call on an object runs a native method.
fn blocked_native(guest: &Guest, thread: u32, object: u32, native: Native) -> Option<Blocked>
    ensures { (s : ℕ) (e : Maybe Ending) (l : Limits) (p : Preallocated) → AreNumbered guest.now → result ≡ steps.blocked_native (machine_with guest.now s e l p) thread object (Just native) }
{
    match native {
        Native::Wait => blocked_wait(&guest.threads.monitors, thread),
        Native::Join => blocked_join(guest, object),
        _ => None,
    }
}

/// What holds up a thread whose call on an object comes to this.
fn blocked_landed(guest: &Guest, thread: u32, object: u32, landed: Landed<'_>) -> Option<Blocked>
    ensures { (s : ℕ) (e : Maybe Ending) (l : Limits) (p : Preallocated) → AreNumbered guest.now → result ≡ landed_blocked (machine_with guest.now s e l p) thread object (landed_of landed.entry) }
{
    match landed {
        Landed::Native(native) => blocked_native(guest, thread, object, native),
        _ => None,
    }
}

/// The first word of those in the registers that an invoke names.
fn receiver(stack: &Stack, regs: &Regs) -> Option<u32>
    ensures { result ≡ first_of (arg_words stack.now regs.now) }
{
    if regs.count == 0 {
        return None;
    }
    Some(stack.word(u32::from(regs.first[0])))
}

/// What holds up a thread at an invoke. A static call lands on no native method that waits.
fn blocked_invoke(
    image: &Image,
    guest: &Guest,
    stack: &Stack,
    thread: u32,
    call: Call,
    regs: &Regs,
    method: Method<'_>,
) -> Option<Blocked>
    ensures { AtEachCall image.now guest.now stack.now (λ m h. IsNumbered image.now (method_of method.entry) →
        result ≡ steps.blocked_receiver image.now m thread h.own h.frame (standard_call call) (method_of method.entry)
        (receiver_of (ops.Invoke (standard_call call) (named_registers regs.now) (method_of method.entry)))) }
{
    if Flag::Static.is_in(method.def.flags) {
        return None;
    }
    let object = receiver(stack, regs)?;
    let landed = land(image, &guest.heap, stack, call, regs, method);
    blocked_landed(guest, thread, object, landed)
}

/// Whether a native method on which an invoke lands holds up the thread. A static call lands on none that waits.
pub fn is_held_by(
    guest: &Guest,
    stack: &Stack,
    thread: u32,
    regs: &Regs,
    method: Method<'_>,
    native: Native,
) -> bool
    ensures { (i : Linked) → AtEachCall i guest.now stack.now (λ m h. (c : Called) → called h c (method_of method.entry) (arg_words stack.now regs.now) ≡ Runs native →
        is_none (steps.blocked_op h.image m thread h.own h.frame (ops.Invoke c (named_registers regs.now) (method_of method.entry))) ≡ not result) }
{
    if Flag::Static.is_in(method.def.flags) {
        return false;
    }
    match receiver(stack, regs) {
        Some(object) => blocked_native(guest, thread, object, native).is_some(),
        None => false,
    }
}

/// What holds up a thread at an operation whose class is ready.
fn blocked_op(
    image: &Image,
    guest: &Guest,
    stack: &Stack,
    thread: u32,
    op: &Op<'_>,
) -> Option<Blocked>
    ensures { (code : Code) (at : ℕ) → AtEachCall image.now guest.now stack.now (λ m h. CallFits image.now (meant code at op.now) →
        result ≡ steps.blocked_op image.now m thread h.own h.frame (meant code at op.now)) }
{
    match op {
        Op::Enter(reg) => blocked_enter(
            &guest.threads.monitors,
            thread,
            stack.word(u32::from(*reg)),
        ),
        Op::Invoke(call, regs, method) => {
            blocked_invoke(image, guest, stack, thread, *call, regs, *method)
        }
        _ => None,
    }
}

/// What holds up a thread at an operation: the class that it needs is asked for first.
fn blocked_needing(
    image: &Image,
    guest: &Guest,
    stack: &Stack,
    thread: u32,
    op: &Op<'_>,
) -> Option<Blocked>
    ensures { (code : Code) (at : ℕ) → AtEachCall image.now guest.now stack.now (λ m h. CallFits image.now (meant code at op.now) →
        result ≡ steps.blocked_needing image.now m thread h.own h.frame (meant code at op.now) (ops.needs (meant code at op.now))) }
{
    let Some(class) = needs(op) else {
        return blocked_op(image, guest, stack, thread, op);
    };
    match guest.classes.ask(class, thread) {
        Ask::Go => blocked_op(image, guest, stack, thread, op),
        Ask::Wait(_) => Some(Blocked::Class(class)),
        _ => None,
    }
}

/// Whether an instruction with this opcode may hold up a thread: monitor-enter, new-instance, sget, sput and the invokes.
fn may_hold_up(opcode: u8) -> bool
    ensures { result ≡ may_hold_up (family_at opcode) }
{
    matches!(opcode, 0x1d | 0x22 | 0x60..=0x72 | 0x74..=0x78)
}

/// What holds up a thread whose top level is code.
fn blocked_code(image: &Image, guest: &Guest, stack: &Stack, thread: u32) -> Option<Blocked>
    ensures { (f : Frame) (ls : List Level) → InEachMachine guest.now (λ m. stack.now.levels ≡ level.Code f ∷ ls → IsWatched image.now f →
        result ≡ steps.blocked_at image.now m thread f (method_at image.now f.method.0) (fetch image.now f.method.0 f.at)) }
{
    if !may_hold_up(opcode_of(image, stack)?) {
        return None;
    }
    let here = instruction_of(image, stack)?;
    blocked_needing(image, guest, stack, thread, &here.op)
}

/// What holds up a living thread with this stack.
fn blocked_stack(image: &Image, guest: &Guest, stack: &Stack, thread: u32) -> Option<Blocked>
    ensures { InEachMachine guest.now (λ m. IsTopWatched image.now stack.now.levels → result ≡ steps.blocked_levels image.now m thread stack.now.levels) }
{
    match stack.top()? {
        Top::Code { .. } => blocked_code(image, guest, stack, thread),
        Top::Init { running: true, .. } => None,
        Top::Init { class, .. } => blocked_record(image, &guest.classes, thread, class),
    }
}

/// How a thread stands, none where there is no such thread.
pub fn end_at(ends: &[End], thread: u32) -> Option<End>
    ensures { result ≡ slice_get ends.now thread }
{
    ends.get(thread as usize).copied()
}

impl Vm {
    /// What holds a thread up; none where it may step, has an exception in flight or has ended, or where there is no such thread
    /// (JLS 12.4.2, 17.1, 17.2).
    pub fn blocked(&self, image: &Image, thread: u32) -> Option<Blocked>
        ensures { AreWatchable image.now self.now → result ≡ steps.blocked_of image.now (machine_of self.now) thread }
    {
        match end_at(&self.guest.threads.ends, thread)? {
            End::Living => self.blocked_living(image, thread),
            _ => None,
        }
    }

    /// What holds up a living thread.
    fn blocked_living(&self, image: &Image, thread: u32) -> Option<Blocked>
        ensures { (own : WordThread) → AreWatchable image.now self.now → thread_at self.now thread ≡ Just own → own.end ≡ end.Living →
            result ≡ steps.blocked_levels image.now (machine_of self.now) thread own.levels }
    {
        let stack = self.guest.threads.stacks.get(thread as usize)?;
        blocked_stack(image, &self.guest, stack, thread)
    }

    /// Whether a thread may step: it lives, and nothing holds it up. It takes constant time but for a walk over the threads where it joins one.
    pub fn runnable(&self, image: &Image, thread: u32) -> bool
        ensures { AreWatchable image.now self.now → result ≡ steps.runnable image.now (machine_of self.now) thread }
    {
        lives(&self.guest.threads.ends, thread as usize) && self.blocked(image, thread).is_none()
    }
}

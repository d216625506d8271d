// A step of a thread at an instruction.
ghost use Rattle.std.specs.Prelude.{◌≡◌, ◌∷◌, ◌<◌, ◌^◌, ◌-◌, Ok, Some, false, is_none, map, slice_get, true};
ghost use Rattle.std.specs.declared.alloc.AllocError.{AllocError};
ghost use Rattle.dv_defs.specs.Op as ops;
ghost use Rattle.dv_defs.specs.Op.{named_registers};
ghost use Rattle.dv_machine.specs.Classes.{ask_of};
ghost use Rattle.dv_defs.specs.Images.{Image as Linked};
ghost use Rattle.dv_defs.specs.declared.run.Limits.{Limits as Bounds};
ghost use Rattle.dv_machine.specs.Mem.{on_object};
ghost use Rattle.dv_machine.specs.Running.{by_ask};
ghost use Rattle.dv_monitor.specs.State.{count_of};
ghost use Rattle.dv_ops.specs.Meaning.{method_of};
ghost use Rattle.dv_units.specs.Tables.{standard_call};
ghost use Rattle.dv_words.specs.State.{WordStack};
ghost use Rattle.dv_words.specs.Stacks.{top_regs};
ghost use Rattle.dv_words.specs.Words.{word_at};
ghost use Rattle.dv_words.specs.declared.state.Level.TheVariants as level;
ghost use Rattle.dv_words.specs.Calls as calls;
ghost use Rattle.dv_words.specs.Local.{reg_word, word_local};
ghost use Rattle.dv_words.specs.Natives as natives;
ghost use Rattle.dv_words.specs.Running.{blocked_enter, blocked_op};
ghost use Rattle.dv_words.specs.Step as steps;
ghost use Rattle.dv_words.specs.Step.{with_ready};
ghost use Rattle.dv_words.specs.Stepping.{KeysRise};
ghost use Rattle.dv_words.specs.Steps.{leaves, mem_here, mem_left};
ghost use Rattle.dv_words.specs.Threads as threads;
ghost use Rattle.dv_mem.specs.Operands.{AreOperands};
ghost use Rattle.dv_mem.specs.Stepping.{is_mem};
ghost use Rattle.dv_call.specs.Returns.{CallerStands};
ghost use Rattle.dv_threads.specs.Kept.{HasRoom};
ghost use Rattle.dv_threads.specs.Stepping.{is_of_threads};
ghost use Rattle.dv_builtin.specs.Natives.{TextsFit};
ghost use Rattle.dv_core.specs.Fitting.{StepFits};
ghost use Rattle.dv_core.specs.Guests.{Leaves, Stays, AtEachOp, Does};
ghost use Rattle.dv_fetch.specs.Standing.{IsFound, IsHere};
ghost use Rattle.dv_core.specs.Trying.{AtEachTry, Tries, freely, is_free};

use crate::guest::Guest;
use crate::records::begin;
use crate::waiting::is_held_by;
use dv_call::{Landed, enter, land, return_value, return_void};
use dv_defs::{Ask, ClassId, Image, Limits, Named, Native, Next, Regs};
use dv_fetch::{Instruction, instruction_of, is_local, needs};
use dv_local::step_top;
use dv_mem::operate;
use dv_ops::{Method, Op};
use dv_optable::Call;
use dv_threads::{monitor_exit, try_monitor_enter};
use std::alloc::AllocError;

/// A step of a living thread whose top level is code: the class that its instruction needs is asked for first (JLS 12.4.1). None where the
/// thread is held up: nothing is done then.
///
/// # Errors
///
/// Want of memory; all is as before then.
pub fn step_code(
    image: &Image,
    limits: &Limits,
    guest: &mut Guest,
    thread: u32,
) -> Result<Option<Next>, AllocError>
    ensures { AtEachTry image.now limits.now guest.old thread (λ m own h x. StepFits h x.op →
        Tries result (is_free m h x.op) (with_ready h x.op (ops.needs x.op)) limits.now guest.old guest.new own h) }
{
    let Some(here) = instruction_at(image, guest, thread) else {
        return Ok(Some(Next::On));
    };
    if is_local(&here.op) {
        let _done = step_locally(image, guest, thread);
        return Ok(Some(Next::On));
    }
    match needs(&here.op) {
        None => act(image, limits, guest, thread, &here),
        Some(class) => with_class(image, limits, guest, thread, &here, class),
    }
}

/// Does the instruction on top where it touches its frame alone. A switch's keys rise in accepted code.
fn step_locally(image: &Image, guest: &mut Guest, thread: u32) -> bool
    ensures local { (l : Bounds) → AtEachOp image.now l guest.old thread (λ own h x. ops.is_local x.op ≡ result) }
    ensures does { (l : Bounds) → AtEachOp image.now l guest.old thread (λ own h x. KeysRise x.op → result ≡ true →
        Leaves guest.old guest.new own h (leaves h.shared (level.Code (word_local x.op h.frame h.next) ∷ h.rest))) }
    ensures stays { (l : Bounds) → AtEachOp image.now l guest.old thread (λ own h x. result ≡ false → Stays l guest.old guest.new) }
{
    let place = thread as usize;
    if place >= guest.threads.stacks.len() {
        return false;
    }
    step_top(image, &mut guest.threads.stacks[place])
}

/// The instruction at which a thread's frame on top goes on.
fn instruction_at<'a>(image: &'a Image, guest: &Guest, thread: u32) -> Option<Instruction<'a>>
    ensures { (l : Bounds) → AtEachOp image.now l guest.now thread (λ own h x. IsFound result h x.op) }
{
    let place = thread as usize;
    if place >= guest.threads.stacks.len() {
        return None;
    }
    instruction_of(image, &guest.threads.stacks[place])
}

/// An instruction that needs a class: it is done where the class is ready, or is being initialised by this thread; else the class is
/// begun or throws, or another thread is at it, which holds this one up (JLS 12.4.2).
fn with_class(
    image: &Image,
    limits: &Limits,
    guest: &mut Guest,
    thread: u32,
    here: &Instruction<'_>,
    class: ClassId,
) -> Result<Option<Next>, AllocError>
    ensures { AtEachTry image.now limits.now guest.old thread (λ m own h x. StepFits h x.op → ops.is_local x.op ≡ false → IsHere here.now h x.op →
        Tries result (is_none (by_ask (ask_of h.shared.classes class.0 h.thread) (blocked_op h.image m h.thread h.own h.frame x.op) class.0))
        (steps.for_class h (level.Code h.frame ∷ h.rest) class.0 (ask_of h.shared.classes class.0 h.thread) (steps.act h x.op)) limits.now guest.old guest.new own h) }
{
    match guest.classes.ask(class, thread) {
        Ask::Go => act(image, limits, guest, thread, here),
        Ask::Begin => Ok(Some(begin(guest, thread, class))),
        Ask::Wait(_) => Ok(None),
        Ask::Bad => Ok(Some(Next::Throw(Named::NoClassDef))),
    }
}

/// The answer of what was done, by a thread that nothing holds up.
fn free(done: Result<Next, AllocError>) -> Result<Option<Next>, AllocError>
    ensures { result ≡ freely done }
{
    match done {
        Ok(answer) => Ok(Some(answer)),
        Err(error) => Err(error),
    }
}

/// Does an instruction whose class is ready. None where the thread is held up.
fn act(
    image: &Image,
    limits: &Limits,
    guest: &mut Guest,
    thread: u32,
    here: &Instruction<'_>,
) -> Result<Option<Next>, AllocError>
    ensures { AtEachTry image.now limits.now guest.old thread (λ m own h x. StepFits h x.op → ops.is_local x.op ≡ false → IsHere here.now h x.op →
        Tries result (is_none (blocked_op h.image m h.thread h.own h.frame x.op)) (steps.act h x.op) limits.now guest.old guest.new own h) }
{
    match here.op {
        Op::Invoke(call, regs, method) => {
            invoke(image, limits, guest, thread, here.next, call, &regs, method)
        }
        Op::ReturnVoid => Ok(Some(leave(image, guest, thread))),
        Op::Return(_, reg) => Ok(Some(leave_with(image, guest, thread, reg))),
        Op::Enter(reg) => enter_monitor(guest, thread, here.next, reg),
        Op::Exit(reg) => free(leave_monitor(guest, thread, here.next, reg)),
        _ => free(touch(image, guest, thread, here)),
    }
}

/// monitor-enter of the object in a register. None where another thread owns its monitor.
fn enter_monitor(
    guest: &mut Guest,
    thread: u32,
    next: u32,
    reg: u16,
) -> Result<Option<Next>, AllocError>
    ensures { (i : Linked) (l : Bounds) → AtEachOp i l guest.old thread (λ own h x. h.next ≡ next → count_of h.shared.monitors (reg_word h.frame reg) < 2 ^ 64 - 1 →
        Tries result (is_none (blocked_enter h.shared.monitors h.thread (reg_word h.frame reg))) (on_object (threads.monitor_enter h) (reg_word h.frame reg)) l guest.old guest.new own h) }
{
    let object = word(guest, thread, reg);
    try_monitor_enter(&mut guest.threads, thread, next, object)
}

/// monitor-exit of the object in a register.
fn leave_monitor(guest: &mut Guest, thread: u32, next: u32, reg: u16) -> Result<Next, AllocError>
    ensures { (i : Linked) (l : Bounds) → AtEachOp i l guest.old thread (λ own h x. h.next ≡ next →
        Does result (on_object (threads.monitor_exit h) (reg_word h.frame reg)) l guest.old guest.new own h) }
{
    let object = word(guest, thread, reg);
    monitor_exit(&mut guest.threads, thread, next, object)
}

/// A register of a thread's frame on top, 0 where there is none.
fn word(guest: &Guest, thread: u32, reg: u16) -> u32
    ensures { (s : WordStack) → slice_get guest.now.threads.stacks.items thread ≡ Some s → result ≡ word_at (top_regs s.levels) reg }
{
    match guest.threads.stacks.get(thread as usize) {
        Some(stack) => stack.word(u32::from(reg)),
        None => 0,
    }
}

/// An instruction on objects, arrays and fields, a division or a cast.
fn touch(
    image: &Image,
    guest: &mut Guest,
    thread: u32,
    here: &Instruction<'_>,
) -> Result<Next, AllocError>
    ensures { (l : Bounds) → AtEachOp image.now l guest.old thread (λ own h x. IsHere here.now h x.op → is_mem x.op ≡ true → AreOperands (mem_here h) x.op →
        Does result (mem_left h x.op) l guest.old guest.new own h) }
{
    let place = thread as usize;
    if place >= guest.threads.stacks.len() {
        return Ok(Next::On);
    }
    operate(
        image,
        here.units,
        &mut guest.heap,
        &mut guest.threads.stacks[place],
        here.next,
        &here.op,
    )
}

/// An invoke: a method is entered, a native method is done, or an exception is thrown. None where the native holds the thread up.
fn invoke(
    image: &Image,
    limits: &Limits,
    guest: &mut Guest,
    thread: u32,
    next: u32,
    call: Call,
    regs: &Regs,
    method: Method<'_>,
) -> Result<Option<Next>, AllocError>
    ensures { AtEachTry image.now limits.now guest.old thread (λ m own h x. StepFits h (ops.Invoke (standard_call call) (named_registers regs.now) (method_of method.entry)) → h.next ≡ next →
        Tries result (is_none (blocked_op h.image m h.thread h.own h.frame (ops.Invoke (standard_call call) (named_registers regs.now) (method_of method.entry))))
        (calls.invoke h (standard_call call) (named_registers regs.now) (method_of method.entry)) limits.now guest.old guest.new own h) }
{
    let place = thread as usize;
    if place >= guest.threads.stacks.len() {
        return Ok(Some(Next::On));
    }
    match land(
        image,
        &guest.heap,
        &guest.threads.stacks[place],
        call,
        regs,
        method,
    ) {
        Landed::Method(landed) => Ok(Some(enter(&mut guest.threads.stacks[place], &landed, regs))),
        Landed::Native(native) => {
            if is_held_by(
                guest,
                &guest.threads.stacks[place],
                thread,
                regs,
                method,
                native,
            ) {
                return Ok(None);
            }
            free(run_native(image, limits, guest, thread, next, native, regs))
        }
        Landed::Throws(named) => Ok(Some(Next::Throw(named))),
        Landed::Nothing => Ok(Some(Next::On)),
    }
}

/// Whether a native is one of threads and monitors; the others are of texts.
fn is_of_threads(native: Native) -> bool
    ensures { result ≡ is_of_threads native }
{
    matches!(
        native,
        Native::Wait
            | Native::Notify
            | Native::NotifyAll
            | Native::Start
            | Native::Join
            | Native::CurrentThread
    )
}

/// Does a native method.
fn run_native(
    image: &Image,
    limits: &Limits,
    guest: &mut Guest,
    thread: u32,
    next: u32,
    native: Native,
    regs: &Regs,
) -> Result<Next, AllocError>
    ensures { AtEachOp image.now limits.now guest.old thread (λ own h x. HasRoom h.limits → TextsFit h.shared.heap native (map (reg_word h.frame) (named_registers regs.now)) → h.next ≡ next →
        Does result (natives.native_step h native (map (reg_word h.frame) (named_registers regs.now))) limits.now guest.old guest.new own h) }
{
    if is_of_threads(native) {
        return dv_threads::native_step(
            image,
            &guest.heap,
            limits,
            &mut guest.threads,
            thread,
            next,
            native,
            regs,
        );
    }
    let place = thread as usize;
    if place >= guest.threads.stacks.len() {
        return Ok(Next::On);
    }
    let stack = &mut guest.threads.stacks[place];
    dv_builtin::native_step(
        &mut guest.heap,
        stack,
        &mut guest.output,
        limits.output,
        next,
        native,
        regs,
    )
}

/// return-void.
fn leave(image: &Image, guest: &mut Guest, thread: u32) -> Next
    ensures { (l : Bounds) → AtEachOp image.now l guest.old thread (λ own h x. CallerStands h →
        Does (Ok result) (calls.return_void h) l guest.old guest.new own h) }
{
    let place = thread as usize;
    if place >= guest.threads.stacks.len() {
        return Next::On;
    }
    return_void(image, &mut guest.threads.stacks[place])
}

/// A return with a value.
fn leave_with(image: &Image, guest: &mut Guest, thread: u32, reg: u16) -> Next
    ensures { (l : Bounds) → AtEachOp image.now l guest.old thread (λ own h x. CallerStands h →
        Does (Ok result) (calls.return_form h reg) l guest.old guest.new own h) }
{
    let place = thread as usize;
    if place >= guest.threads.stacks.len() {
        return Next::On;
    }
    return_value(image, &mut guest.threads.stacks[place], reg)
}

// What becomes of a step's answer.
ghost use Rattle.std.specs.Prelude.{◌≡◌, ℕ, None, Ok, Option, ◌<◌, ◌-◌, ◌^◌, OnErr, OnOk, Some, length, nat_eq, slice_set};
ghost use Rattle.dv_words.specs.State.{WordThread};
ghost use Rattle.dv_fetch.specs.Standing.{IsAtOp};
ghost use Rattle.dv_core.specs.Guests.{IsOrdered, IsSeen, Leaves, Stays, AtEachLevel, Does};
ghost use Rattle.dv_core.specs.Settling.{behind_exit};
ghost use Rattle.dv_defs.specs.declared.run.Ending.TheVariants as ending;
ghost use Rattle.dv_defs.specs.declared.run.Limits.{Limits as Bounds};
ghost use Rattle.dv_typing.specs.Flow.{is_exit};
ghost use Rattle.dv_defs.specs.Op.{Code};
ghost use Rattle.dv_typing.specs.Statics as statics;
ghost use Rattle.dv_ops.specs.Meaning.{meant};
ghost use Rattle.dv_words.specs.Stacks.{first, with_levels};
ghost use Rattle.dv_frames.specs.Tops.{head_of};
ghost use Rattle.dv_words.specs.Answering.{IsStackOf};
ghost use Rattle.dv_words.specs.Steps.{At, Left, leaves};
ghost use Rattle.dv_words.specs.Step.{end_after, end_flying, moved_on, settled, settled_flight, stopped, thrown};
ghost use Rattle.dv_words.specs.Unwinding.{Unwound, made_object};
ghost use Rattle.dv_throw.specs.Answers.{Unwinds};
ghost use Rattle.dv_core.specs.declared.guest.Guest.{Guest as Before};
ghost use Rattle.dv_defs.specs.Images.{Image as Linked};
ghost use Rattle.dv_machine.specs.State.{Did};
ghost use Rattle.std.specs.declared.alloc.AllocError.{AllocError};
ghost use Rattle.dv_core.specs.Machines.{counted, machine_of, machine_with, IsInOrder, thread_at};

use crate::guest::Guest;
use crate::vm::Vm;
use dv_defs::{End, Ending, Image, Named, Next};
use dv_fetch::instruction_of;
use dv_frames::Stack;
use dv_ops::Op;
use dv_throw::make;
use std::alloc::AllocError;

/// Whether an operation is a monitor-exit.
fn is_exit(op: &Op<'_>) -> bool
    ensures { (code : Code) (at : ℕ) → result ≡ is_exit (meant code at op.now) }
{
    matches!(op, Op::Exit(_))
}

/// The address behind a monitor-exit, where the frame on top stands at one.
fn behind_exit(image: &Image, stack: &Stack) -> Option<u32>
    ensures code { (own : WordThread) (h : At) (x : statics.At) → h.image ≡ image.now → IsStackOf stack.now h → IsAtOp own h x → result ≡ behind_exit x }
    ensures other { head_of (first stack.now.levels) ≡ None → result ≡ None }
{
    let _head = stack.head()?;
    let here = instruction_of(image, stack)?;
    if is_exit(&here.op) {
        Some(here.next)
    } else {
        None
    }
}

/// The frame on top stands behind its monitor-exit, where it stands at one.
fn leave_exit(image: &Image, stack: &mut Stack)
    ensures code { (own : WordThread) (h : At) (x : statics.At) → h.image ≡ image.now → IsStackOf stack.old h → IsAtOp own h x → stack.new ≡ with_levels stack.old (moved_on (Some x) own.levels) }
    ensures other { head_of (first stack.old.levels) ≡ None → stack.new ≡ stack.old }
{
    if let Some(to) = behind_exit(image, stack) {
        stack.move_to(to);
    }
}

/// The same of a thread's stack.
fn leave_exit_of(image: &Image, guest: &mut Guest, thread: u32)
    ensures { (l : Bounds) → AtEachLevel image.now l guest.old thread (λ own h x. Leaves guest.old guest.new own h (leaves h.shared (moved_on x own.levels))) }
{
    let place = thread as usize;
    if place >= guest.threads.stacks.len() {
        return;
    }
    leave_exit(image, &mut guest.threads.stacks[place]);
}

/// A thread stands so, where there is one.
fn set_end(ends: &mut Vec<End>, thread: u32, end: End)
    ensures { ends.new.items ≡ slice_set ends.old.items thread end }
{
    let place = thread as usize;
    if place < ends.len() {
        ends[place] = end;
    }
}

impl Vm {
    /// Whether a thread has no level any more.
    fn is_done(&self, thread: u32) -> bool
        ensures { (own : WordThread) → thread_at self.now thread ≡ Some own → result ≡ nat_eq (length own.levels) 0 }
    {
        match self.guest.threads.stacks.get(thread as usize) {
            Some(stack) => stack.levels() == 0,
            None => false,
        }
    }

    /// A thread stands so, and a step is counted.
    fn count(&mut self, thread: u32, end: End)
        ensures machine { self.old.steps < 2 ^ 64 - 1 → machine_of self.new ≡ counted (machine_of self.old) thread (λ ls. end) }
        ensures ordered { IsInOrder self.old → IsOrdered self.old.limits self.new.guest }
    {
        set_end(&mut self.guest.threads.ends, thread, end);
        self.steps = self.steps.wrapping_add(1);
    }

    /// The thread goes on; without levels it has returned.
    fn go_on(&mut self, thread: u32)
        ensures machine { (own : WordThread) → thread_at self.old thread ≡ Some own → self.old.steps < 2 ^ 64 - 1 →
            machine_of self.new ≡ counted (machine_of self.old) thread end_after }
        ensures ordered { IsInOrder self.old → IsOrdered self.old.limits self.new.guest }
    {
        let end = if self.is_done(thread) {
            End::Returned
        } else {
            End::Living
        };
        self.count(thread, end);
    }

    /// An exception flies on; a thread without levels has died of it.
    fn fly(&mut self, thread: u32, object: u32)
        ensures machine { (own : WordThread) → thread_at self.old thread ≡ Some own → self.old.steps < 2 ^ 64 - 1 →
            machine_of self.new ≡ counted (machine_of self.old) thread (end_flying object) }
        ensures ordered { IsInOrder self.old → IsOrdered self.old.limits self.new.guest }
    {
        let end = if self.is_done(thread) {
            End::Died(object)
        } else {
            End::Flying(object)
        };
        self.count(thread, end);
    }

    /// The run stops, since its budget of printed bytes is spent.
    fn stop(&mut self)
        ensures machine { self.old.steps < 2 ^ 64 - 1 → machine_of self.new ≡ stopped (machine_of self.old) ending.Output }
        ensures ordered { IsInOrder self.old → IsOrdered self.old.limits self.new.guest }
    {
        self.steps = self.steps.wrapping_add(1);
        self.stop = Some(Ending::Output);
    }

    /// A new exception flies, or the opening's OutOfMemoryError where the words for it are lacking. The frame on top is behind its monitor-exit
    /// then, where it stood at one.
    fn throw(&mut self, image: &Image, thread: u32, named: Named) -> Result<(), AllocError>
        ensures ok { AtEachLevel image.now self.old.limits self.old.guest thread (λ own h x. self.old.steps < 2 ^ 64 - 1 →
            OnOk result (machine_of self.new ≡ thrown (machine_of self.old) thread own x (made_object image.now self.old.guest.heap named))) }
        ensures memory { OnErr result (machine_of self.new ≡ machine_of self.old) }
        ensures ordered { AtEachLevel image.now self.old.limits self.old.guest thread (λ own h x. IsOrdered self.old.limits self.new.guest) }
    {
        let made = make(image, &mut self.guest.heap, named)?;
        leave_exit_of(image, &mut self.guest, thread);
        let object = match made {
            Next::ThrowRef(object) => object,
            _ => self.preallocated.out_of_memory,
        };
        self.fly(thread, object);
        Ok(())
    }

    /// Settles the answer of a step of a living thread.
    pub fn settle(&mut self, image: &Image, thread: u32, answer: Next) -> Result<(), AllocError>
        ensures ok { (g : Before) (step : Did Left) → AtEachLevel image.now self.old.limits g thread (λ own h x. self.old.steps < 2 ^ 64 - 1 →
            Does (Ok answer) step self.old.limits g self.old.guest own h →
            OnOk result (machine_of self.new ≡ settled image.now (machine_with g self.old.steps self.old.stop self.old.limits self.old.preallocated) thread own x step)) }
        ensures memory { (g : Before) (step : Did Left) → AtEachLevel image.now self.old.limits g thread (λ own h x. self.old.steps < 2 ^ 64 - 1 →
            Does (Ok answer) step self.old.limits g self.old.guest own h →
            OnErr result (machine_of self.new ≡ machine_with g self.old.steps self.old.stop self.old.limits self.old.preallocated)) }
        ensures ordered { (g : Before) (step : Did Left) → AtEachLevel image.now self.old.limits g thread (λ own h x.
            Does (Ok answer) step self.old.limits g self.old.guest own h → IsOrdered self.old.limits self.new.guest) }
    {
        match answer {
            Next::On => self.go_on(thread),
            Next::Throw(named) => return self.throw(image, thread, named),
            Next::ThrowRef(object) => self.fly(thread, object),
            Next::NoWords => self.fly(thread, self.preallocated.out_of_memory),
            Next::NoRoom => self.fly(thread, self.preallocated.stack_overflow),
            Next::NoOutput => self.stop(),
        }
        Ok(())
    }

    /// Settles the answer of a step of a thread with an exception in flight.
    pub fn settle_flight(&mut self, thread: u32, answer: Next)
        ensures machine { (i : Linked) (g : Before) (own : WordThread) (h : At) (u : Unwound) → IsSeen i self.old.limits g thread own h → self.old.steps < 2 ^ 64 - 1 →
            Unwinds (Ok answer) u (Leaves g self.old.guest own h) (Stays self.old.limits g self.old.guest) →
            machine_of self.new ≡ settled_flight (machine_with g self.old.steps self.old.stop self.old.limits self.old.preallocated) thread own u }
        ensures ordered { (i : Linked) (g : Before) (own : WordThread) (h : At) (u : Unwound) → IsSeen i self.old.limits g thread own h →
            Unwinds (Ok answer) u (Leaves g self.old.guest own h) (Stays self.old.limits g self.old.guest) → IsOrdered self.old.limits self.new.guest }
    {
        match answer {
            Next::On => self.go_on(thread),
            Next::ThrowRef(object) => self.fly(thread, object),
            _ => self.fly(thread, self.preallocated.out_of_memory),
        }
    }
}

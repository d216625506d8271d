// The engine: guest threads, what they share, and how far the run is.
ghost use Rattle.std.specs.Prelude.{◌≡◌, ◌<◌, ◌-◌, ◌^◌, ◌∷◌, [], Bool, Some, None, is_none, slice_get, true};
ghost use Rattle.dv_defs.specs.declared.machine.End.TheVariants as end;
ghost use Rattle.dv_typing.specs.Flow.{handlers_at};
ghost use Rattle.dv_defs.specs.Op as ops;
ghost use Rattle.dv_words.specs.State.{WordThread};
ghost use Rattle.dv_words.specs.declared.state.Frame.{Frame as Activation};
ghost use Rattle.dv_words.specs.declared.state.Level.TheVariants as level;
ghost use Rattle.dv_words.specs.Running.{blocked_levels, runnable};
ghost use Rattle.dv_words.specs.Step as steps;
ghost use Rattle.dv_words.specs.Step.{record_step, settled, settled_flight, step, with_ready};
ghost use Rattle.dv_words.specs.Steps.{At};
ghost use Rattle.dv_words.specs.Unwinding.{handler_for, unwind_frame, unwind_record};
ghost use Rattle.dv_words.specs.Stacks.{first};
ghost use Rattle.dv_frames.specs.Tops.{top_of};
ghost use Rattle.dv_threads.specs.Kept.{threads_of};
ghost use Rattle.dv_core.specs.Fitting.{RecordFits, StepFits};
ghost use Rattle.dv_core.specs.Guests.{IsOrdered, IsSeen, AtEachOp};
ghost use Rattle.dv_core.specs.Machines.{IsSteppable, machine_of, thread_at};
ghost use Rattle.dv_core.specs.Trying.{IsTried, done_by, is_free};
ghost use Rattle.dv_core.specs.Watching.{AreNumbered};

use crate::code::step_code;
use crate::flight::step_flight;
use crate::guest::Guest;
use crate::records::step_record;
use crate::waiting::is_held_at;
use dv_defs::{ClassId, End, Ending, Image, Limits, Preallocated};
use dv_frames::Top;
use dv_heap::Heap;
use dv_threads::Threads;
use std::alloc::AllocError;

/// A run as it stands: the guest's state, the steps done, what stopped the run where something did, its limits, and the exceptions that its
/// opening made.
#[derive(Drop)]
pub struct Vm {
    pub guest: Guest,
    pub steps: u64,
    pub stop: Option<Ending>,
    pub limits: Limits,
    pub preallocated: Preallocated,
}

/// What became of a step: it was done; or the thread is held up, has ended or isn't there, and all is as before.
#[derive(Clone, Copy, PartialEq, Eq, Debug)]
pub enum Step {
    Done,
    Held,
}

/// What became of a step of a thread that may step.
fn done(settled: Result<(), AllocError>) -> Result<Step, AllocError>
    ensures { result ≡ done_by settled }
{
    match settled {
        Ok(()) => Ok(Step::Done),
        Err(error) => Err(error),
    }
}

impl Vm {
    /// A step of a guest thread, where it may step: it lives, and nothing holds it up (JLS 12.4.2, 17.1, 17.2).
    ///
    /// # Errors
    ///
    /// Want of memory; the state is as before then.
    pub fn step(&mut self, image: &Image, thread: u32) -> Result<Step, AllocError>
        ensures { IsSteppable image.now self.old thread →
            IsTried result (runnable image.now (machine_of self.old) thread) self.old self.new (step image.now (machine_of self.old) thread) }
    {
        let Some(end) = self.end_of(thread) else {
            return Ok(Step::Held);
        };
        match end {
            End::Living => self.step_living(image, thread),
            End::Flying(object) => self.step_flying(image, thread, object),
            _ => Ok(Step::Held),
        }
    }

    /// The guest threads.
    pub fn threads(&self) -> &Threads
        ensures { result.now ≡ self.now.guest.threads }
    {
        &self.guest.threads
    }

    /// The heap.
    pub fn heap(&self) -> &Heap
        ensures { result.now ≡ self.now.guest.heap }
    {
        &self.guest.heap
    }

    /// What was printed.
    pub fn output(&self) -> &[u8]
        ensures { result.now ≡ self.now.guest.output.items }
    {
        &self.guest.output
    }

    /// How a thread stands.
    fn end_of(&self, thread: u32) -> Option<End>
        ensures { result ≡ slice_get self.now.guest.threads.ends.items thread }
    {
        self.guest.threads.ends.get(thread as usize).copied()
    }

    /// What is on top of a thread's stack.
    fn top_of(&self, thread: u32) -> Option<Top>
        ensures { (own : WordThread) → slice_get (threads_of self.now.guest.threads) thread ≡ Some own → result ≡ top_of (first own.levels) }
    {
        match self.guest.threads.stacks.get(thread as usize) {
            Some(stack) => stack.top(),
            None => None,
        }
    }

    /// A step of a living thread, where nothing holds it up.
    fn step_living(&mut self, image: &Image, thread: u32) -> Result<Step, AllocError>
        ensures { (own : WordThread) → IsSteppable image.now self.old thread → thread_at self.old thread ≡ Some own → own.end ≡ end.Living →
            IsTried result (is_none (blocked_levels image.now (machine_of self.old) thread own.levels)) self.old self.new
            (steps.step_living image.now (machine_of self.old) thread own own.levels) }
    {
        let Some(top) = self.top_of(thread) else {
            return Ok(Step::Done);
        };
        match top {
            Top::Code { .. } => self.step_at_code(image, thread),
            Top::Init { class, running } => self.step_at_record(image, thread, class, running),
        }
    }

    /// A step of a living thread at an instruction, where nothing holds it up.
    fn step_at_code(&mut self, image: &Image, thread: u32) -> Result<Step, AllocError>
        ensures { AtEachOp image.now self.old.limits self.old.guest thread (λ own h x. StepFits h x.op → AreNumbered self.old.guest → self.old.steps < 2 ^ 64 - 1 →
            IsTried result (is_free (machine_of self.old) h x.op) self.old self.new
            (settled image.now (machine_of self.old) thread own (Some x) (with_ready h x.op (ops.needs x.op)))) }
    {
        let tried = step_code(image, &self.limits, &mut self.guest, thread)?;
        let Some(answer) = tried else {
            return Ok(Step::Held);
        };
        done(self.settle(image, thread, answer))
    }

    /// A step of a living thread at the record of a class, where nothing holds it up.
    fn step_at_record(
        &mut self,
        image: &Image,
        thread: u32,
        class: ClassId,
        running: bool,
    ) -> Result<Step, AllocError>
        ensures { (own : WordThread) (h : At) → IsSeen image.now self.old.limits self.old.guest thread own h → own.levels ≡ level.Init class running ∷ h.rest → RecordFits h class → self.old.steps < 2 ^ 64 - 1 →
            IsTried result (is_none (blocked_levels image.now (machine_of self.old) thread own.levels)) self.old self.new
            (settled image.now (machine_of self.old) thread own None (record_step h class.0 running)) }
    {
        if is_held_at(image, &self.guest.classes, thread, class, running) {
            return Ok(Step::Held);
        }
        let answer = step_record(image, &mut self.guest, thread, class, running);
        done(self.settle(image, thread, answer))
    }

    /// A step of a thread with an exception in flight.
    fn step_flying(&mut self, image: &Image, thread: u32, object: u32) -> Result<Step, AllocError>
        ensures code { (own : WordThread) (h : At) (f : Activation) → IsSeen image.now self.old.limits self.old.guest thread own h → own.levels ≡ level.Code f ∷ h.rest → self.old.steps < 2 ^ 64 - 1 →
            IsTried result true self.old self.new (settled_flight (machine_of self.old) thread own (unwind_frame h f object (handler_for image.now h.shared.heap object (handlers_at image.now f.method.0 f.at)))) }
        ensures record { (own : WordThread) (h : At) (c : ClassId) (r : Bool) → IsSeen image.now self.old.limits self.old.guest thread own h → own.levels ≡ level.Init c r ∷ h.rest → RecordFits h c → self.old.steps < 2 ^ 64 - 1 →
            IsTried result true self.old self.new (settled_flight (machine_of self.old) thread own (unwind_record h c.0 object)) }
        ensures none { (own : WordThread) → IsOrdered self.old.limits self.old.guest → thread_at self.old thread ≡ Some own → own.levels ≡ [] → IsTried result true self.old self.new (machine_of self.old) }
    {
        let Some(_top) = self.top_of(thread) else {
            return Ok(Step::Done);
        };
        let answer = step_flight(image, &mut self.guest, thread, object)?;
        self.settle_flight(thread, answer);
        Ok(Step::Done)
    }
}

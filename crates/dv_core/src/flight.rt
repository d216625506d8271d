// A step of a thread with an exception in flight.
ghost use Rattle.std.specs.Prelude.{◌≡◌, ◌∷◌, Bool};
ghost use Rattle.dv_typing.specs.Flow.{handlers_at};
ghost use Rattle.dv_words.specs.State.{WordThread};
ghost use Rattle.dv_words.specs.declared.state.Frame.{Frame as Activation};
ghost use Rattle.dv_words.specs.declared.state.Level.TheVariants as level;
ghost use Rattle.dv_words.specs.Steps.{At};
ghost use Rattle.dv_words.specs.Unwinding.{handler_for, unwind_frame, unwind_record};
ghost use Rattle.dv_throw.specs.Answers.{Unwinds};
ghost use Rattle.dv_core.specs.Fitting.{RecordFits};
ghost use Rattle.dv_core.specs.Guests.{IsSeen, Leaves, Stays};

use crate::guest::Guest;
use dv_defs::{ClassId, Image, Next};
use dv_throw::unwind_step;
use std::alloc::AllocError;

/// A step of a thread with an exception in flight: one level (JLS 11.3, 12.4.2).
///
/// # Errors
///
/// Want of memory; all is as before then.
pub fn step_flight(
    image: &Image,
    guest: &mut Guest,
    thread: u32,
    flying: u32,
) -> Result<Next, AllocError>
    ensures code { (own : WordThread) (h : At) (f : Activation) → IsSeen image.now h.limits guest.old thread own h → own.levels ≡ level.Code f ∷ h.rest →
        Unwinds result (unwind_frame h f flying (handler_for image.now h.shared.heap flying (handlers_at image.now f.method.0 f.at)))
        (Leaves guest.old guest.new own h) (Stays h.limits guest.old guest.new) }
    ensures record { (own : WordThread) (h : At) (c : ClassId) (r : Bool) → IsSeen image.now h.limits guest.old thread own h → own.levels ≡ level.Init c r ∷ h.rest → RecordFits h c →
        Unwinds result (unwind_record h c.0 flying) (Leaves guest.old guest.new own h) (Stays h.limits guest.old guest.new) }
{
    let place = thread as usize;
    if place >= guest.threads.stacks.len() {
        return Ok(Next::ThrowRef(flying));
    }
    let stack = &mut guest.threads.stacks[place];
    unwind_step(
        image,
        &mut guest.heap,
        stack,
        &mut guest.classes,
        thread,
        flying,
    )
}

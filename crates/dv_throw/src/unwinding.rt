// An exception in flight, level by level.
ghost use Rattle.std.specs.Prelude.{◌≡◌, ◌∷◌, [], Bool};
ghost use Rattle.dv_machine.specs.Classes.{InProgress, state_at};
ghost use Rattle.dv_typing.specs.Flow.{handlers_at};
ghost use Rattle.dv_words.specs.declared.state.Frame.{Frame as Activation};
ghost use Rattle.dv_words.specs.declared.state.Level.TheVariants as words_level;
ghost use Rattle.dv_words.specs.Answering.{LeavesStack};
ghost use Rattle.dv_words.specs.Steps.{At};
ghost use Rattle.dv_words.specs.Unwinding.{handler_for as catching, unwind_frame as frame_unwound, unwind_record as record_unwound};
ghost use Rattle.dv_throw.specs.Answers.{IsSeenByThrows, Stays, Unwinds, sharing};
ghost use Rattle.dv_throw.specs.Unwound.{Ends, IsEnded, IsThrough, raised};

use crate::handlers::handler_for;
use crate::made::raise;
use crate::records::drop_record;
use dv_clinit::{ClassStates, State};
use dv_defs::{ClassId, Image, MethodId, Next};
use dv_frames::{Stack, Top};
use dv_heap::Heap;
use std::alloc::AllocError;

/// One level of unwinding. A frame catches the exception by its first fitting handler: `On` then. A frame without one is dropped, and so is
/// the record of a class, which becomes erroneous: `ThrowRef` of the exception that flies on, or `NoWords` where the heap is full for a new
/// ExceptionInInitializerError.
///
/// # Errors
///
/// Want of memory; all is as before then.
pub fn unwind_step(
    image: &Image,
    heap: &mut Heap,
    stack: &mut Stack,
    states: &mut ClassStates,
    thread: u32,
    flying: u32,
) -> Result<Next, AllocError>
    ensures code { (h : At) (f : Activation) → IsSeenByThrows image.now heap.old states.old thread h → stack.old.levels ≡ words_level.Code f ∷ h.rest →
        Unwinds result (frame_unwound h f flying (catching image.now heap.old flying (handlers_at image.now f.method.0 f.at)))
        (LeavesStack (sharing h.shared heap.new states.new) stack.old stack.new) (Stays stack.old stack.new heap.old heap.new states.old states.new) }
    ensures record { (h : At) (c : ClassId) (r : Bool) → IsSeenByThrows image.now heap.old states.old thread h → stack.old.levels ≡ words_level.Init c r ∷ h.rest →
        state_at states.old c.0 ≡ InProgress thread →
        Unwinds result (record_unwound h c.0 flying)
        (LeavesStack (sharing h.shared heap.new states.new) stack.old stack.new) (Stays stack.old stack.new heap.old heap.new states.old states.new) }
    // A stack without levels.
    ensures none { stack.old.levels ≡ [] → (result ≡ Ok (Next.ThrowRef flying)) × Stays stack.old stack.new heap.old heap.new states.old states.new }
{
    match stack.top() {
        Some(Top::Code { method, at }) => Ok(unwind_frame(image, heap, stack, method, at, flying)),
        Some(Top::Init { class, .. }) => {
            unwind_record(image, heap, stack, states, thread, class, flying)
        }
        None => Ok(Next::ThrowRef(flying)),
    }
}

/// A frame enters its first handler that catches the exception, or is dropped (JLS 11.3).
fn unwind_frame(
    image: &Image,
    heap: &Heap,
    stack: &mut Stack,
    method: MethodId,
    at: u32,
    flying: u32,
) -> Next
    ensures { IsThrough result (catching image.now heap.now flying (handlers_at image.now method.0 at)) flying stack.old stack.new }
{
    match handler_for(image, heap, flying, method, at) {
        Some(to) => {
            stack.enter_handler(to, flying);
            Next::On
        }
        None => {
            stack.pop();
            Next::ThrowRef(flying)
        }
    }
}

/// The class of a record becomes erroneous, and the record is dropped (JLS 12.4.2, steps 10 and 11). Where the thread isn't at the class,
/// nothing is done.
fn unwind_record(
    image: &Image,
    heap: &mut Heap,
    stack: &mut Stack,
    states: &mut ClassStates,
    thread: u32,
    class: ClassId,
    flying: u32,
) -> Result<Next, AllocError>
    ensures { state_at states.old class.0 ≡ InProgress thread →
        Ends result (raised image.now heap.old flying) heap.old heap.new (IsEnded image.now thread class.0 stack.old stack.new states.old states.new) (Stays stack.old stack.new heap.old heap.new states.old states.new) }
{
    if states.state(class) != State::InProgress(thread) {
        return Ok(Next::ThrowRef(flying));
    }
    let raised = raise(image, heap, flying)?;
    states.fail(class, thread);
    drop_record(image, stack, thread, class);
    match raised {
        Some(object) => Ok(Next::ThrowRef(object)),
        None => Ok(Next::NoWords),
    }
}

// Invokes.
ghost use Rattle.std.specs.Prelude.{◌≡◌, Ok, true, false};
ghost use Rattle.std.specs.declared.alloc.AllocError.{AllocError};
ghost use Rattle.dv_defs.specs.Op.{named_registers};
ghost use Rattle.dv_machine.specs.Calls as machine;
ghost use Rattle.dv_ops.specs.Meaning.{method_of};
ghost use Rattle.dv_units.specs.Tables.{standard_call};
ghost use Rattle.dv_words.specs.Stacks.{arg_words};
ghost use Rattle.dv_words.specs.Answering.{IsStackOf, Leads, LeavesStack};
ghost use Rattle.dv_words.specs.Calls as steps;
ghost use Rattle.dv_words.specs.Steps.{At};
ghost use Rattle.dv_call.specs.Landings.{IsNumbered, IsOwn, IsSeenByCalls, runs_native};

use crate::landings::{Landed, land};
use dv_defs::{Image, Next, Regs};
use dv_frames::Stack;
use dv_heap::Heap;
use dv_ops::Method;
use dv_optable::Call;

/// The number of registers of a method, 0 where it has no body.
pub fn registers_of(method: &Method<'_>) -> u16
    ensures { result ≡ machine.registers_of (method_of method.now) }
{
    match &method.def.body {
        Some(body) => body.registers,
        None => 0,
    }
}

/// Pushes the frame of a method, whose argument words are those registers of the frame on top. The caller stays at its invoke.
pub fn enter(stack: &mut Stack, method: &Method<'_>, regs: &Regs) -> Next
    ensures { (h : At) → IsStackOf stack.old h →
        Leads {E = AllocError} (Ok result) (steps.enter h (method_of method.now) (arg_words stack.old regs.now)) (LeavesStack h.shared stack.old stack.new) (stack.new ≡ stack.old) }
{
    match stack.push_call(method.id, registers_of(method), regs) {
        Ok(()) => Next::On,
        Err(_) => Next::NoRoom,
    }
}

/// An invoke of a method, whose arguments stand in these registers of the frame on top. Where it runs a native method, nothing is done.
pub fn invoke(
    image: &Image,
    heap: &Heap,
    stack: &mut Stack,
    call: Call,
    regs: &Regs,
    method: Method<'_>,
) -> Next
    ensures does { (h : At) → IsSeenByCalls image.now heap.now stack.old h → IsOwn h → IsNumbered image.now (method_of method.entry) →
        runs_native h (standard_call call) (named_registers regs.now) (method_of method.entry) ≡ false →
        Leads {E = AllocError} (Ok result) (steps.invoke h (standard_call call) (named_registers regs.now) (method_of method.entry)) (LeavesStack h.shared stack.old stack.new) (stack.new ≡ stack.old) }
    ensures native { (h : At) → IsSeenByCalls image.now heap.now stack.old h → IsOwn h → IsNumbered image.now (method_of method.entry) →
        runs_native h (standard_call call) (named_registers regs.now) (method_of method.entry) ≡ true → stack.new ≡ stack.old }
{
    match land(image, heap, stack, call, regs, method) {
        Landed::Method(method) => enter(stack, &method, regs),
        Landed::Throws(named) => Next::Throw(named),
        Landed::Native(_) | Landed::Nothing => Next::On,
    }
}

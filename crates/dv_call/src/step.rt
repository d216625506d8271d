// A step of the frame on top: an invoke or a return.
ghost use Rattle.std.specs.Prelude.{◌≡◌, ◌↔◌, ◌<◌, ℕ, IsTrue, Ok, false, length, true};
ghost use Rattle.std.specs.declared.alloc.AllocError.{AllocError};
ghost use Rattle.dv_defs.specs.Op.{Code, Op as Operation};
ghost use Rattle.dv_ops.specs.Meaning.{meant};
ghost use Rattle.dv_words.specs.Answering.{IsAtInsn, Leads, LeavesStack};
ghost use Rattle.dv_words.specs.Step.{act};
ghost use Rattle.law_words.specs.StepLaws.{CallFits};
ghost use Rattle.dv_words.specs.Steps.{At};
ghost use Rattle.dv_call.specs.Landings.{IsOwn, IsSeenByCalls};
ghost use Rattle.dv_call.specs.Returns.{CallerStands};
ghost use Rattle.dv_call.specs.Stepping.{is_call};

use crate::invokes::invoke;
use crate::returns::{return_value, return_void};
use dv_defs::{Image, Insn, Next};
use dv_frames::Stack;
use dv_heap::Heap;
use dv_ops::{Op, coded_at, resolve, units_of};

/// Does an operation, if it is an invoke or a return.
fn operate(image: &Image, heap: &Heap, stack: &mut Stack, op: Op<'_>) -> Next
    ensures does { (code : Code) (at : ℕ) (h : At) → IsSeenByCalls image.now heap.now stack.old h → IsOwn h → CallFits image.now (meant code at op.entry) → CallerStands h → is_call h (meant code at op.entry) ≡ true →
        Leads {E = AllocError} (Ok result) (act h (meant code at op.entry)) (LeavesStack h.shared stack.old stack.new) (stack.new ≡ stack.old) }
    ensures other { (code : Code) (at : ℕ) (h : At) → IsSeenByCalls image.now heap.now stack.old h → IsOwn h → CallFits image.now (meant code at op.entry) → is_call h (meant code at op.entry) ≡ false → stack.new ≡ stack.old }
{
    match op {
        Op::Invoke(call, regs, method) => invoke(image, heap, stack, call, &regs, method),
        Op::ReturnVoid => return_void(image, stack),
        Op::Return(_, reg) => return_value(image, stack, reg),
        _ => Next::On,
    }
}

/// The next step of the frame on top, whose instruction this is: an invoke or a return. Where it is another, or the invoke runs a native
/// method, nothing is done.
pub fn call_step(image: &Image, heap: &Heap, stack: &mut Stack, insn: &Insn) -> Next
    ensures does { (h : At) (op : Operation) → IsSeenByCalls image.now heap.now stack.old h → IsAtInsn h insn.now op → CallFits image.now op → CallerStands h → is_call h op ≡ true →
        Leads {E = AllocError} (Ok result) (act h op) (LeavesStack h.shared stack.old stack.new) (stack.new ≡ stack.old) }

    // Any other operation.
    ensures other { (h : At) (op : Operation) → IsSeenByCalls image.now heap.now stack.old h → IsAtInsn h insn.now op → CallFits image.now op → is_call h op ≡ false → stack.new ≡ stack.old }
{
    let Some(head) = stack.head() else {
        return Next::On;
    };
    let Some(code) = coded_at(image, head.method) else {
        return Next::On;
    };
    if head.at as usize >= units_of(&code).len() {
        return Next::On;
    }
    match resolve(image, &code, head.at, insn) {
        Ok(op) => operate(image, heap, stack, op),
        Err(_) => Next::On,
    }
}

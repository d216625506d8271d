// The rules, asked of a method's number and an address.
ghost use Rattle.std.specs.Prelude.{◌≡◌, ℕ, Some, IfOk, length};
ghost use Rattle.dv_typing.specs.Demands.{ok as broken_at};
ghost use Rattle.dv_defs.specs.Op.{Code, code_at};
ghost use Rattle.dv_typing.specs.Statics.{At};
ghost use Rattle.dv_typing.specs.Transfer.{entry_state as state_on_entry, out as state_after};
ghost use Rattle.law_flow.specs.Clean.{IsClean};
ghost use Rattle.dv_ops.specs.Meaning.{code_of};
ghost use Rattle.dv_rules.specs.Asking.{HasCode, HasInsn, HasOp};
ghost use Rattle.dv_rules.specs.Edges.{edges_of};

use crate::entry::entry_of;
use crate::flow::{Edge, edges_from};
use crate::receiver::class_to_make;
use crate::transfer::out_of;
use dv_defs::{Image, MethodId, Rule};
use dv_demands::ok_of;
use dv_ops::{Coded, coded_at, op_at};
use dv_typing::RegState;
use std::alloc::{AllocError, Global};

/// The state on entry to a method.
pub fn entry_state(alloc: Global, image: &Image, method: MethodId) -> Result<RegState, AllocError>
    requires { (code : Code) × HasCode image.now method.0 code }
    ensures { (code : Code) → HasCode image.now method.0 code → IfOk result (λ s. s ≡ state_on_entry image.now code.method code.body.registers) }
{
    let code = coded(image, method);
    entry_of(alloc, image, &code)
}

/// The state after the instruction at an address, by the state before it.
pub fn out(
    alloc: Global,
    image: &Image,
    method: MethodId,
    at: u32,
    state: &RegState,
) -> Result<RegState, AllocError>
    requires { (code : Code) × HasInsn image.now method.0 at code × (length state.now.regs ≡ code.body.registers) }
    ensures { (code : Code) (x : At) → HasOp image.now method.0 at code x → IfOk result (λ s. s ≡ state_after image.now code.method at x.op state.now) }
{
    let code = coded(image, method);
    let (op, _) = op_at(image, &code, at);
    let made = class_to_make(image, &code, &op, state);
    out_of(alloc, image, &code, at, &op, made, state)
}

/// The rule of the first demand of the instruction at an address that the state before it fails; none where the state is good. Takes
/// no memory.
pub fn ok(image: &Image, method: MethodId, at: u32, state: &RegState) -> Option<Rule>
    requires { (code : Code) × HasInsn image.now method.0 at code × (length state.now.regs ≡ code.body.registers) }
    ensures { (code : Code) (x : At) → HasOp image.now method.0 at code x → result ≡ broken_at image.now code.method x state.now }
{
    let code = coded(image, method);
    let (op, next) = op_at(image, &code, at);
    let made = class_to_make(image, &code, &op, state);
    ok_of(image, &code, &op, next, made, state)
}

/// The edges along which states flow from the instruction at an address.
pub fn edges(
    alloc: Global,
    image: &Image,
    method: MethodId,
    at: u32,
) -> Result<Vec<Edge>, AllocError>
    requires { (code : Code) × HasInsn image.now method.0 at code }
    ensures { (code : Code) (x : At) → HasOp image.now method.0 at code x → IfOk result (λ v. v.items ≡ edges_of image.now code at x) }
{
    let code = coded(image, method);
    let (op, next) = op_at(image, &code, at);
    edges_from(alloc, image, &code, at, &op, next)
}

/// The method of a number with its body, which breaks no static rule.
fn coded(image: &Image, method: MethodId) -> Coded<'_>
    requires { (code : Code) × HasCode image.now method.0 code }
    ensures code_is { code_at image.now method.0 ≡ Some (code_of result) }
    ensures own { result.method.id.0 ≡ method.0 }
    ensures clean { IsClean image.now (code_of result) }
{
    match coded_at(image, method) {
        Some(code) => code,
        None => unreachable!(),
    }
}

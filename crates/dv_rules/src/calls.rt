// What calls change.
ghost use Rattle.std.specs.Prelude.{◌≡◌, IfOk};
ghost use Rattle.dv_defs.specs.Op.{named_registers};
ghost use Rattle.dv_typing.specs.Transfer.{first_of, pending_of as pending_result};
ghost use Rattle.dv_ops.specs.Meaning.{method_of};
ghost use Rattle.dv_rules.specs.Changes.{call_change, pending_with, receiver_in};

use crate::changes::Change;
use crate::registers::{is_long, single_type};
use dv_defs::{ClassId, Regs, Ty};
use dv_demands::is_constructor;
use dv_ops::{Coded, Method};
use dv_typing::{PendingType, RegState, RegType};
use std::alloc::AllocError;

/// A constructor call initialises its receiver, in each register that holds it.
pub fn change_of_call(
    code: &Coded<'_>,
    regs: &[RegType],
    args: &Regs,
    method: &Method<'_>,
    made: Option<ClassId>,
) -> Change
    ensures { result ≡ call_change (method_of code.now.method) made (receiver_in regs.now (named_registers args.now) (method_of method.now)) }
{
    if !is_constructor(method) {
        return Change::Nothing;
    }
    match regs.get(first_register(args) as usize) {
        Some(RegType::Uninit(at)) => Change::Made(*at, made),
        Some(RegType::UninitThis) => Change::This(code.method.info.class),
        _ => Change::Lost,
    }
}

/// The first register that an instruction names.
#[tactic(auto, using(crate::proofs::Calling::none_named, crate::proofs::Calling::first_named))]
pub fn first_register(args: &Regs) -> u16
    ensures { result ≡ first_of (named_registers args.now) }
{
    if args.count == 0 { 0 } else { args.first[0] }
}

/// The pending result of a call.
pub fn pending_of(ret: &Option<Ty>) -> Result<PendingType, AllocError>
    ensures { IfOk result (λ p. p ≡ pending_result ret.now) }
{
    match ret {
        Some(ty) => pending_value(ty),
        None => Ok(PendingType::None),
    }
}

fn pending_value(ty: &Ty) -> Result<PendingType, AllocError>
    ensures { IfOk result (λ p. p ≡ pending_result (Some ty.now)) }
{
    if is_long(ty) {
        Ok(PendingType::Long)
    } else {
        Ok(PendingType::One(single_type(ty)?))
    }
}

/// Whether `this` is pending after a call.
pub fn this_after_call(state: &RegState, args: &Regs, method: &Method<'_>) -> bool
    ensures { result ≡ pending_with (receiver_in state.now.regs (named_registers args.now) (method_of method.now)) state.now.this_pending }
{
    if !is_constructor(method) {
        return state.this_pending;
    }
    match state.regs.items().get(first_register(args) as usize) {
        Some(RegType::UninitThis) => false,
        _ => state.this_pending,
    }
}

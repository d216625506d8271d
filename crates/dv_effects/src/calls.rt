// What calls do, and what they leave pending.
ghost use Rattle.std.specs.Prelude.{◌≡◌, IfOk, OnOk, Some};
ghost use Rattle.dv_defs.specs.Op.{named_registers};
ghost use Rattle.dv_typing.specs.Transfer.{first_of, pending_of as pending_result};
ghost use Rattle.dv_bases.specs.Bases.{IsWider};
ghost use Rattle.dv_ops.specs.Meaning.{method_of};
ghost use Rattle.dv_effects.specs.Effects.{call_effect};
ghost use Rattle.dv_effects.specs.Said.{SaysPending};

use crate::effects::Effect;
use crate::types::{is_long, reference_word, single_word};
use dv_bases::{Bases, PendingWord};
use dv_defs::{Regs, Ty};
use dv_demands::is_constructor;
use dv_ops::Method;
use dv_typing::{PendingType, RegType};
use std::alloc::AllocError;

/// A constructor initialises its receiver; another call changes no register.
pub fn effect_of_call(args: &Regs, method: &Method<'_>) -> Effect
    ensures { result ≡ call_effect (named_registers args.now) (method_of method.now) }
{
    if is_constructor(method) {
        Effect::Construct(first_register(args))
    } else {
        Effect::Nothing
    }
}

/// The first register that an instruction names.
#[tactic(auto, using(crate::proofs::Calling::none_named, crate::proofs::Calling::first_named))]
fn first_register(args: &Regs) -> u16
    ensures { result ≡ first_of (named_registers args.now) }
{
    if args.count == 0 { 0 } else { args.first[0] }
}

/// The pending result of a call.
pub fn pending_of_call(bases: &mut Bases<'_>, ret: &Option<Ty>) -> Result<PendingWord, AllocError>
    ensures wider { OnOk result (IsWider bases.old bases.new) }
    ensures told { IfOk result (λ p. SaysPending bases.new p (pending_result ret.now)) }
{
    match ret {
        Some(ty) => pending_value(bases, ty),
        None => Ok(PendingWord::None),
    }
}

fn pending_value(bases: &mut Bases<'_>, ty: &Ty) -> Result<PendingWord, AllocError>
    ensures wider { OnOk result (IsWider bases.old bases.new) }
    ensures told { IfOk result (λ p. SaysPending bases.new p (pending_result (Some ty.now))) }
{
    if is_long(ty) {
        Ok(PendingWord::Long)
    } else {
        Ok(PendingWord::One(single_word(bases, ty)?))
    }
}

/// The pending result that filled-new-array leaves.
pub fn pending_array(bases: &mut Bases<'_>, ty: &Ty) -> Result<PendingWord, AllocError>
    ensures wider { OnOk result (IsWider bases.old bases.new) }
    ensures told { IfOk result (λ p. SaysPending bases.new p (PendingType.One (RegType.Class ty.now))) }
{
    Ok(PendingWord::One(reference_word(bases, ty)?))
}

// The steps of instructions.
ghost use Rattle.std.specs.Prelude.{◌≡◌, ◌<◌, ℕ, IfOk, OnOk, IfSome, option_map};
ghost use Rattle.dv_defs.specs.Body.{most_units};
ghost use Rattle.dv_defs.specs.Op.{Code};
ghost use Rattle.dv_defs.specs.Pools as pools;
ghost use Rattle.dv_typing.specs.declared.typing.RegState.{RegState};
ghost use Rattle.dv_typing.specs.RegTypes.{type_at};
ghost use Rattle.dv_typing.specs.Demands.{made_by as made_by_operation};
ghost use Rattle.dv_typing.specs.Transfer.{after_get, const_type, out, write_for, write_type};
ghost use Rattle.dv_defs.specs.Types.{of_class};
ghost use Rattle.dv_bases.specs.Bases.{IsWider, IsWord, Names, word_type};
ghost use Rattle.dv_units.specs.Tables.{standard_suffix};
ghost use Rattle.dv_ops.specs.Meaning.{meant};
ghost use Rattle.dv_effects.specs.Effects.{HasWords, IsStep, object_type, pending_left, registers_after, this_after};
ghost use Rattle.dv_effects.specs.Said.{SaysPending};

use crate::calls::{effect_of_call, pending_array, pending_of_call};
use crate::effects::{Effect, Step};
use crate::types::{is_long, named_word, object_word, reference_word, single_word};
use dv_bases::{Bases, Part, PendingWord, word_of};
use dv_defs::{Image, Ty};
use dv_ops::{Field, Op};
use dv_optable::Suffix;
use dv_typing::RegType;
use std::alloc::{AllocError, Global};

const CLASS: &[u8] = b"Ljava/lang/Class;";

const STRING: &[u8] = b"Ljava/lang/String;";

/// The step of the operation at an address.
pub fn step_of(
    bases: &mut Bases<'_>,
    alloc: Global,
    image: &Image,
    at: u32,
    op: &Op<'_>,
) -> Result<Step, AllocError>
    requires image { bases.old.image ≡ image.now }
    requires short { at < most_units }
    ensures wider { OnOk result (IsWider bases.old bases.new) }
    ensures step { (code : Code) → IfOk result (IsStep bases.new code at (meant code at op.now)) }
{
    let effect = effect_of(bases, alloc, at, op)?;
    let pending = pending_after(bases, op)?;
    let makes = class_made(bases, alloc, image, op)?;
    Ok(Step {
        effect,
        pending,
        makes,
    })
}

/// What an operation does to registers.
fn effect_of(
    bases: &mut Bases<'_>,
    alloc: Global,
    at: u32,
    op: &Op<'_>,
) -> Result<Effect, AllocError>
    requires { at < most_units }
    ensures wider { OnOk result (IsWider bases.old bases.new) }
    ensures words { IfOk result (HasWords bases.new) }
    ensures registers { (code : Code) (s : RegState) → IfOk result (λ e. registers_after bases.new code.method e s ≡ (out bases.new.image code.method at (meant code at op.now) s).regs) }
    ensures this { (code : Code) (s : RegState) → IfOk result (λ e. this_after e s ≡ (out bases.new.image code.method at (meant code at op.now) s).this_pending) }
{
    match op {
        Op::MoveInt(a, b) => Ok(Effect::CopyInt(*a, *b)),
        Op::MoveObject(a, b) => Ok(Effect::CopyObject(*a, *b)),
        Op::ResultInt(a) => Ok(Effect::ResultInt(*a)),
        Op::ResultLong(a) => Ok(Effect::ResultLong(*a)),
        Op::ResultObject(a) => Ok(Effect::ResultObject(*a)),
        Op::TakeCaught(a) => Ok(Effect::Caught(*a)),
        Op::Const(a, n) => Ok(constant(*a, *n)),
        Op::ConstString(a, _) => put_named(bases, alloc, *a, STRING),
        Op::ConstClass(a, _) => put_named(bases, alloc, *a, CLASS),
        Op::Cast(a, ty) | Op::NewArray(a, _, ty) => put_reference(bases, *a, ty),
        Op::New(a, _) => Ok(Effect::New(*a, at)),
        Op::ArrayGet(suffix, a, b, _) => Ok(element_got(*suffix, *a, *b)),
        Op::FieldGet(_, a, _, field) | Op::StaticGet(_, a, field) => value_got(bases, *a, field),
        Op::Invoke(_, args, method) => Ok(effect_of_call(args, method)),
        Op::IntUnary(_, a, _)
        | Op::LongToInt(a, _)
        | Op::IntOp(_, a, _, _)
        | Op::CompareLong(a, _, _)
        | Op::IntDivide(_, a, _, _)
        | Op::InstanceOf(a, _, _)
        | Op::ArrayLength(a, _) => Ok(put_int(*a)),
        Op::MoveLong(a, _)
        | Op::ConstLong(a, _)
        | Op::LongUnary(_, a, _)
        | Op::IntToLong(a, _)
        | Op::LongOp(_, a, _, _)
        | Op::LongShift(_, a, _, _)
        | Op::LongDivide(_, a, _, _) => Ok(Effect::PutLong(*a)),
        _ => Ok(Effect::Nothing),
    }
}

/// A register takes an int.
fn put_int(a: u16) -> Effect
    ensures words { (names : Names) → HasWords names result }
    ensures registers { (names : Names) (m : pools.Method) (s : RegState) → registers_after names m result s ≡ write_type s.regs a RegType.Int }
    ensures this { (s : RegState) → this_after result s ≡ s.this_pending }
{
    Effect::Put(a, word_of(Part::Int))
}

/// A register takes a constant.
#[tactic(auto, using(crate::proofs::Constants::zero_const, crate::proofs::Constants::other_const))]
fn constant(a: u16, n: i64) -> Effect
    ensures words { (names : Names) → HasWords names result }
    ensures registers { (names : Names) (m : pools.Method) (s : RegState) → registers_after names m result s ≡ write_type s.regs a (const_type n) }
    ensures this { (s : RegState) → this_after result s ≡ s.this_pending }
{
    if n == 0 {
        Effect::Put(a, word_of(Part::Zero))
    } else {
        Effect::Put(a, word_of(Part::Int))
    }
}

/// A register takes an object of the class of a name.
fn put_named(
    bases: &mut Bases<'_>,
    alloc: Global,
    a: u16,
    name: &[u8],
) -> Result<Effect, AllocError>
    ensures wider { OnOk result (IsWider bases.old bases.new) }
    ensures words { IfOk result (HasWords bases.new) }
    ensures registers { (m : pools.Method) (s : RegState) → IfOk result (λ e. registers_after bases.new m e s ≡ write_type s.regs a (RegType.Class (of_class name.now))) }
    ensures this { (s : RegState) → IfOk result (λ e. this_after e s ≡ s.this_pending) }
{
    Ok(Effect::Put(a, named_word(bases, alloc, name)?))
}

/// A register takes an object of a class or an array.
fn put_reference(bases: &mut Bases<'_>, a: u16, ty: &Ty) -> Result<Effect, AllocError>
    ensures wider { OnOk result (IsWider bases.old bases.new) }
    ensures words { IfOk result (HasWords bases.new) }
    ensures registers { (m : pools.Method) (s : RegState) → IfOk result (λ e. registers_after bases.new m e s ≡ write_type s.regs a (RegType.Class ty.now)) }
    ensures this { (s : RegState) → IfOk result (λ e. this_after e s ≡ s.this_pending) }
{
    Ok(Effect::Put(a, reference_word(bases, ty)?))
}

/// A register takes an element of an array.
fn element_got(suffix: Suffix, a: u16, b: u16) -> Effect
    ensures words { (names : Names) → HasWords names result }
    ensures registers { (names : Names) (m : pools.Method) (s : RegState) → registers_after names m result s ≡ after_get s.regs a (standard_suffix suffix) (type_at s.regs b) }
    ensures this { (s : RegState) → this_after result s ≡ s.this_pending }
{
    match suffix {
        Suffix::Long => Effect::PutLong(a),
        Suffix::Object => Effect::Element(a, b),
        _ => put_int(a),
    }
}

/// A register takes the value of a field.
fn value_got(bases: &mut Bases<'_>, a: u16, field: &Field<'_>) -> Result<Effect, AllocError>
    ensures wider { OnOk result (IsWider bases.old bases.new) }
    ensures words { IfOk result (HasWords bases.new) }
    ensures registers { (m : pools.Method) (s : RegState) → IfOk result (λ e. registers_after bases.new m e s ≡ write_for s.regs a field.now.def.now.ty) }
    ensures this { (s : RegState) → IfOk result (λ e. this_after e s ≡ s.this_pending) }
{
    let def = field.def;
    if is_long(&def.ty) {
        Ok(Effect::PutLong(a))
    } else {
        Ok(Effect::Put(a, single_word(bases, &def.ty)?))
    }
}

/// The pending result after an operation.
fn pending_after(bases: &mut Bases<'_>, op: &Op<'_>) -> Result<PendingWord, AllocError>
    ensures wider { OnOk result (IsWider bases.old bases.new) }
    ensures told { (code : Code) (at : ℕ) → IfOk result (λ p. SaysPending bases.new p (pending_left (meant code at op.now))) }
{
    match op {
        Op::Filled(_, ty) => pending_array(bases, ty),
        Op::Invoke(_, _, method) => pending_of_call(bases, &method.def.proto.ret),
        _ => Ok(PendingWord::None),
    }
}

/// The word of the class whose objects an operation makes.
fn class_made(
    bases: &mut Bases<'_>,
    alloc: Global,
    image: &Image,
    op: &Op<'_>,
) -> Result<Option<u32>, AllocError>
    ensures wider { OnOk result (IsWider bases.old bases.new) }
    ensures word { IfOk result (λ w. IfSome w (IsWord bases.new)) }
    ensures told { (code : Code) (at : ℕ) → IfOk result (λ w. option_map (word_type bases.new) w ≡ option_map (object_type image.now) (made_by_operation (meant code at op.now))) }
{
    match op {
        Op::New(_, class) => Ok(Some(object_word(bases, alloc, image, *class)?)),
        _ => Ok(None),
    }
}

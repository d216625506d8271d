// What instructions make of states.
ghost use Rattle.std.specs.Prelude.{◌≡◌, ◌<◌, ℕ, true, ◌&&◌, IfOk, option_map};
ghost use Rattle.dv_typing.specs.Flow.{caught_state};
ghost use Rattle.dv_defs.specs.Images as images;
ghost use Rattle.dv_defs.specs.Op.{Code};
ghost use Rattle.dv_typing.specs.RegTypes.{Types, type_at};
ghost use Rattle.dv_typing.specs.Transfer.{after_get, after_result_long, caught_type as type_caught, const_type as type_of_const, copied_int as int_copied, copied_object as object_copied, object_element as element_of, out, result_int as int_result, result_ref as reference_result, write_for};
ghost use Rattle.dv_defs.specs.Types.{component as component_of, is_array as is_array_type, is_reference as is_reference_type, of_class};
ghost use Rattle.dv_units.specs.Tables.{standard_suffix};
ghost use Rattle.dv_ops.specs.Meaning.{code_of, meant, method_of};
ghost use Rattle.dv_rules.specs.Changes.{changed as registers_after, pending_after as pending_left, this_after as this_left};
ghost use Rattle.dv_demands.specs.Made.{made_for};

use crate::calls::{change_of_call, pending_of, this_after_call};
use crate::changes::{Change, changed};
use crate::registers::{is_long, single_type};
use dv_defs::{Base, ClassId, Image, Seq, Text, Ty};
use dv_ops::{Coded, Field, Op};
use dv_optable::Suffix;
use dv_typing::{PendingType, RegState, RegType};
use std::alloc::{AllocError, Global};

const CLASS: &[u8] = b"Ljava/lang/Class;";

const STRING: &[u8] = b"Ljava/lang/String;";

/// The state after the operation at an address. `made` is the class of the object that a constructor call is to initialise.
#[tactic(auto, using(crate::proofs::Leaving::parts))]
pub fn out_of(
    alloc: Global,
    image: &Image,
    code: &Coded<'_>,
    at: u32,
    op: &Op<'_>,
    made: Option<ClassId>,
    state: &RegState,
) -> Result<RegState, AllocError>
    requires { option_map (λ c. c.0) made ≡ made_for image.now (method_of code.now.method) (meant (code_of code.now) at op.now) state.now.regs }
    ensures { IfOk result (λ s. s ≡ out image.now (method_of code.now.method) at (meant (code_of code.now) at op.now) state.now) }
{
    let change = change_of(alloc, image, code, at, op, made, state)?;
    let regs = changed(alloc, image, state.regs.items(), change)?;
    match pending_after(op) {
        Ok(result) => Ok(RegState {
            regs: Seq::of(regs),
            result,
            caught: None,
            this_pending: this_after(op, state),
        }),
        Err(error) => {
            drop(regs);
            Err(error)
        }
    }
}

/// The state with which a handler for a type is entered.
pub fn caught_with(state: &RegState, ty: Ty) -> Result<RegState, AllocError>
    ensures { IfOk result (λ s. s ≡ caught_state state.now (record { ty = Some ty; to = 0 })) }
{
    Ok(RegState {
        regs: state.regs.clone()?,
        result: PendingType::None,
        caught: Some(ty),
        this_pending: state.this_pending,
    })
}

/// What an operation changes of the registers.
#[tactic(auto, using(crate::proofs::Calling::called))]
fn change_of(
    alloc: Global,
    image: &Image,
    code: &Coded<'_>,
    at: u32,
    op: &Op<'_>,
    made: Option<ClassId>,
    state: &RegState,
) -> Result<Change, AllocError>
    requires { option_map (λ c. c.0) made ≡ made_for image.now (method_of code.now.method) (meant (code_of code.now) at op.now) state.now.regs }
    ensures { IfOk result (λ c. registers_after image.now c state.now.regs ≡ (out image.now (method_of code.now.method) at (meant (code_of code.now) at op.now) state.now).regs) }
{
    let regs = state.regs.items();
    let (a, ty) = match op {
        Op::MoveInt(a, b) => return Ok(Change::One(*a, copied_int(regs, *b))),
        Op::MoveObject(a, b) => (*a, copied_object(regs, *b)),
        Op::ResultInt(a) => return Ok(Change::One(*a, result_int(&state.result))),
        Op::ResultLong(a) => return Ok(result_long(*a, &state.result)),
        Op::ResultObject(a) => (*a, result_object(&state.result)),
        Op::TakeCaught(a) => (*a, caught_type(&state.caught)),
        Op::Const(a, n) => return Ok(Change::One(*a, const_type(*n))),
        Op::ConstString(a, _) => (*a, type_named(alloc, STRING)),
        Op::ConstClass(a, _) => (*a, type_named(alloc, CLASS)),
        Op::Cast(a, ty) | Op::NewArray(a, _, ty) => (*a, type_of(ty)),
        Op::New(a, _) => return Ok(Change::New(*a, at)),
        Op::ArrayGet(suffix, a, b, _) => return element_got(*suffix, *a, regs, *b),
        Op::FieldGet(_, a, _, field) | Op::StaticGet(_, a, field) => return value_got(*a, field),
        Op::Invoke(_, args, method) => return Ok(change_of_call(code, regs, args, method, made)),
        Op::IntUnary(_, a, _)
        | Op::LongToInt(a, _)
        | Op::IntOp(_, a, _, _)
        | Op::CompareLong(a, _, _)
        | Op::IntDivide(_, a, _, _)
        | Op::InstanceOf(a, _, _)
        | Op::ArrayLength(a, _) => return Ok(Change::One(*a, RegType::Int)),
        Op::MoveLong(a, _)
        | Op::ConstLong(a, _)
        | Op::LongUnary(_, a, _)
        | Op::IntToLong(a, _)
        | Op::LongOp(_, a, _, _)
        | Op::LongShift(_, a, _, _)
        | Op::LongDivide(_, a, _, _) => return Ok(Change::Two(
            *a,
            RegType::LongLo,
            RegType::LongHi,
        )),
        _ => return Ok(Change::Nothing),
    };
    Ok(Change::One(a, ty?))
}

/// A type that is known, in a register.
fn type_of(ty: &Ty) -> Result<RegType, AllocError>
    ensures { IfOk result (λ t. t ≡ RegType.Class ty.now) }
{
    Ok(RegType::Class(ty.clone()?))
}

fn copied_int(regs: &[RegType], b: u16) -> RegType
    ensures { result ≡ int_copied (type_at regs.now b) }
{
    match regs.get(b as usize) {
        Some(RegType::Zero) => RegType::Zero,
        Some(RegType::Int) => RegType::Int,
        _ => RegType::Conflict,
    }
}

fn copied_object(regs: &[RegType], b: u16) -> Result<RegType, AllocError>
    ensures { IfOk result (λ t. t ≡ object_copied (type_at regs.now b)) }
{
    match regs.get(b as usize) {
        Some(ty) => copied(ty),
        None => Ok(RegType::Conflict),
    }
}

fn copied(ty: &RegType) -> Result<RegType, AllocError>
    ensures { IfOk result (λ t. t ≡ object_copied ty.now) }
{
    match ty {
        RegType::Zero | RegType::Class(_) | RegType::Uninit(_) | RegType::UninitThis => ty.clone(),
        _ => Ok(RegType::Conflict),
    }
}

fn result_int(pending: &PendingType) -> RegType
    ensures { result ≡ int_result pending.now }
{
    match pending {
        PendingType::One(RegType::Int) => RegType::Int,
        _ => RegType::Conflict,
    }
}

fn result_object(pending: &PendingType) -> Result<RegType, AllocError>
    ensures { IfOk result (λ t. t ≡ reference_result pending.now) }
{
    match pending {
        PendingType::One(RegType::Class(ty)) => Ok(RegType::Class(ty.clone()?)),
        _ => Ok(RegType::Conflict),
    }
}

/// The halves of a long result; without one both registers are unknown.
fn result_long(a: u16, pending: &PendingType) -> Change
    ensures { (image : images.Image) (ts : Types) → registers_after image result ts ≡ after_result_long ts a pending.now }
{
    match pending {
        PendingType::Long => Change::Two(a, RegType::LongLo, RegType::LongHi),
        _ => Change::Two(a, RegType::Conflict, RegType::Conflict),
    }
}

fn caught_type(caught: &Option<Ty>) -> Result<RegType, AllocError>
    ensures { IfOk result (λ t. t ≡ type_caught caught.now) }
{
    match caught {
        Some(ty) => Ok(RegType::Class(ty.clone()?)),
        None => Ok(RegType::Conflict),
    }
}

#[tactic(auto, using(crate::proofs::Constants::zero_const, crate::proofs::Constants::other_const))]
fn const_type(n: i64) -> RegType
    ensures { result ≡ type_of_const n }
{
    if n == 0 { RegType::Zero } else { RegType::Int }
}

fn type_named(alloc: Global, name: &[u8]) -> Result<RegType, AllocError>
    ensures { IfOk result (λ t. t ≡ RegType.Class (of_class name.now)) }
{
    let name = Text::of(Vec::from_slice(alloc, name)?)?;
    Ok(RegType::Class(Ty {
        dims: 0,
        base: Base::Class(name),
    }))
}

/// An element of an array.
fn element_got(suffix: Suffix, a: u16, regs: &[RegType], b: u16) -> Result<Change, AllocError>
    ensures { (image : images.Image) (ts : Types) → IfOk result (λ c. registers_after image c ts ≡ after_get ts a (standard_suffix suffix) (type_at regs.now b)) }
{
    match suffix {
        Suffix::Long => Ok(Change::Two(a, RegType::LongLo, RegType::LongHi)),
        Suffix::Object => Ok(Change::One(a, object_element(regs, b)?)),
        _ => Ok(Change::One(a, RegType::Int)),
    }
}

fn object_element(regs: &[RegType], b: u16) -> Result<RegType, AllocError>
    ensures { IfOk result (λ t. t ≡ element_of (type_at regs.now b)) }
{
    match regs.get(b as usize) {
        Some(RegType::Zero) => Ok(RegType::Zero),
        Some(RegType::Class(ty)) => component(ty),
        _ => Ok(RegType::Conflict),
    }
}

/// The type of an array's elements, where they are references.
fn component(ty: &Ty) -> Result<RegType, AllocError>
    ensures { IfOk result (λ t. t ≡ element_of (RegType.Class ty.now)) }
{
    if holds_references(ty) {
        Ok(RegType::Class(Ty {
            dims: ty.dims - 1,
            base: ty.base.clone()?,
        }))
    } else {
        Ok(RegType::Conflict)
    }
}

fn holds_references(ty: &Ty) -> bool
    ensures holds { result ≡ (is_array_type ty.now && is_reference_type (component_of ty.now)) }
    ensures array { result ≡ true → 0 < ty.now.dims }
{
    ty.dims > 0 && (ty.dims - 1 > 0 || matches!(ty.base, Base::Class(_)))
}

/// The value of a field.
fn value_got(a: u16, field: &Field<'_>) -> Result<Change, AllocError>
    ensures { (image : images.Image) (ts : Types) → IfOk result (λ c. registers_after image c ts ≡ write_for ts a field.now.def.now.ty) }
{
    let def = field.def;
    if is_long(&def.ty) {
        Ok(Change::Two(a, RegType::LongLo, RegType::LongHi))
    } else {
        match single_type(&def.ty) {
            Ok(ty) => Ok(Change::One(a, ty)),
            Err(error) => Err(error),
        }
    }
}

/// The pending result after an operation.
fn pending_after(op: &Op<'_>) -> Result<PendingType, AllocError>
    ensures { (code : Code) (at : ℕ) → IfOk result (λ p. p ≡ pending_left (meant code at op.now)) }
{
    match op {
        Op::Filled(_, ty) => Ok(PendingType::One(RegType::Class((*ty).clone()?))),
        Op::Invoke(_, _, method) => pending_of(&method.def.proto.ret),
        _ => Ok(PendingType::None),
    }
}

/// Whether `this` is pending after an operation.
fn this_after(op: &Op<'_>, state: &RegState) -> bool
    ensures { (code : Code) (at : ℕ) → result ≡ this_left (meant code at op.now) state.now }
{
    match op {
        Op::Invoke(_, args, method) => this_after_call(state, args, method),
        _ => state.this_pending,
    }
}

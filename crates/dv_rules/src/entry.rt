// The state on entry to a method.
ghost use Rattle.std.specs.Prelude.{◌≡◌, ◌∷◌, [], ◌++◌, ◌-◌, false, length, replicate, IfOk, OnOk};
ghost use Rattle.dv_defs.specs.Pools.{is_of_object as is_of_object_class, is_static};
ghost use Rattle.dv_typing.specs.RegTypes.{all_types, reg_types};
ghost use Rattle.dv_typing.specs.Transfer.{arg_types as types_of_args, begins_uninitialised as is_uninitialised, entry_state, receiver_type};
ghost use Rattle.dv_ops.specs.Meaning.{method_of};

use crate::registers::{class_type, is_long, single_type};
use dv_defs::{Flag, Image, Seq, Ty};
use dv_demands::is_constructor;
use dv_ops::{Coded, Method};
use dv_typing::{PendingType, RegState, RegType};
use std::alloc::{AllocError, Global};

const OBJECT: &[u8] = b"Ljava/lang/Object;";

/// The state on entry: the arguments stand in the last registers, and what is below them is not known.
pub fn entry_of(alloc: Global, image: &Image, code: &Coded<'_>) -> Result<RegState, AllocError>
    ensures { IfOk result (λ s. s ≡ entry_state image.now (method_of code.now.method) code.now.body.now.registers) }
{
    let body = code.body;
    let args = arg_types(alloc, image, &code.method)?;
    let regs = after_unknown(alloc, body.registers as usize, args)?;
    Ok(RegState {
        regs: Seq::of(regs),
        result: PendingType::None,
        caught: None,
        this_pending: begins_uninitialised(image, &code.method),
    })
}

/// The types of arguments as the last of so many registers.
fn after_unknown(
    alloc: Global,
    count: usize,
    args: Vec<RegType>,
) -> Result<Vec<RegType>, AllocError>
    ensures { IfOk result (λ v. v.items ≡ replicate (count - length args.items) RegType.Conflict ++ args.items) }
{
    let mut regs = unknown(alloc, count.saturating_sub(args.len()))?;
    for ty in args {
        regs.push(ty)?;
    }
    Ok(regs)
}

/// What is known of so many registers below the arguments: nothing.
fn unknown(alloc: Global, count: usize) -> Result<Vec<RegType>, AllocError>
    ensures { IfOk result (λ v. v.items ≡ replicate count RegType.Conflict) }
{
    let mut regs = Vec::with_capacity(alloc, count)?;
    for _ in 0..count {
        regs.push(RegType::Conflict)?;
    }
    Ok(regs)
}

/// The types of a method's arguments, the receiver's first.
fn arg_types(alloc: Global, image: &Image, method: &Method<'_>) -> Result<Vec<RegType>, AllocError>
    ensures { IfOk result (λ v. v.items ≡ types_of_args image.now (method_of method.now)) }
{
    let mut types = receiver_types(alloc, image, method)?;
    let def = method.def;
    push_types(&mut types, def.proto.params.items())?;
    Ok(types)
}

/// The receiver on entry: in a constructor other than Object's it is not yet initialised.
fn receiver_types(
    alloc: Global,
    image: &Image,
    method: &Method<'_>,
) -> Result<Vec<RegType>, AllocError>
    ensures { IfOk result (λ v. v.items ≡ receiver_type image.now (method_of method.now)) }
{
    let mut types = Vec::new(alloc);
    if !Flag::Static.is_in(method.def.flags) {
        push_receiver(alloc, image, method, &mut types)?;
    }
    Ok(types)
}

/// Adds the receiver of a method that has one.
fn push_receiver(
    alloc: Global,
    image: &Image,
    method: &Method<'_>,
    types: &mut Vec<RegType>,
) -> Result<(), AllocError>
    requires { is_static (method_of method.now) ≡ false }
    ensures { OnOk result (types.new.items ≡ types.old.items ++ receiver_type image.now (method_of method.now)) }
{
    if begins_uninitialised(image, method) {
        types.push(RegType::UninitThis)?;
    } else {
        let class = class_type(alloc, image, method.info.class)?;
        types.push(RegType::Class(class))?;
    }
    Ok(())
}

fn begins_uninitialised(image: &Image, method: &Method<'_>) -> bool
    ensures { result ≡ is_uninitialised image.now (method_of method.now) }
{
    is_constructor(method) && !is_of_object(image, method)
}

/// Whether it is a method of Object itself.
fn is_of_object(image: &Image, method: &Method<'_>) -> bool
    ensures { result ≡ is_of_object_class image.now (method_of method.now) }
{
    match image.classes.items().get(method.info.class.0 as usize) {
        Some(info) => info.def.name.bytes() == OBJECT,
        None => false,
    }
}

/// Adds the register types of values of declared types.
fn push_types(types: &mut Vec<RegType>, params: &[Ty]) -> Result<(), AllocError>
    ensures { OnOk result (types.new.items ≡ types.old.items ++ all_types params.now) }
{
    for ty in params {
        push_type(types, ty)?;
    }
    Ok(())
}

/// Adds the register types of a value of a declared type.
fn push_type(types: &mut Vec<RegType>, ty: &Ty) -> Result<(), AllocError>
    ensures { OnOk result (types.new.items ≡ types.old.items ++ reg_types ty.now) }
{
    if is_long(ty) {
        push_one(types, RegType::LongLo)?;
        push_one(types, RegType::LongHi)
    } else {
        push_one(types, single_type(ty)?)
    }
}

/// Adds a register type.
fn push_one(types: &mut Vec<RegType>, ty: RegType) -> Result<(), AllocError>
    ensures { OnOk result (types.new.items ≡ types.old.items ++ ty ∷ []) }
{
    types.push(ty)?;
    Ok(())
}

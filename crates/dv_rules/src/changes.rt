// Changes of the types of registers.
ghost use Rattle.std.specs.Prelude.{◌≡◌, ◌∷◌, ◌++◌, [], IfOk, OnOk, map};
ghost use Rattle.dv_defs.specs.Pools.{class_type as type_of_class};
ghost use Rattle.dv_typing.specs.Transfer.{class_or_conflict as class_or_unknown, lost as lost_type, replaced as replaced_type, replaced_this as replaced_this_type};
ghost use Rattle.dv_rules.specs.Changes.{changed as registers_after, number, renewed as renewed_by, written};

use crate::registers::{class_type, write, write_pair};
use dv_defs::{ClassId, Image};
use dv_typing::RegType;
use std::alloc::{AllocError, Global};

/// What an operation changes of the types of registers.
#[derive(Drop)]
pub enum Change {
    Nothing,
    /// A register takes a type.
    One(u16, RegType),
    /// A register and the next take types at once.
    Two(u16, RegType, RegType),
    /// A register takes the object that the new-instance at an address makes; older objects of it aren't known any more.
    New(u16, u32),
    /// The object that the new-instance at an address made, of this class, is initialised.
    Made(u32, Option<ClassId>),
    /// `this`, of this class, is initialised.
    This(ClassId),
    /// No object that isn't initialised is known any more.
    Lost,
}

/// The registers after a change, from clones of the ones before it.
#[tactic(auto, using(crate::proofs::Renewing::written_anew))]
pub fn changed(
    alloc: Global,
    image: &Image,
    regs: &[RegType],
    change: Change,
) -> Result<Vec<RegType>, AllocError>
    ensures { IfOk result (λ v. v.items ≡ registers_after image.now change regs.now) }
{
    let mut after = renew(alloc, image, regs, &change)?;
    write_change(&mut after, change);
    Ok(after)
}

/// Writes what a change writes.
fn write_change(regs: &mut Vec<RegType>, change: Change)
    ensures { regs.new.items ≡ written change regs.old.items }
{
    match change {
        Change::One(k, ty) => write(regs, k, ty),
        Change::Two(k, lo, hi) => write_pair(regs, k, lo, hi),
        Change::New(k, at) => write(regs, k, RegType::Uninit(at)),
        Change::Nothing | Change::Made(_, _) | Change::This(_) | Change::Lost => {}
    }
}

/// Clones of the types, each as the change makes it.
fn renew(
    alloc: Global,
    image: &Image,
    regs: &[RegType],
    change: &Change,
) -> Result<Vec<RegType>, AllocError>
    ensures { IfOk result (λ v. v.items ≡ map (renewed_by image.now change.now) regs.now) }
{
    let mut after = Vec::with_capacity(alloc, regs.len())?;
    for ty in regs {
        push_renewed(alloc, image, change, ty, &mut after)?;
    }
    Ok(after)
}

/// Adds what becomes of a register's type.
fn push_renewed(
    alloc: Global,
    image: &Image,
    change: &Change,
    ty: &RegType,
    after: &mut Vec<RegType>,
) -> Result<(), AllocError>
    ensures { OnOk result (after.new.items ≡ after.old.items ++ renewed_by image.now change.now ty.now ∷ []) }
{
    let ty = renewed(alloc, image, change, ty)?;
    after.push(ty)?;
    Ok(())
}

/// What becomes of a register's type.
fn renewed(
    alloc: Global,
    image: &Image,
    change: &Change,
    ty: &RegType,
) -> Result<RegType, AllocError>
    ensures { IfOk result (λ t. t ≡ renewed_by image.now change.now ty.now) }
{
    match change {
        Change::New(_, at) => replaced(alloc, image, *at, None, ty),
        Change::Made(at, class) => replaced(alloc, image, *at, *class, ty),
        Change::This(class) => replaced_this(alloc, image, *class, ty),
        Change::Lost => lost(ty),
        Change::Nothing | Change::One(_, _) | Change::Two(_, _, _) => ty.clone(),
    }
}

/// The objects that the new-instance at an address made become ones of a class; unknown without a class.
fn replaced(
    alloc: Global,
    image: &Image,
    at: u32,
    class: Option<ClassId>,
    ty: &RegType,
) -> Result<RegType, AllocError>
    ensures { IfOk result (λ t. t ≡ replaced_type at (class_or_unknown image.now (number class)) ty.now) }
{
    match ty {
        RegType::Uninit(made) => {
            if at == *made {
                class_or_conflict(alloc, image, class)
            } else {
                Ok(RegType::Uninit(*made))
            }
        }
        _ => ty.clone(),
    }
}

/// An object of a class; unknown without a class.
fn class_or_conflict(
    alloc: Global,
    image: &Image,
    class: Option<ClassId>,
) -> Result<RegType, AllocError>
    ensures { IfOk result (λ t. t ≡ class_or_unknown image.now (number class)) }
{
    match class {
        Some(class) => Ok(RegType::Class(class_type(alloc, image, class)?)),
        None => Ok(RegType::Conflict),
    }
}

/// `this` becomes an object of a class.
fn replaced_this(
    alloc: Global,
    image: &Image,
    class: ClassId,
    ty: &RegType,
) -> Result<RegType, AllocError>
    ensures { IfOk result (λ t. t ≡ replaced_this_type (RegType.Class (type_of_class image.now class.0)) ty.now) }
{
    match ty {
        RegType::UninitThis => Ok(RegType::Class(class_type(alloc, image, class)?)),
        _ => ty.clone(),
    }
}

/// An object that isn't initialised isn't known any more.
fn lost(ty: &RegType) -> Result<RegType, AllocError>
    ensures { IfOk result (λ t. t ≡ lost_type ty.now) }
{
    match ty {
        RegType::Uninit(_) | RegType::UninitThis => Ok(RegType::Conflict),
        _ => ty.clone(),
    }
}

// Types of registers, and writes of them.
ghost use Rattle.std.specs.Prelude.{◌≡◌, ◌<◌, ◌+◌, ◌^◌, IfOk, slice_set};
ghost use Rattle.dv_typing.specs.Demands.{is_hi as is_hi_type, is_lo as is_lo_type};
ghost use Rattle.dv_defs.specs.Pools.{class_type as type_of_class};
ghost use Rattle.dv_typing.specs.RegTypes.{single_type as single_type_of, type_at};
ghost use Rattle.dv_typing.specs.Transfer.{break_before as broken_before, broken_hi, broken_lo, write_two, write_type};
ghost use Rattle.dv_defs.specs.Types.{is_long as is_long_type};

use dv_defs::{Base, ClassId, Image, Text, Ty};
use dv_typing::RegType;
use std::alloc::{AllocError, Global};

/// A register takes a type; a long that lay half there is broken.
#[tactic(auto, unfolding(dv_typing::specs::Transfer::write_type))]
pub fn write(regs: &mut Vec<RegType>, k: u16, ty: RegType)
    ensures { regs.new.items ≡ write_type regs.old.items k ty }
{
    break_before(regs, k);
    break_hi(regs, k as usize + 1);
    put(regs, k as usize, ty);
}

/// A register and the next take types at once.
#[tactic(auto, unfolding(dv_typing::specs::Transfer::write_two))]
pub fn write_pair(regs: &mut Vec<RegType>, k: u16, lo: RegType, hi: RegType)
    ensures { regs.new.items ≡ write_two regs.old.items k lo hi }
{
    break_before(regs, k);
    break_hi(regs, k as usize + 2);
    put(regs, k as usize, lo);
    put(regs, k as usize + 1, hi);
}

/// A low half of a long just before a register is broken.
#[tactic(auto, using(crate::proofs::Breaking::before))]
fn break_before(regs: &mut Vec<RegType>, k: u16)
    ensures { regs.new.items ≡ broken_before regs.old.items k }
{
    if k > 0 {
        break_lo(regs, k as usize - 1);
    }
}

/// A low half at a place is broken.
#[tactic(auto, using(crate::proofs::Breaking::kept_lo, crate::proofs::Breaking::broke_lo))]
fn break_lo(regs: &mut Vec<RegType>, k: usize)
    ensures { regs.new.items ≡ slice_set regs.old.items k (broken_lo (type_at regs.old.items k)) }
{
    if is_lo(regs.as_slice(), k) {
        put(regs, k, RegType::Conflict);
    }
}

/// A high half at a place is broken.
#[tactic(auto, using(crate::proofs::Breaking::kept_hi, crate::proofs::Breaking::broke_hi))]
fn break_hi(regs: &mut Vec<RegType>, k: usize)
    ensures { regs.new.items ≡ slice_set regs.old.items k (broken_hi (type_at regs.old.items k)) }
{
    if is_hi(regs.as_slice(), k) {
        put(regs, k, RegType::Conflict);
    }
}

fn is_lo(regs: &[RegType], k: usize) -> bool
    ensures { result ≡ is_lo_type (type_at regs.now k) }
{
    match regs.get(k) {
        Some(ty) => matches!(ty, RegType::LongLo),
        None => false,
    }
}

fn is_hi(regs: &[RegType], k: usize) -> bool
    ensures { result ≡ is_hi_type (type_at regs.now k) }
{
    match regs.get(k) {
        Some(ty) => matches!(ty, RegType::LongHi),
        None => false,
    }
}

/// Puts a type into a register, where it is there.
#[tactic(auto, using(std::proofs::lemmas::List::set_past))]
fn put(regs: &mut Vec<RegType>, k: usize, ty: RegType)
    ensures { regs.new.items ≡ slice_set regs.old.items k ty }
{
    if k < regs.len() {
        regs[k] = ty;
    }
}

/// Whether values of a declared type take two registers.
pub fn is_long(ty: &Ty) -> bool
    ensures { result ≡ is_long_type ty.now }
{
    ty.dims == 0 && matches!(ty.base, Base::J)
}

/// The type of the register of a value of a declared type that is no long.
pub fn single_type(ty: &Ty) -> Result<RegType, AllocError>
    ensures { IfOk result (λ t. t ≡ single_type_of ty.now) }
{
    if ty.is_reference() {
        Ok(RegType::Class(ty.clone()?))
    } else {
        Ok(RegType::Int)
    }
}

/// The type of a class's objects.
pub fn class_type(alloc: Global, image: &Image, class: ClassId) -> Result<Ty, AllocError>
    ensures { IfOk result (λ t. t ≡ type_of_class image.now class.0) }
{
    let name = match image.classes.items().get(class.0 as usize) {
        Some(info) => info.def.name.clone()?,
        None => Text::of(Vec::new(alloc))?,
    };
    Ok(Ty {
        dims: 0,
        base: Base::Class(name),
    })
}

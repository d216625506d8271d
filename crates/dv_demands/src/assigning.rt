// Types that references are assignable to. Asking takes no memory, so a type is given by its parts or by its class.
ghost use Rattle.std.specs.Prelude.{◌≡◌, MatchOption, None};
ghost use Rattle.dv_typing.specs.Demands.{is_assignable as is_assignable_type, ref_to as ref_to_type};
ghost use Rattle.dv_defs.specs.Order.{assignable, is_interface_type};
ghost use Rattle.dv_defs.specs.Pools.{class_named};
ghost use Rattle.dv_typing.specs.RegTypes.{type_at};
ghost use Rattle.dv_defs.specs.Types.{of_class, ty_eq};
ghost use Rattle.dv_image.specs.Common.{type_of};
ghost use Rattle.dv_demands.specs.Wanted.{type_wanted};

use crate::reads::{demand, first, reference};
use dv_defs::{Base, ClassId, ClassInfo, Image, Rule, Seq, Text, Ty};
use dv_image::{Ascent, OBJECT, is_base_under, is_interface, is_under_class};
use dv_typing::RegType;

const THROWABLE: &[u8] = b"Ljava/lang/Throwable;";

/// The type that a reference has to be assignable to: so many dimensions over a base, a class's own, or Throwable.
#[derive(Clone, Copy)]
pub enum Wanted<'a> {
    Over(u8, &'a Base),
    Class(ClassId),
    Throwable,
}

/// V4, then V5: a reference that is assignable to the type.
pub fn ref_to(
    image: &Image,
    regs: &Seq<RegType>,
    register: u32,
    wanted: &Wanted<'_>,
) -> Option<Rule>
    ensures { result ≡ ref_to_type image.now regs.now register (type_wanted image.now wanted.now) }
{
    first(
        reference(regs, register),
        demand(is_assignable(image, regs, register, wanted), Rule::V(5)),
    )
}

fn is_assignable(image: &Image, regs: &Seq<RegType>, register: u32, wanted: &Wanted<'_>) -> bool
    ensures { result ≡ is_assignable_type image.now (type_at regs.now register) (type_wanted image.now wanted.now) }
{
    match regs.items().get(register as usize) {
        Some(RegType::Class(ty)) => is_type_assignable(image, ty, wanted),
        _ => true,
    }
}

fn is_type_assignable(image: &Image, ty: &Ty, wanted: &Wanted<'_>) -> bool
    ensures { result ≡ assignable image.now ty.now (type_wanted image.now wanted.now) }
{
    match wanted {
        Wanted::Over(dims, base) => is_assignable_over(image, ty, *dims, base),
        Wanted::Class(class) => match image.classes.items().get(class.0 as usize) {
            Some(info) => is_assignable_to(image, ty, &info.def.name),
            None => is_assignable_to_named(image, ty, b""),
        },
        Wanted::Throwable => is_assignable_to_named(image, ty, THROWABLE),
    }
}

/// The same for so many dimensions over a base.
#[tactic(auto, unfolding(dv_defs::specs::Order::assignable, dv_defs::specs::Order::sub))]
fn is_assignable_over(image: &Image, ty: &Ty, dims: u8, base: &Base) -> bool
    ensures { result ≡ assignable image.now ty.now (type_of dims base.now) }
{
    if is_interface_over(image, dims, base) {
        return ty.is_reference();
    }
    if is_over(ty, dims, base) {
        return true;
    }
    dims <= ty.dims && is_base_under(image, Ascent::Superclasses, ty.dims - dims, &ty.base, base)
}

fn is_interface_over(image: &Image, dims: u8, base: &Base) -> bool
    ensures { result ≡ is_interface_type image.now (type_of dims base.now) }
{
    match base {
        Base::Class(name) => dims == 0 && is_interface(image, name),
        _ => false,
    }
}

fn is_over(ty: &Ty, dims: u8, base: &Base) -> bool
    ensures { result ≡ ty_eq ty.now (type_of dims base.now) }
{
    ty.dims == dims && ty.base == *base
}

/// The same for the class of a descriptor.
#[tactic(auto, unfolding(dv_defs::specs::Order::assignable, dv_defs::specs::Order::sub))]
fn is_assignable_to(image: &Image, ty: &Ty, name: &Text) -> bool
    ensures { result ≡ assignable image.now ty.now (of_class name.now) }
{
    if is_interface(image, name) {
        return ty.is_reference();
    }
    if ty.is_class(name.bytes()) {
        return true;
    }
    is_under_class(image, Ascent::Superclasses, ty.dims, &ty.base, name)
}

/// The same by the descriptor's bytes.
#[tactic(auto, using(crate::proofs::Unknown::unknown_class))]
fn is_assignable_to_named(image: &Image, ty: &Ty, name: &[u8]) -> bool
    ensures { result ≡ assignable image.now ty.now (of_class name.now) }
{
    match class_of(image, name) {
        Some(class) => is_assignable_to(image, ty, &class.def.name),
        None => ty.is_class(name) || ty.is_reference() && name == OBJECT,
    }
}

/// The first class of these bytes for its descriptor.
#[tactic(auto, unfolding(dv_defs::specs::Pools::class_named))]
fn class_of<'a>(image: &'a Image, name: &[u8]) -> Option<&'a ClassInfo>
    ensures { MatchOption result (class_named image.now name.now ≡ None) (λ c. c.now.def.name ≡ name.now) }
{
    for class in image.classes.items() {
        if class.def.name.bytes() == name {
            return Some(class);
        }
    }
    None
}

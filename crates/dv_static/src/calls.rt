// The methods that invokes name: S14.
ghost use Rattle.std.specs.Prelude.{◌≡◌, option_map};
ghost use Rattle.dv_defs.specs.Order.{is_interface_type as is_interface_ty};
ghost use Rattle.dv_defs.specs.Pools.{is_constructor as is_constructor_of};
ghost use Rattle.dv_typing.specs.Statics.{fits_call as call_fits, is_proper_super as is_above, is_virtual as is_virtual_of, names_class as is_by_class, names_super as is_by_super, referred as is_referred};
ghost use Rattle.dv_ops.specs.Meaning.{code_of, method_of};
ghost use Rattle.dv_units.specs.Tables.{standard_call};
ghost use Rattle.dv_static.specs.Operations.{is_super_base};

use dv_defs::{Base, ClassId, Flag, Image, Insn, Ty};
use dv_image::{class_of, has_interface_flag, is_interface, parent_of};
use dv_ops::{Coded, Method};
use dv_optable::Call;

const INIT: &[u8] = b"<init>";

const CLINIT: &[u8] = b"<clinit>";

/// The type by which an instruction names the method that it calls.
pub fn referred<'a>(code: &Coded<'a>, insn: &Insn) -> Option<&'a Ty>
    ensures { option_map (λ t. t.now) result ≡ is_referred (code_of code.now) insn.now }
{
    let body = code.body;
    match body.methods.items().get(insn.index as usize) {
        Some(reference) => Some(&reference.class),
        None => None,
    }
}

/// Whether a method may be called so by another, where the invoke names it by this type.
pub fn fits_call(
    image: &Image,
    own: &Method<'_>,
    named: Option<&Ty>,
    call: Call,
    method: &Method<'_>,
) -> bool
    ensures { result ≡ call_fits image.now (method_of own.now) (option_map (λ t. t.now) named.entry) (standard_call call) (method_of method.now) }
{
    let is_static = Flag::Static.is_in(method.def.flags);
    let is_private = Flag::Private.is_in(method.def.flags);
    match call {
        Call::Static => is_static && method.def.name.bytes() != CLINIT,
        Call::Direct => !is_static && (is_constructor(method) || is_private),
        Call::Virtual => is_virtual(method) && names_class(image, named),
        Call::Super => is_virtual(method) && names_super(image, own.info.class, named),
        Call::Interface => !is_static
            && !is_private
            && has_interface_flag(image, method.info.class.0 as usize),
    }
}

fn is_constructor(method: &Method<'_>) -> bool
    ensures { result ≡ is_constructor_of (method_of method.now) }
{
    !Flag::Static.is_in(method.def.flags) && method.def.name.bytes() == INIT
}

/// Whether it is an instance method that is neither private nor a constructor.
fn is_virtual(method: &Method<'_>) -> bool
    ensures { result ≡ is_virtual_of (method_of method.now) }
{
    !Flag::Static.is_in(method.def.flags)
        && !is_constructor(method)
        && !Flag::Private.is_in(method.def.flags)
}

fn is_interface_type(image: &Image, ty: &Ty) -> bool
    ensures { result ≡ is_interface_ty image.now ty.now }
{
    match &ty.base {
        Base::Class(name) => ty.dims == 0 && is_interface(image, name),
        _ => false,
    }
}

/// Whether the type that an invoke names isn't an interface.
fn names_class(image: &Image, named: Option<&Ty>) -> bool
    ensures { result ≡ is_by_class image.now (option_map (λ t. t.now) named.entry) }
{
    match named {
        Some(ty) => !is_interface_type(image, ty),
        None => false,
    }
}

/// Whether the type that an invoke names is a proper superclass of a class. An array type is none.
fn names_super(image: &Image, class: ClassId, named: Option<&Ty>) -> bool
    ensures { result ≡ is_by_super image.now class.0 (option_map (λ t. t.now) named.entry) }
{
    match named {
        Some(ty) => ty.dims == 0 && has_super(image, class, &ty.base),
        None => false,
    }
}

fn has_super(image: &Image, class: ClassId, base: &Base) -> bool
    ensures { result ≡ is_super_base image.now class.0 base.now }
{
    match base {
        Base::Class(name) => match class_of(image, name) {
            Some(above) => is_proper_super(image, class, above),
            None => false,
        },
        _ => false,
    }
}

/// Whether a class is above another.
#[tactic(auto, using(crate::proofs::Above::above_from, crate::proofs::Above::above_on, crate::proofs::Above::above_found, crate::proofs::Above::above_top, crate::proofs::Above::above_done))]
fn is_proper_super(image: &Image, class: ClassId, above: usize) -> bool
    ensures { result ≡ is_above image.now class.0 above }
{
    let mut at = parent_of(image, class.0 as usize);
    let mut left = image.classes.len();
    while left > 1 {
        let Some(place) = at else { return false };
        if place == above {
            return true;
        }
        at = parent_of(image, place);
        left -= 1;
    }
    false
}

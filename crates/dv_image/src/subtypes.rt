// Subtypes (JLS 4.10.2, 4.10.3).
ghost use Rattle.std.specs.Prelude.{◌≡◌, bytes_eq};
ghost use Rattle.dv_defs.specs.Names.{object_name};
ghost use Rattle.dv_defs.specs.Pools.{class_named};
ghost use Rattle.dv_defs.specs.Order.{sub as is_sub, instance as is_instance, assignable as is_assignable, both_found, under_class, under_base, under_type, is_interface_type as is_interface_ty};
ghost use Rattle.dv_image.specs.Ascents.{by};

use crate::classes::{OBJECT, class_of, extends, is_interface};
use crate::instances::implements;
use dv_defs::{Base, Image, Text, Ty};

/// By what a class is under another.
#[derive(Clone, Copy)]
pub enum Ascent {
    Superclasses,
    Superinterfaces,
}

/// Whether a type is under another by superclasses alone, through array components.
#[tactic(auto, unfolding(dv_defs::specs::Order::sub))]
pub fn sub(image: &Image, a: &Ty, b: &Ty) -> bool
    ensures { result ≡ is_sub image.now a.now b.now }
{
    is_type_under(image, Ascent::Superclasses, a, b)
}

/// Whether a type is under another by superclasses and superinterfaces, through array components.
#[tactic(auto, unfolding(dv_defs::specs::Order::instance))]
pub fn instance(image: &Image, a: &Ty, b: &Ty) -> bool
    ensures { result ≡ is_instance image.now a.now b.now }
{
    is_type_under(image, Ascent::Superinterfaces, a, b)
}

fn is_type_under(image: &Image, ascent: Ascent, a: &Ty, b: &Ty) -> bool
    ensures { result ≡ under_type image.now (by ascent image.now) a.now b.now }
{
    if a == b {
        return true;
    }
    b.dims <= a.dims && is_base_under(image, ascent, a.dims - b.dims, &a.base, &b.base)
}

/// Whether a type of so many dimensions over the first is under the second.
pub fn is_base_under(image: &Image, ascent: Ascent, dims: u8, a: &Base, b: &Base) -> bool
    ensures { result ≡ under_base image.now (by ascent image.now) dims a.now b.now }
{
    match b {
        Base::Class(name) => is_under_class(image, ascent, dims, a, name),
        _ => false,
    }
}

/// Whether a type of so many dimensions over the first is under the class of this descriptor; that they are equal is asked before.
pub fn is_under_class(image: &Image, ascent: Ascent, dims: u8, a: &Base, name: &Text) -> bool
    ensures { result ≡ under_class image.now (by ascent image.now) dims a.now name.now }
{
    match a {
        Base::Class(own) => is_object(name)
            || dims == 0 && is_named_under(image, ascent, own, name),
        _ => dims > 0 && is_object(name),
    }
}

fn is_named_under(image: &Image, ascent: Ascent, own: &Text, name: &Text) -> bool
    ensures { result ≡ both_found (by ascent image.now) (class_named image.now own.now) (class_named image.now name.now) }
{
    match (class_of(image, own), class_of(image, name)) {
        (Some(class), Some(above)) => is_under(image, ascent, class, above),
        _ => false,
    }
}

fn is_under(image: &Image, ascent: Ascent, class: usize, above: usize) -> bool
    ensures { result ≡ by ascent image.now class above }
{
    match ascent {
        Ascent::Superclasses => extends(image, class, above),
        Ascent::Superinterfaces => implements(image, class, above),
    }
}

fn is_object(name: &Text) -> bool
    ensures { result ≡ bytes_eq name.now object_name }
{
    name.bytes() == OBJECT
}

/// What the verifier asks: an interface takes each reference.
#[tactic(auto, unfolding(dv_defs::specs::Order::assignable))]
pub fn assignable(image: &Image, a: &Ty, b: &Ty) -> bool
    ensures { result ≡ is_assignable image.now a.now b.now }
{
    if is_interface_type(image, b) {
        a.is_reference()
    } else {
        sub(image, a, b)
    }
}

fn is_interface_type(image: &Image, ty: &Ty) -> bool
    ensures { result ≡ is_interface_ty image.now ty.now }
{
    match &ty.base {
        Base::Class(name) => ty.dims == 0 && is_interface(image, name),
        _ => false,
    }
}

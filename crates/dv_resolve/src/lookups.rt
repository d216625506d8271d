// Where references to members lead.
ghost use Rattle.std.specs.Prelude.{◌≡◌, ◌<◌, drop, length, option_and_then, option_map};
ghost use Rattle.dv_defs.specs.First.{first_in};
ghost use Rattle.dv_defs.specs.Images.{Image};
ghost use Rattle.dv_defs.specs.LookUp.{class_referred, field_declared, field_found, field_named as named_field, is_method_of, method_found, method_named as named_method};
ghost use Rattle.dv_defs.specs.Names.{object_name};
ghost use Rattle.dv_defs.specs.Order.{numbers};
ghost use Rattle.dv_defs.specs.Pools.{class_named, class_number, declared_by};
ghost use Rattle.dv_defs.specs.Types.{class_in};
ghost use Rattle.dv_resolve.specs.Members.{AreAllOf, Knows, declares, of_field, of_method};

use crate::declarers::{FieldName, MethodName};
use crate::members::{FieldKey, Member, Members, MethodKey};
use crate::orders::first_place;
use dv_defs::{Base, ClassId, FieldRef, MethodRef, Proto, Text, Ty};

const OBJECT: &[u8] = b"Ljava/lang/Object;";

/// The place of Object.
fn object_of(members: &Members<'_>) -> Option<usize>
    ensures { (image : Image) → Knows members.now image → result ≡ class_named image object_name }
{
    for (i, info) in members.infos.iter().enumerate() {
        if info.def.name.bytes() == OBJECT {
            return Some(i);
        }
    }
    None
}

/// The place of the class that a type without dimensions is.
fn place_in(members: &Members<'_>, base: &Base) -> Option<usize>
    ensures { (image : Image) → Knows members.now image → result ≡ option_and_then (class_named image) (class_in base.now) }
{
    match base {
        Base::Class(name) => members.names.place_of(name),
        _ => None,
    }
}

/// The place of the class in which a look-up begins: of an array type it is Object.
fn place_of(members: &Members<'_>, ty: &Ty) -> Option<usize>
    ensures { (image : Image) → Knows members.now image → result ≡ class_referred image ty.now }
{
    if ty.dims > 0 {
        object_of(members)
    } else {
        place_in(members, &ty.base)
    }
}

/// The class in which a look-up begins.
fn class_of(members: &Members<'_>, ty: &Ty) -> Option<ClassId>
    ensures { (image : Image) → Knows members.now image → class_number result ≡ class_referred image ty.now }
{
    let place = place_of(members, ty)?;
    if place > u32::MAX as usize {
        return None;
    }
    Some(ClassId(place as u32))
}

/// The method that a class declares.
fn method_of<'a>(
    members: &Members<'a>,
    class: ClassId,
    name: &'a Text,
    proto: &'a Proto,
) -> Option<Member>
    ensures { (image : Image) → Knows members.now image
        → result ≡ option_map of_method (declared_by image class.0 (is_method_of name.now proto.now)) }
{
    let key = MethodKey { class, name, proto };
    members.methods.get(&key).copied()
}

/// The first method that one of these classes declares, from a place on.
fn method_among<'a>(
    members: &Members<'a>,
    classes: &[ClassId],
    from: usize,
    name: &'a Text,
    proto: &'a Proto,
) -> Option<Member>
    ensures { (image : Image) → Knows members.now image
        → result ≡ option_map of_method (first_in (declares image (is_method_of name.now proto.now)) (numbers (drop from classes.now))) }
{
    for i in from..classes.len() {
        if let Some(member) = method_of(members, classes[i], name, proto) {
            return Some(member);
        }
    }
    None
}

/// The classes that declare a method of this name and prototype.
fn declarers_of_method<'a, 'b>(
    members: &'b Members<'a>,
    name: &'a Text,
    proto: &'a Proto,
) -> &'b [ClassId]
    ensures { (image : Image) → Knows members.now image
        → AreAllOf (declares image (is_method_of name.now proto.now)) result.now }
{
    match members.method_declarers.get(&MethodName { name, proto }) {
        Some(classes) => classes.as_slice(),
        None => &[],
    }
}

/// The first method in the order of a look-up.
fn method_along<'a>(
    members: &Members<'a>,
    class: ClassId,
    name: &'a Text,
    proto: &'a Proto,
) -> Option<Member>
    ensures { (image : Image) → Knows members.now image → class.0 < length image.classes
        → result ≡ option_map of_method (method_found image class.0 name.now proto.now) }
{
    let order = &members.orders.get(class.0 as usize)?.methods;
    let declarers = declarers_of_method(members, name, proto);
    let from = first_place(order.places.as_slice(), declarers);
    method_among(members, order.classes.as_slice(), from, name, proto)
}

/// The field that a class declares.
fn field_of<'a>(members: &Members<'a>, class: ClassId, name: &'a Text, ty: &'a Ty) -> Option<Member>
    ensures { (image : Image) → Knows members.now image → result ≡ option_map of_field (field_declared image name.now ty.now class.0) }
{
    let key = FieldKey { class, name, ty };
    members.fields.get(&key).copied()
}

/// The first field that one of these classes declares, from a place on.
fn field_among<'a>(
    members: &Members<'a>,
    classes: &[ClassId],
    from: usize,
    name: &'a Text,
    ty: &'a Ty,
) -> Option<Member>
    ensures { (image : Image) → Knows members.now image
        → result ≡ option_map of_field (first_in (field_declared image name.now ty.now) (numbers (drop from classes.now))) }
{
    for i in from..classes.len() {
        if let Some(member) = field_of(members, classes[i], name, ty) {
            return Some(member);
        }
    }
    None
}

/// The classes that declare a field of this name and type.
fn declarers_of_field<'a, 'b>(members: &'b Members<'a>, name: &'a Text, ty: &'a Ty) -> &'b [ClassId]
    ensures { (image : Image) → Knows members.now image
        → AreAllOf (field_declared image name.now ty.now) result.now }
{
    match members.field_declarers.get(&FieldName { name, ty }) {
        Some(classes) => classes.as_slice(),
        None => &[],
    }
}

/// The first field in the order of a look-up.
fn field_along<'a>(
    members: &Members<'a>,
    class: ClassId,
    name: &'a Text,
    ty: &'a Ty,
) -> Option<Member>
    ensures { (image : Image) → Knows members.now image → class.0 < length image.classes
        → result ≡ option_map of_field (field_found image class.0 name.now ty.now) }
{
    let order = &members.orders.get(class.0 as usize)?.fields;
    let declarers = declarers_of_field(members, name, ty);
    let from = first_place(order.places.as_slice(), declarers);
    field_among(members, order.classes.as_slice(), from, name, ty)
}

impl<'a> Members<'a> {
    /// The field that a reference leads to (JVMS 5.4.3.2): of the class, then of its superinterfaces, then of its superclass, and so on.
    pub fn field_named(&self, reference: &'a FieldRef) -> Option<Member>
        ensures { (image : Image) → Knows self.now image → result ≡ option_map of_field (named_field image reference.now) }
    {
        let class = class_of(self, &reference.class)?;
        field_along(self, class, &reference.name, &reference.ty)
    }

    /// The method that a reference leads to (JVMS 5.4.3.3): of the class and its superclasses, then of their superinterfaces.
    pub fn method_named(&self, reference: &'a MethodRef) -> Option<Member>
        ensures { (image : Image) → Knows self.now image → result ≡ option_map of_method (named_method image reference.now) }
    {
        let class = class_of(self, &reference.class)?;
        method_along(self, class, &reference.name, &reference.proto)
    }
}

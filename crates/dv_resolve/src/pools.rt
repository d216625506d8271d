// Faults of the pools of bodies.
ghost use Rattle.std.specs.Prelude.{◌≡◌, option_map, option_and_then};
ghost use Rattle.dv_defs.specs.First.{first_in};
ghost use Rattle.dv_defs.specs.Images.{Image};
ghost use Rattle.dv_defs.specs.LinkFaults.{found, Checks, first_fault_by, no_field, no_method, private_field, private_in_pools, private_method, wrong_pools};
ghost use Rattle.dv_defs.specs.Linked.{defs};
ghost use Rattle.dv_resolve.specs.Members.{Knows};
ghost use Rattle.dv_resolve.specs.Passes.{fault_by, is_foreign_private};

use crate::members::{Member, Members};
use crate::pool_types::check_pool_types;
use crate::texts::{field_text, method_text};
use dv_defs::{Body, ClassDef, FieldRef, Flag, LinkError, LinkKind, MethodDef, MethodRef, Text};
use dv_hier::error_of;
use std::alloc::Global;

/// What is asked of the pools of bodies, in this order.
#[derive(Clone, Copy)]
pub enum Pass {
    /// Each class that they name is there.
    Classes,
    /// Each field.
    Fields,
    /// Each method.
    Methods,
    /// A private member is the class's own.
    Access,
}

/// The first class whose bodies name a class, a field or a method that isn't there, or another class's private member.
pub fn check_pools(alloc: Global, members: &Members<'_>) -> Result<(), LinkError>
    ensures { (image : Image) → Knows members.now image → Checks result (first_fault_by (wrong_pools image) (defs image.classes)) }
{
    for i in 0..members.infos.len() {
        check_class(alloc, members, i, &members.infos[i].def)?;
    }
    Ok(())
}

fn check_class<'a>(
    alloc: Global,
    members: &Members<'a>,
    place: usize,
    class: &'a ClassDef,
) -> Result<(), LinkError>
    ensures { (image : Image) → Knows members.now image → Checks result (option_map (found class.now.name) (wrong_pools image place class.now)) }
{
    let name = &class.name;
    let methods = class.methods.items();
    check_bodies(alloc, members, place, name, methods, Pass::Classes)?;
    check_bodies(alloc, members, place, name, methods, Pass::Fields)?;
    check_bodies(alloc, members, place, name, methods, Pass::Methods)?;
    check_bodies(alloc, members, place, name, methods, Pass::Access)
}

/// The first fault that a pass finds in the bodies of these methods.
fn check_bodies<'a>(
    alloc: Global,
    members: &Members<'a>,
    place: usize,
    class: &Text,
    methods: &'a [MethodDef],
    pass: Pass,
) -> Result<(), LinkError>
    ensures { (image : Image) → Knows members.now image
        → Checks result (option_map (found class.now) (first_in (λ m. option_and_then (fault_by image place pass) m.body) methods.now)) }
{
    for method in methods {
        check_method(alloc, members, place, class, method, pass)?;
    }
    Ok(())
}

fn check_method<'a>(
    alloc: Global,
    members: &Members<'a>,
    place: usize,
    class: &Text,
    method: &'a MethodDef,
    pass: Pass,
) -> Result<(), LinkError>
    ensures { (image : Image) → Knows members.now image
        → Checks result (option_map (found class.now) (option_and_then (fault_by image place pass) method.now.body)) }
{
    match &method.body {
        Some(body) => check_body(alloc, members, place, class, body, pass),
        None => Ok(()),
    }
}

fn check_body<'a>(
    alloc: Global,
    members: &Members<'a>,
    place: usize,
    class: &Text,
    body: &'a Body,
    pass: Pass,
) -> Result<(), LinkError>
    ensures { (image : Image) → Knows members.now image
        → Checks result (option_map (found class.now) (fault_by image place pass body.now)) }
{
    match pass {
        Pass::Classes => check_pool_types(members.names, class, body),
        Pass::Fields => check_fields(alloc, members, class, body.fields.items()),
        Pass::Methods => check_methods(alloc, members, class, body.methods.items()),
        Pass::Access => check_access(alloc, members, place, class, body),
    }
}

/// The first reference that leads to no field.
fn check_fields<'a>(
    alloc: Global,
    members: &Members<'a>,
    class: &Text,
    fields: &'a [FieldRef],
) -> Result<(), LinkError>
    ensures { (image : Image) → Knows members.now image
        → Checks result (option_map (found class.now) (first_in (no_field image) fields.now)) }
{
    for field in fields {
        check_field(alloc, members, class, field)?;
    }
    Ok(())
}

fn check_field<'a>(
    alloc: Global,
    members: &Members<'a>,
    class: &Text,
    field: &'a FieldRef,
) -> Result<(), LinkError>
    ensures { (image : Image) → Knows members.now image
        → Checks result (option_map (found class.now) (no_field image field.now)) }
{
    if members.field_named(field).is_none() {
        return Err(error_of(class, LinkKind::NoField(field_text(alloc, field)?)));
    }
    Ok(())
}

/// The first reference that leads to no method.
fn check_methods<'a>(
    alloc: Global,
    members: &Members<'a>,
    class: &Text,
    methods: &'a [MethodRef],
) -> Result<(), LinkError>
    ensures { (image : Image) → Knows members.now image
        → Checks result (option_map (found class.now) (first_in (no_method image) methods.now)) }
{
    for method in methods {
        check_method_named(alloc, members, class, method)?;
    }
    Ok(())
}

fn check_method_named<'a>(
    alloc: Global,
    members: &Members<'a>,
    class: &Text,
    method: &'a MethodRef,
) -> Result<(), LinkError>
    ensures { (image : Image) → Knows members.now image
        → Checks result (option_map (found class.now) (no_method image method.now)) }
{
    if members.method_named(method).is_none() {
        return Err(error_of(class, LinkKind::NoMethod(method_text(alloc, method)?)));
    }
    Ok(())
}

/// The first reference of a body to a private member of another class: fields before methods.
fn check_access<'a>(
    alloc: Global,
    members: &Members<'a>,
    place: usize,
    class: &Text,
    body: &'a Body,
) -> Result<(), LinkError>
    ensures { (image : Image) → Knows members.now image
        → Checks result (option_map (found class.now) (private_in_pools image place body.now)) }
{
    check_field_access(alloc, members, place, class, body.fields.items())?;
    check_method_access(alloc, members, place, class, body.methods.items())
}

fn check_field_access<'a>(
    alloc: Global,
    members: &Members<'a>,
    place: usize,
    class: &Text,
    fields: &'a [FieldRef],
) -> Result<(), LinkError>
    ensures { (image : Image) → Knows members.now image
        → Checks result (option_map (found class.now) (first_in (private_field image place) fields.now)) }
{
    for field in fields {
        check_private_field(alloc, members, place, class, field)?;
    }
    Ok(())
}

fn check_private_field<'a>(
    alloc: Global,
    members: &Members<'a>,
    place: usize,
    class: &Text,
    field: &'a FieldRef,
) -> Result<(), LinkError>
    ensures { (image : Image) → Knows members.now image
        → Checks result (option_map (found class.now) (private_field image place field.now)) }
{
    if is_out_of_reach(members.field_named(field), place) {
        let text = field_text(alloc, field)?;
        return Err(error_of(class, LinkKind::PrivateAccess(text)));
    }
    Ok(())
}

fn check_method_access<'a>(
    alloc: Global,
    members: &Members<'a>,
    place: usize,
    class: &Text,
    methods: &'a [MethodRef],
) -> Result<(), LinkError>
    ensures { (image : Image) → Knows members.now image
        → Checks result (option_map (found class.now) (first_in (private_method image place) methods.now)) }
{
    for method in methods {
        check_private_method(alloc, members, place, class, method)?;
    }
    Ok(())
}

fn check_private_method<'a>(
    alloc: Global,
    members: &Members<'a>,
    place: usize,
    class: &Text,
    method: &'a MethodRef,
) -> Result<(), LinkError>
    ensures { (image : Image) → Knows members.now image
        → Checks result (option_map (found class.now) (private_method image place method.now)) }
{
    if is_out_of_reach(members.method_named(method), place) {
        let text = method_text(alloc, method)?;
        return Err(error_of(class, LinkKind::PrivateAccess(text)));
    }
    Ok(())
}

/// Whether a member is a private one of another class than the one at this place.
fn is_out_of_reach(member: Option<Member>, place: usize) -> bool
    ensures { result ≡ is_foreign_private place member }
{
    match member {
        Some(member) => { Flag::Private.is_in(member.flags) && member.class.0 as usize != place }
        None => false,
    }
}

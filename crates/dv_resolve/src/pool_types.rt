// The classes that the pools of a body name.
ghost use Rattle.std.specs.Prelude.{◌≡◌, option_map, option_and_then};
ghost use Rattle.dv_defs.specs.First.{first_in};
ghost use Rattle.dv_defs.specs.Images.{Image};
ghost use Rattle.dv_defs.specs.LinkFaults.{found, Checks, no_class, no_class_in_field, no_class_in_method, no_class_in_pools, no_proto, no_type};
ghost use Rattle.dv_defs.specs.Numbering.{names_of};
ghost use Rattle.dv_defs.specs.Pools.{class_named};

use dv_defs::{Base, Body, FieldRef, LinkError, LinkKind, MethodRef, Pool, Proto, Text, Ty};
use dv_hier::error_of;

/// The first class that the pools name and that isn't there: types first, then fields, then methods.
pub fn check_pool_types(names: &Pool<Text>, class: &Text, body: &Body) -> Result<(), LinkError>
    ensures { (image : Image) → names.now ≡ names_of image.classes
        → Checks result (option_map (found class.now) (no_class_in_pools image body.now)) }
{
    check_types(names, class, body.types.items())?;
    check_fields(names, class, body.fields.items())?;
    check_methods(names, class, body.methods.items())
}

fn check_fields(names: &Pool<Text>, class: &Text, fields: &[FieldRef]) -> Result<(), LinkError>
    ensures { (image : Image) → names.now ≡ names_of image.classes
        → Checks result (option_map (found class.now) (first_in (no_class_in_field image) fields.now)) }
{
    for field in fields {
        check_field(names, class, field)?;
    }
    Ok(())
}

fn check_field(names: &Pool<Text>, class: &Text, field: &FieldRef) -> Result<(), LinkError>
    ensures { (image : Image) → names.now ≡ names_of image.classes
        → Checks result (option_map (found class.now) (no_class_in_field image field.now)) }
{
    check_type(names, class, &field.class)?;
    check_type(names, class, &field.ty)
}

fn check_methods(names: &Pool<Text>, class: &Text, methods: &[MethodRef]) -> Result<(), LinkError>
    ensures { (image : Image) → names.now ≡ names_of image.classes
        → Checks result (option_map (found class.now) (first_in (no_class_in_method image) methods.now)) }
{
    for method in methods {
        check_method(names, class, method)?;
    }
    Ok(())
}

fn check_method(names: &Pool<Text>, class: &Text, method: &MethodRef) -> Result<(), LinkError>
    ensures { (image : Image) → names.now ≡ names_of image.classes
        → Checks result (option_map (found class.now) (no_class_in_method image method.now)) }
{
    check_type(names, class, &method.class)?;
    check_proto(names, class, &method.proto)
}

fn check_proto(names: &Pool<Text>, class: &Text, proto: &Proto) -> Result<(), LinkError>
    ensures { (image : Image) → names.now ≡ names_of image.classes
        → Checks result (option_map (found class.now) (no_proto image proto.now)) }
{
    check_types(names, class, proto.params.items())?;
    check_result(names, class, proto)
}

fn check_result(names: &Pool<Text>, class: &Text, proto: &Proto) -> Result<(), LinkError>
    ensures { (image : Image) → names.now ≡ names_of image.classes
        → Checks result (option_map (found class.now) (option_and_then (no_type image) proto.now.ret)) }
{
    match &proto.ret {
        Some(ty) => check_type(names, class, ty),
        None => Ok(()),
    }
}

fn check_types(names: &Pool<Text>, class: &Text, types: &[Ty]) -> Result<(), LinkError>
    ensures { (image : Image) → names.now ≡ names_of image.classes
        → Checks result (option_map (found class.now) (first_in (no_type image) types.now)) }
{
    for ty in types {
        check_type(names, class, ty)?;
    }
    Ok(())
}

/// The class of a type is there; of an array that is the class of its elements.
fn check_type(names: &Pool<Text>, class: &Text, ty: &Ty) -> Result<(), LinkError>
    ensures { (image : Image) → names.now ≡ names_of image.classes
        → Checks result (option_map (found class.now) (no_type image ty.now)) }
{
    match &ty.base {
        Base::Class(name) => check_name(names, class, name),
        _ => Ok(()),
    }
}

fn check_name(names: &Pool<Text>, class: &Text, name: &Text) -> Result<(), LinkError>
    ensures { (image : Image) → names.now ≡ names_of image.classes
        → Checks result (option_map (found class.now) (no_class image name.now)) }
{
    if class_of(names, name).is_none() {
        return Err(error_of(class, LinkKind::NoClass(name.clone()?)));
    }
    Ok(())
}

/// The place of the class of a name.
fn class_of(names: &Pool<Text>, name: &Text) -> Option<usize>
    ensures { (image : Image) → names.now ≡ names_of image.classes → result ≡ class_named image name.now }
{
    names.place_of(name)
}

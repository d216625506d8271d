// What a class names as its superclass, its interfaces and the types of its members.
ghost use Rattle.std.specs.Prelude.{◌≡◌, ◌<◌, ℕ, List, length, IfSome, not, option_map, option_and_then};
ghost use Rattle.std.specs.List.{list_any};
ghost use Rattle.dv_defs.specs.declared.class.ClassDef.{ClassDef};
ghost use Rattle.dv_defs.specs.First.{first_in};
ghost use Rattle.dv_defs.specs.LinkFaults.{Checks, final_at, first_fault_by, found, names_no_class, no_class, no_proto, no_type, wrong_above, wrong_kind, wrong_superclass};
ghost use Rattle.dv_defs.specs.Numbering.{declared};
ghost use Rattle.dv_defs.specs.Order.{names_interface};
ghost use Rattle.dv_defs.specs.Pools.{class_named};
ghost use Rattle.law_linking.specs.Stripped.{def_names};

use crate::faults::error_of;
use dv_defs::{
    Base, ClassDef, FieldDef, Flag, LinkError, LinkKind, MethodDef, Pool, Proto, Text, Ty,
};

const OBJECT: &[u8] = b"Ljava/lang/Object;";

/// The first class that names one that isn't there, or that stands under one under which it may not stand.
pub fn check_above(classes: &[ClassDef], names: &Pool<Text>) -> Result<(), LinkError>
    requires names { names.now ≡ def_names classes.now }
    ensures { (boot : ℕ) → Checks result (first_fault_by (wrong_above (declared classes.now boot)) classes.now) }
{
    for class in classes {
        check_class(classes, names, class)?;
    }
    Ok(())
}

fn check_class(classes: &[ClassDef], names: &Pool<Text>, class: &ClassDef) -> Result<(), LinkError>
    requires names { names.now ≡ def_names classes.now }
    ensures { (boot i : ℕ) → Checks result (option_map (found class.now.name) (wrong_above (declared classes.now boot) i class.now)) }
{
    check_names(names, class)?;
    if has_wrong_kind(classes, names, class) {
        return Err(error_of(&class.name, LinkKind::SuperKind));
    }
    if has_final_parent(classes, names, class) {
        return Err(error_of(&class.name, LinkKind::FinalSuper));
    }
    Ok(())
}

/// Whether the superclass or an interface may not stand above the class for what it is.
fn has_wrong_kind(classes: &[ClassDef], names: &Pool<Text>, class: &ClassDef) -> bool
    requires names { names.now ≡ def_names classes.now }
    ensures { (boot : ℕ) → result ≡ wrong_kind (declared classes.now boot) class.now }
{
    has_wrong_parent(classes, names, class)
        || names_no_interface(classes, names, class.interfaces.items())
}

fn has_wrong_parent(classes: &[ClassDef], names: &Pool<Text>, class: &ClassDef) -> bool
    requires names { names.now ≡ def_names classes.now }
    ensures { (boot : ℕ) → result ≡ wrong_superclass (declared classes.now boot) class.now }
{
    match &class.parent {
        None => class.name.bytes() != OBJECT,
        Some(parent) => {
            is_interface(classes, names, parent)
                || Flag::Interface.is_in(class.flags) && parent.bytes() != OBJECT
        }
    }
}

/// Whether one of the names is that of no interface.
fn names_no_interface(classes: &[ClassDef], names: &Pool<Text>, interfaces: &[Text]) -> bool
    requires names { names.now ≡ def_names classes.now }
    ensures { (boot : ℕ) → result ≡ list_any (λ name. not (names_interface (declared classes.now boot) (Some name))) interfaces.now }
{
    for name in interfaces {
        if !is_interface(classes, names, name) {
            return true;
        }
    }
    false
}

fn is_interface(classes: &[ClassDef], names: &Pool<Text>, name: &Text) -> bool
    requires names { names.now ≡ def_names classes.now }
    ensures { (boot : ℕ) → result ≡ names_interface (declared classes.now boot) (Some name.now) }
{
    match class_of(names, name) {
        Some(place) => Flag::Interface.is_in(classes[place].flags),
        None => false,
    }
}

fn has_final_parent(classes: &[ClassDef], names: &Pool<Text>, class: &ClassDef) -> bool
    requires names { names.now ≡ def_names classes.now }
    ensures { (boot : ℕ) → result ≡ final_at (declared classes.now boot) (option_and_then (class_named (declared classes.now boot)) class.now.parent) }
{
    match &class.parent {
        Some(parent) => is_final(classes, names, parent),
        None => false,
    }
}

fn is_final(classes: &[ClassDef], names: &Pool<Text>, name: &Text) -> bool
    requires names { names.now ≡ def_names classes.now }
    ensures { (boot : ℕ) → result ≡ final_at (declared classes.now boot) (class_named (declared classes.now boot) name.now) }
{
    match class_of(names, name) {
        Some(place) => Flag::Final.is_in(classes[place].flags),
        None => false,
    }
}

/// The first name of a class that no class has.
fn check_names(names: &Pool<Text>, class: &ClassDef) -> Result<(), LinkError>
    ensures { (cs : List ClassDef) (boot : ℕ) → names.now ≡ def_names cs
        → Checks result (option_map (found class.now.name) (names_no_class (declared cs boot) class.now)) }
{
    check_parent(names, class)?;
    check_interfaces(names, &class.name, class.interfaces.items())?;
    check_fields(names, &class.name, class.fields.items())?;
    check_methods(names, &class.name, class.methods.items())
}

fn check_parent(names: &Pool<Text>, class: &ClassDef) -> Result<(), LinkError>
    ensures { (cs : List ClassDef) (boot : ℕ) → names.now ≡ def_names cs
        → Checks result (option_map (found class.now.name) (option_and_then (no_class (declared cs boot)) class.now.parent)) }
{
    match &class.parent {
        Some(parent) => check_name(names, &class.name, parent),
        None => Ok(()),
    }
}

fn check_interfaces(names: &Pool<Text>, class: &Text, interfaces: &[Text]) -> Result<(), LinkError>
    ensures { (cs : List ClassDef) (boot : ℕ) → names.now ≡ def_names cs
        → Checks result (option_map (found class.now) (first_in (no_class (declared cs boot)) interfaces.now)) }
{
    for name in interfaces {
        check_name(names, class, name)?;
    }
    Ok(())
}

fn check_fields(names: &Pool<Text>, class: &Text, fields: &[FieldDef]) -> Result<(), LinkError>
    ensures { (cs : List ClassDef) (boot : ℕ) → names.now ≡ def_names cs
        → Checks result (option_map (found class.now) (first_in (λ f. no_type (declared cs boot) f.ty) fields.now)) }
{
    for field in fields {
        check_type(names, class, &field.ty)?;
    }
    Ok(())
}

fn check_methods(names: &Pool<Text>, class: &Text, methods: &[MethodDef]) -> Result<(), LinkError>
    ensures { (cs : List ClassDef) (boot : ℕ) → names.now ≡ def_names cs
        → Checks result (option_map (found class.now) (first_in (λ m. no_proto (declared cs boot) m.proto) methods.now)) }
{
    for method in methods {
        check_proto(names, class, &method.proto)?;
    }
    Ok(())
}

fn check_proto(names: &Pool<Text>, class: &Text, proto: &Proto) -> Result<(), LinkError>
    ensures { (cs : List ClassDef) (boot : ℕ) → names.now ≡ def_names cs
        → Checks result (option_map (found class.now) (no_proto (declared cs boot) proto.now)) }
{
    check_params(names, class, proto.params.items())?;
    match &proto.ret {
        Some(ty) => check_type(names, class, ty),
        None => Ok(()),
    }
}

fn check_params(names: &Pool<Text>, class: &Text, params: &[Ty]) -> Result<(), LinkError>
    ensures { (cs : List ClassDef) (boot : ℕ) → names.now ≡ def_names cs
        → Checks result (option_map (found class.now) (first_in (no_type (declared cs boot)) params.now)) }
{
    for ty in params {
        check_type(names, class, ty)?;
    }
    Ok(())
}

fn check_type(names: &Pool<Text>, class: &Text, ty: &Ty) -> Result<(), LinkError>
    ensures { (cs : List ClassDef) (boot : ℕ) → names.now ≡ def_names cs
        → Checks result (option_map (found class.now) (no_type (declared cs boot) ty.now)) }
{
    match &ty.base {
        Base::Class(name) => check_name(names, class, name),
        _ => Ok(()),
    }
}

fn check_name(names: &Pool<Text>, class: &Text, name: &Text) -> Result<(), LinkError>
    ensures { (cs : List ClassDef) (boot : ℕ) → names.now ≡ def_names cs
        → Checks result (option_map (found class.now) (no_class (declared cs boot) name.now)) }
{
    if class_of(names, name).is_none() {
        return Err(error_of(class, LinkKind::NoClass(name.clone()?)));
    }
    Ok(())
}

/// The number of the class of a name.
pub fn class_of(names: &Pool<Text>, name: &Text) -> Option<usize>
    ensures class { (cs : List ClassDef) (boot : ℕ) → names.now ≡ def_names cs → result ≡ class_named (declared cs boot) name.now }
    ensures within { IfSome result (λ c. c < length names.now) }
{
    names.place_of(name)
}

// Classes that know each other by number.
ghost use Rattle.std.specs.Prelude.{◌≡◌, ◌<◌, ◌^◌, ℕ, List, length, map, filter_map, All, IfOk, IfSome, option_map, option_and_then};
ghost use Rattle.dv_defs.specs.declared.class.ClassDef.{ClassDef};
ghost use Rattle.dv_defs.specs.Numbering.{class_id, class_numbered, declared, numbered};
ghost use Rattle.dv_defs.specs.Pools.{class_named};
ghost use Rattle.law_linking.specs.Stripped.{def_names, AreInRange, IsInRange};

use crate::above::class_of;
use dv_defs::{ClassDef, ClassId, ClassInfo, Pool, Seq, Text};
use std::alloc::{AllocError, Global};

/// The classes with the numbers of their superclasses and of their interfaces.
pub fn number_classes(
    alloc: Global,
    classes: Vec<ClassDef>,
    names: &Pool<Text>,
) -> Result<Vec<ClassInfo>, AllocError>
    requires few { length classes.items < 2 ^ 32 }
    requires names { names.now ≡ def_names classes.items }
    ensures numbered { (boot : ℕ) → IfOk result (λ infos. infos.items ≡ (numbered classes.items boot).classes) }
    ensures range { IfOk result (λ infos. AreInRange infos.items) }
{
    let mut infos = Vec::new(alloc);
    for class in classes {
        infos.push(number_class(alloc, class, names)?)?;
    }
    Ok(infos)
}

fn number_class(alloc: Global, class: ClassDef, names: &Pool<Text>) -> Result<ClassInfo, AllocError>
    requires few { length names.now < 2 ^ 32 }
    ensures numbered { (cs : List ClassDef) (boot : ℕ) → names.now ≡ def_names cs
        → IfOk result (λ info. info ≡ class_numbered (declared cs boot) class) }
    ensures range { IfOk result (IsInRange (length names.now)) }
{
    let parent = number_parent(names, &class);
    match number_interfaces(alloc, names, class.interfaces.items()) {
        Ok(interfaces) => Ok(ClassInfo {
            def: class,
            parent,
            interfaces: Seq::of(interfaces),
            slots: Seq::of(Vec::new(alloc)),
            table: Seq::of(Vec::new(alloc)),
            prior: Seq::of(Vec::new(alloc)),
        }),
        Err(error) => {
            drop(class);
            Err(error)
        }
    }
}

fn number_parent(names: &Pool<Text>, class: &ClassDef) -> Option<ClassId>
    requires few { length names.now < 2 ^ 32 }
    ensures numbered { (cs : List ClassDef) (boot : ℕ) → names.now ≡ def_names cs
        → result ≡ option_map class_id (option_and_then (class_named (declared cs boot)) class.now.parent) }
    ensures range { IfSome result (λ p. p.0 < length names.now) }
{
    number_of(names, class.parent.as_ref()?)
}

fn number_interfaces(
    alloc: Global,
    names: &Pool<Text>,
    interfaces: &[Text],
) -> Result<Vec<ClassId>, AllocError>
    requires few { length names.now < 2 ^ 32 }
    ensures numbered { (cs : List ClassDef) (boot : ℕ) → names.now ≡ def_names cs
        → IfOk result (λ ids. ids.items ≡ map class_id (filter_map (class_named (declared cs boot)) interfaces.now)) }
    ensures range { IfOk result (λ ids. All (λ id. id.0 < length names.now) ids.items) }
{
    let mut ids = Vec::new(alloc);
    for name in interfaces {
        if let Some(id) = number_of(names, name) {
            ids.push(id)?;
        }
    }
    Ok(ids)
}

fn number_of(names: &Pool<Text>, name: &Text) -> Option<ClassId>
    requires few { length names.now < 2 ^ 32 }
    ensures numbered { (cs : List ClassDef) (boot : ℕ) → names.now ≡ def_names cs
        → result ≡ option_map class_id (class_named (declared cs boot) name.now) }
    ensures range { IfSome result (λ id. id.0 < length names.now) }
{
    let place = class_of(names, name)?;
    Some(ClassId(place as u32))
}

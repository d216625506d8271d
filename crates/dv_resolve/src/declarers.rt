// The classes that declare a member of a name and a prototype or a type.
ghost use Rattle.std.specs.Prelude.{◌≡◌, ◌++◌, ◌∷◌, ℕ, [], length, if◌then◌else◌, IfOk, OnOk};
ghost use Rattle.std.specs.Ordering.{is_eq};
ghost use Rattle.std.specs.BTreeMap.{get};
ghost use Rattle.dv_defs.specs.declared.names.ClassId.{ClassId};
ghost use Rattle.dv_resolve.specs.Declarers.{classes_in, HasFieldDeclarers, HasMethodDeclarers};

use crate::members::{FieldKey, Member, MethodKey};
use dv_defs::{ClassId, Proto, Text, Ty};
use std::alloc::{AllocError, Global};
use std::collections::BTreeMap;

/// What the methods of a class are told apart by.
#[derive(Clone, Copy, PartialEq, Eq, PartialOrd, Ord)]
pub struct MethodName<'a> {
    pub name: &'a Text,
    pub proto: &'a Proto,
}

/// What the fields of a class are told apart by.
#[derive(Clone, Copy, PartialEq, Eq, PartialOrd, Ord)]
pub struct FieldName<'a> {
    pub name: &'a Text,
    pub ty: &'a Ty,
}

/// Adds a class to those that declare a member of this name.
fn add_declarer<N: Ord + Copy>(
    alloc: Global,
    declarers: &mut BTreeMap<N, Vec<ClassId>>,
    name: N,
    class: ClassId,
) -> Result<(), AllocError>
    ensures { OnOk result ((n : N) → classes_in (get N.cmp declarers.new n)
        ≡ classes_in (get N.cmp declarers.old n) ++ (if is_eq (N.cmp name n) then class ∷ [] else [])) }
{
    match declarers.get_mut(&name) {
        Some(classes) => classes.push(class)?,
        None => {
            let mut classes = Vec::new(alloc);
            classes.push(class)?;
            declarers.insert(name, classes)?;
        }
    }
    Ok(())
}

/// By name and prototype, the classes that declare such a method.
pub fn method_declarers<'a>(
    alloc: Global,
    methods: &BTreeMap<MethodKey<'a>, Member>,
) -> Result<BTreeMap<MethodName<'a>, Vec<ClassId>>, AllocError>
    ensures { IfOk result (HasMethodDeclarers methods.now) }
{
    let mut declarers = BTreeMap::new(alloc);
    for (key, _) in methods {
        let method = MethodName {
            name: key.name,
            proto: key.proto,
        };
        add_declarer(alloc, &mut declarers, method, key.class)?;
    }
    Ok(declarers)
}

/// By name and type, the classes that declare such a field.
pub fn field_declarers<'a>(
    alloc: Global,
    fields: &BTreeMap<FieldKey<'a>, Member>,
) -> Result<BTreeMap<FieldName<'a>, Vec<ClassId>>, AllocError>
    ensures { IfOk result (HasFieldDeclarers fields.now) }
{
    let mut declarers = BTreeMap::new(alloc);
    for (key, _) in fields {
        let field = FieldName {
            name: key.name,
            ty: key.ty,
        };
        add_declarer(alloc, &mut declarers, field, key.class)?;
    }
    Ok(declarers)
}

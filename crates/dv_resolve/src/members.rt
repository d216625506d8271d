// Members looked up by what a reference names.
ghost use Rattle.std.specs.Prelude.{◌≡◌, ◌<◌, ◌+◌, ◌^◌, ℕ, [], length, sum_by, slice_index_or, IfOk, OnOk};
ghost use Rattle.std.specs.Option.{option_or};
ghost use Rattle.std.specs.BTreeMap.{get};
ghost use Rattle.dv_defs.specs.Images.{Image};
ghost use Rattle.dv_defs.specs.LookUp.{interfaces_above, once};
ghost use Rattle.dv_defs.specs.Numbering.{names_of};
ghost use Rattle.dv_defs.specs.Order.{numbers};
ghost use Rattle.law_linking.specs.Ordered.{IsOrdered};
ghost use Rattle.law_linking.proofs.Members.{HasFields, HasMethods};
ghost use Rattle.dv_resolve.specs.Firsts.{first_field_own, first_fields_from, first_method_own, first_methods_from};
ghost use Rattle.dv_resolve.specs.Members.{Knows, field_key_cmp, method_key_cmp};

use crate::declarers::{FieldName, MethodName, field_declarers, method_declarers};
use crate::orders::{Orders, orders_of_all};
use dv_defs::{ClassId, ClassInfo, FieldDef, MethodDef, Pool, Proto, Seq, Text, Ty};
use std::alloc::{AllocError, Global};
use std::collections::BTreeMap;

/// What the methods of all classes are told apart by.
#[derive(Clone, Copy, PartialEq, Eq, PartialOrd, Ord)]
pub struct MethodKey<'a> {
    pub class: ClassId,
    pub name: &'a Text,
    pub proto: &'a Proto,
}

/// What the fields of all classes are told apart by.
#[derive(Clone, Copy, PartialEq, Eq, PartialOrd, Ord)]
pub struct FieldKey<'a> {
    pub class: ClassId,
    pub name: &'a Text,
    pub ty: &'a Ty,
}

/// A method or a field: its number, the class that declares it, and its flags.
#[derive(Clone, Copy)]
pub struct Member {
    pub id: u32,
    pub class: ClassId,
    pub flags: u32,
}

/// The classes of a program with what references to their members are looked up by.
#[derive(Drop)]
pub struct Members<'a> {
    pub infos: &'a [ClassInfo],
    pub names: &'a Pool<Text>,
    /// By class, the orders of look-ups that begin in it.
    pub orders: Vec<Orders>,
    pub methods: BTreeMap<MethodKey<'a>, Member>,
    pub fields: BTreeMap<FieldKey<'a>, Member>,
    pub method_declarers: BTreeMap<MethodName<'a>, Vec<ClassId>>,
    pub field_declarers: BTreeMap<FieldName<'a>, Vec<ClassId>>,
}

/// Adds a class's methods, whose numbers begin with `first`. Of equal ones the first is kept.
fn add_methods<'a>(
    found: &mut BTreeMap<MethodKey<'a>, Member>,
    class: ClassId,
    methods: &'a [MethodDef],
    first: u32,
) -> Result<(), AllocError>
    requires few { first + length methods.now < 2 ^ 32 }
    ensures { OnOk result ((k : MethodKey) → get method_key_cmp found.new k
        ≡ option_or (get method_key_cmp found.old k) (first_method_own k class.0 first methods.now)) }
{
    for (place, method) in methods.iter().enumerate() {
        let key = MethodKey {
            class,
            name: &method.name,
            proto: &method.proto,
        };
        if !found.contains_key(&key) {
            let member = Member {
                id: first + place as u32,
                class,
                flags: method.flags,
            };
            found.insert(key, member)?;
        }
    }
    Ok(())
}

/// Adds a class's fields, whose numbers begin with `first`. Of equal ones the first is kept.
fn add_fields<'a>(
    found: &mut BTreeMap<FieldKey<'a>, Member>,
    class: ClassId,
    fields: &'a [FieldDef],
    first: u32,
) -> Result<(), AllocError>
    requires few { first + length fields.now < 2 ^ 32 }
    ensures { OnOk result ((k : FieldKey) → get field_key_cmp found.new k
        ≡ option_or (get field_key_cmp found.old k) (first_field_own k class.0 first fields.now)) }
{
    for (place, field) in fields.iter().enumerate() {
        let key = FieldKey {
            class,
            name: &field.name,
            ty: &field.ty,
        };
        if !found.contains_key(&key) {
            let member = Member {
                id: first + place as u32,
                class,
                flags: field.flags,
            };
            found.insert(key, member)?;
        }
    }
    Ok(())
}

/// The methods of all classes, numbered class by class.
fn methods_of<'a>(
    alloc: Global,
    infos: &'a [ClassInfo],
) -> Result<BTreeMap<MethodKey<'a>, Member>, AllocError>
    requires few { length infos.now < 2 ^ 32 }
    requires few_methods { sum_by (λ c. length c.def.methods) infos.now < 2 ^ 31 }
    ensures { IfOk result (λ found. (k : MethodKey) → get method_key_cmp found k ≡ first_methods_from k 0 0 infos.now) }
{
    let mut found = BTreeMap::new(alloc);
    let mut first = 0;
    for (class, info) in infos.iter().enumerate() {
        let methods = info.def.methods.items();
        add_methods(&mut found, ClassId(class as u32), methods, first)?;
        first += methods.len() as u32;
    }
    Ok(found)
}

/// The fields of all classes, numbered class by class.
fn fields_of<'a>(
    alloc: Global,
    infos: &'a [ClassInfo],
) -> Result<BTreeMap<FieldKey<'a>, Member>, AllocError>
    requires few { length infos.now < 2 ^ 32 }
    requires few_fields { sum_by (λ c. length c.def.fields) infos.now < 2 ^ 31 }
    ensures { IfOk result (λ found. (k : FieldKey) → get field_key_cmp found k ≡ first_fields_from k 0 0 infos.now) }
{
    let mut found = BTreeMap::new(alloc);
    let mut first = 0;
    for (class, info) in infos.iter().enumerate() {
        let fields = info.def.fields.items();
        add_fields(&mut found, ClassId(class as u32), fields, first)?;
        first += fields.len() as u32;
    }
    Ok(found)
}

impl<'a> Members<'a> {
    /// The members of these classes.
    pub fn of(
        alloc: Global,
        infos: &'a [ClassInfo],
        names: &'a Pool<Text>,
        interfaces: &'a [Seq<ClassId>],
    ) -> Result<Members<'a>, AllocError>
        requires few { length infos.now < 2 ^ 32 }
        requires few_methods { sum_by (λ c. length c.def.methods) infos.now < 2 ^ 31 }
        requires few_fields { sum_by (λ c. length c.def.fields) infos.now < 2 ^ 31 }
        ensures infos { IfOk result (λ members. members.infos.now ≡ infos.now) }
        ensures knows { (image : Image) → image.classes ≡ infos.now → HasMethods image → HasFields image → IsOrdered image
            → names.now ≡ names_of image.classes
            → ((c : ℕ) → numbers (slice_index_or interfaces.now c []) ≡ once (interfaces_above image c))
            → IfOk result (λ members. Knows members image) }
    {
        let orders = orders_of_all(alloc, infos, interfaces)?;
        let methods = methods_of(alloc, infos)?;
        let fields = fields_of(alloc, infos)?;
        let method_declarers = method_declarers(alloc, &methods)?;
        let field_declarers = field_declarers(alloc, &fields)?;
        Ok(Members {
            infos,
            names,
            orders,
            methods,
            fields,
            method_declarers,
            field_declarers,
        })
    }
}

// Fields that a class declares twice.
ghost use Rattle.std.specs.Prelude.{◌≡◌, false, length, option_map, None, All, IfOk, IsTrue};
ghost use Rattle.std.specs.BTreeSet.{contains};
ghost use Rattle.dv_defs.specs.declared.faults.LinkKind.TheVariants as kind;
ghost use Rattle.dv_defs.specs.Field.{may_stand};
ghost use Rattle.dv_defs.specs.First.{first_below};
ghost use Rattle.dv_defs.specs.LinkFaults.{Checks, first_fault_by, field_twice as first_twice, has_field_twice};
ghost use Rattle.dv_defs.specs.Linked.{defs, HasValues};
ghost use Rattle.dv_hier.specs.declared.fields.FieldKey.{FieldKey as Key};

use crate::faults::error_of;
use dv_defs::{ClassInfo, FieldDef, LinkError, LinkKind, Text, Ty};
use std::alloc::{AllocError, Global};
use std::collections::BTreeSet;

/// What the fields of a class are told apart by.
#[derive(Clone, Copy, PartialEq, Eq, PartialOrd, Ord)]
struct FieldKey<'a> {
    name: &'a Text,
    ty: &'a Ty,
}

/// What a field is told apart by. Its definition keeps that its value may stand on it.
fn key_of(field: &FieldDef) -> FieldKey<'_>
    ensures name { result.name.now ≡ field.now.name }
    ensures ty { result.ty.now ≡ field.now.ty }
    ensures holds { IsTrue (may_stand field.now.init field.now.ty field.now.flags) }
{
    FieldKey {
        name: &field.name,
        ty: &field.ty,
    }
}

/// The name of the first field that an earlier one is like, as that field has it. What is met is added to the set, which is empty;
/// a lone field needs none.
fn repeated_in<'a>(
    seen: &mut BTreeSet<FieldKey<'a>>,
    fields: &'a [FieldDef],
) -> Result<Option<&'a Text>, AllocError>
    requires none { (k : Key) → contains ⟦<FieldKey<'a> as Ord>⟧.cmp seen.old k ≡ false }
    ensures twice { IfOk result (λ name. first_below (first_twice fields.now) (length fields.now) ≡ option_map (λ n. kind.FieldTwice n.now) name) }
    ensures values { IfOk result (λ name. name ≡ None → All (λ f. IsTrue (may_stand f.init f.ty f.flags)) fields.now) }
{
    let several = fields.len() > 1;
    for i in 0..fields.len() {
        let key = key_of(&fields[i]);
        if several && !seen.insert(key)? {
            return Ok(Some(key.name));
        }
    }
    Ok(None)
}

/// The name of the first field that an earlier one is like, as that field has it.
fn repeated_name<'a>(alloc: Global, fields: &'a [FieldDef]) -> Result<Option<&'a Text>, AllocError>
    ensures twice { IfOk result (λ name. first_below (first_twice fields.now) (length fields.now) ≡ option_map (λ n. kind.FieldTwice n.now) name) }
    ensures values { IfOk result (λ name. name ≡ None → All (λ f. IsTrue (may_stand f.init f.ty f.flags)) fields.now) }
{
    let mut seen = BTreeSet::new(alloc);
    repeated_in(&mut seen, fields)
}

/// The name of the first field that an earlier one is like.
fn field_twice(alloc: Global, fields: &[FieldDef]) -> Result<Option<Text>, AllocError>
    ensures twice { IfOk result (λ name. first_below (first_twice fields.now) (length fields.now) ≡ option_map kind.FieldTwice name) }
    ensures values { IfOk result (λ name. name ≡ None → All (λ f. IsTrue (may_stand f.init f.ty f.flags)) fields.now) }
{
    match repeated_name(alloc, fields)? {
        Some(name) => Ok(Some(name.clone()?)),
        None => Ok(None),
    }
}

/// The first class with two fields of one name and type, and the first such field that an earlier one is like.
pub fn check_fields(alloc: Global, infos: &[ClassInfo]) -> Result<(), LinkError>
    ensures fault { Checks result (first_fault_by has_field_twice (defs infos.now)) }
    // each field's definition keeps that its value may stand on it
    ensures values { IfOk result (λ u. All HasValues (defs infos.now)) }
{
    for i in 0..infos.len() {
        let class = &infos[i].def;
        if let Some(name) = field_twice(alloc, class.fields.items())? {
            return Err(error_of(&class.name, LinkKind::FieldTwice(name)));
        }
    }
    Ok(())
}

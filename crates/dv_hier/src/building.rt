// The hierarchy of classes.
ghost use Rattle.std.specs.Prelude.{◌≡◌, ◌<◌, ◌^◌, ℕ, length, sum_by, All, IfOk, None};
ghost use Rattle.dv_defs.specs.LinkFaults.{Checks};
ghost use Rattle.dv_defs.specs.Linked.{first_phases, HasValues};
ghost use Rattle.dv_hier.specs.Hierarchies.{hierarchy_of, naming_phases};
ghost use Rattle.law_linking.specs.Stripped.{def_names};

use crate::above::check_above;
use crate::ancestors::ancestors_of_all;
use crate::boot::check_boot;
use crate::cycles::check_cycles;
use crate::fields::check_fields;
use crate::hierarchy::{Classes, Hierarchy};
use crate::interfaces::interfaces_of_all;
use crate::limits::check_limits;
use crate::names::index_names;
use crate::numbering::number_classes;
use crate::slots::add_slots;
use dv_defs::{ClassDef, ClassInfo, FieldInfo, LinkError, Pool, Seq, Text};
use std::alloc::Global;

/// The names of the classes, where nothing is wrong with the boot classes, the limits, the names and what stands above each class.
fn check_names(alloc: Global, classes: &[ClassDef], boot: u32) -> Result<Pool<Text>, LinkError>
    ensures fault { Checks result (naming_phases classes.now boot) }
    ensures names { IfOk result (λ names. names ≡ def_names classes.now) }
    ensures few { IfOk result (λ names. (length classes.now < 2 ^ 32) × (sum_by (λ c. length c.fields) classes.now < 2 ^ 31)) }
{
    check_boot(alloc, classes, boot)?;
    check_limits(classes, boot)?;
    let names = index_names(alloc, classes)?;
    check_above(classes, &names)?;
    Ok(names)
}

/// The classes with the numbers of those above them and with their cells, and the fields, where nothing is wrong with cycles and fields.
fn arranged(
    alloc: Global,
    classes: Vec<ClassDef>,
    names: &Pool<Text>,
) -> Result<(Vec<ClassInfo>, Vec<FieldInfo>), LinkError>
    requires names { names.now ≡ def_names classes.items }
    requires few { length classes.items < 2 ^ 32 }
    requires few_fields { sum_by (λ c. length c.fields) classes.items < 2 ^ 31 }
    ensures fault { (boot : ℕ) → naming_phases classes.items boot ≡ None → Checks result (first_phases classes.items boot) }
    ensures classes { (boot : ℕ) → IfOk result (λ done. done.0.items ≡ (hierarchy_of classes.items boot).classes) }
    ensures fields { (boot : ℕ) → IfOk result (λ done. done.1.items ≡ (hierarchy_of classes.items boot).fields) }
    ensures values { IfOk result (λ done. All HasValues classes.items) }
{
    let infos = number_classes(alloc, classes, names)?;
    check_cycles(alloc, infos.as_slice())?;
    check_fields(alloc, infos.as_slice())?;
    Ok(add_slots(alloc, infos)?)
}

/// The hierarchy of classes. Each fault is told of the first class in which it is, phase by phase: the boot classes, limits,
/// names, what stands above, cycles, fields.
pub fn build(alloc: Global, classes: Classes) -> Result<Hierarchy, LinkError>
    ensures fault { Checks result (first_phases classes.list classes.boot) }
    ensures hierarchy { IfOk result (λ h. h ≡ hierarchy_of classes.list classes.boot) }
{
    let Classes { list, boot } = classes;
    let list = list.into_vec();
    let names = check_names(alloc, list.as_slice(), boot)?;
    let (classes, fields) = arranged(alloc, list, &names)?;
    let infos = classes.as_slice();
    let interfaces = interfaces_of_all(alloc, infos)?;
    let ancestors = ancestors_of_all(alloc, infos, interfaces.as_slice())?;
    Ok(Hierarchy {
        classes: Seq::of(classes),
        fields: Seq::of(fields),
        boot,
        names,
        interfaces: Seq::of(interfaces),
        ancestors: Seq::of(ancestors),
    })
}

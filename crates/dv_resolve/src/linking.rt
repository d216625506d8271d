// The image of classes.
ghost use Rattle.std.specs.Prelude.{◌≡◌, ◌<◌, ◌^◌, ℕ, [], length, map, sum_by, slice_index_or, IfOk};
ghost use Rattle.dv_defs.specs.Images.{Image as ImageValue};
ghost use Rattle.dv_defs.specs.LinkFaults.{Checks, first_fault_by, wrong_pools};
ghost use Rattle.dv_defs.specs.Linked.{defs, linked, method_with_pools};
ghost use Rattle.dv_defs.specs.LookUp.{interfaces_above, once};
ghost use Rattle.dv_defs.specs.Numbering.{names_of};
ghost use Rattle.dv_defs.specs.Order.{numbers};
ghost use Rattle.law_linking.specs.Ordered.{IsOrdered};
ghost use Rattle.law_linking.proofs.Members.{HasFields, HasMethods};
ghost use Rattle.dv_resolve.specs.Answers.{Answers};
ghost use Rattle.dv_resolve.specs.Members.{Knows};

use crate::hints::hints_of_all;
use crate::members::Members;
use crate::pools::check_pools;
use crate::resolving::resolve_pools;
use dv_defs::{ClassId, ClassInfo, Image, Index, LinkError, MethodInfo, Pool, Seq, Text};
use dv_hier::{Classes, Hierarchy, build};
use dv_vtable::{Tabled, tables};
use std::alloc::Global;

/// The methods with the pools of their bodies resolved by these members, where nothing is wrong with the pools.
fn resolved_by(
    alloc: Global,
    members: &Members<'_>,
    methods: Vec<MethodInfo>,
) -> Result<Vec<MethodInfo>, LinkError>
    ensures fault { (image : ImageValue) → Knows members.now image → Checks result (first_fault_by (wrong_pools image) (defs image.classes)) }
    ensures methods { (image : ImageValue) → Knows members.now image → IfOk result (λ done. done.items ≡ map (method_with_pools image) methods.items) }
{
    check_pools(alloc, members)?;
    Ok(resolve_pools(alloc, members, methods)?)
}

/// The methods with the pools of their bodies resolved, where nothing is wrong with the pools.
fn resolved_methods(
    alloc: Global,
    infos: &[ClassInfo],
    names: &Pool<Text>,
    interfaces: &[Seq<ClassId>],
    methods: Vec<MethodInfo>,
) -> Result<Vec<MethodInfo>, LinkError>
    requires few { length infos.now < 2 ^ 32 }
    requires few_methods { sum_by (λ c. length c.def.methods) infos.now < 2 ^ 31 }
    requires few_fields { sum_by (λ c. length c.def.fields) infos.now < 2 ^ 31 }
    ensures fault { (image : ImageValue) → image.classes ≡ infos.now → HasMethods image → HasFields image → IsOrdered image
        → names.now ≡ names_of image.classes
        → ((c : ℕ) → numbers (slice_index_or interfaces.now c []) ≡ once (interfaces_above image c))
        → Checks result (first_fault_by (wrong_pools image) (defs infos.now)) }
    ensures methods { (image : ImageValue) → image.classes ≡ infos.now → HasMethods image → HasFields image → IsOrdered image
        → names.now ≡ names_of image.classes
        → ((c : ℕ) → numbers (slice_index_or interfaces.now c []) ≡ once (interfaces_above image c))
        → IfOk result (λ done. done.items ≡ map (method_with_pools image) methods.items) }
{
    let members = Members::of(alloc, infos, names, interfaces)?;
    resolved_by(alloc, &members, methods)
}

/// The image of classes that have their tables.
fn resolve(alloc: Global, tabled: Tabled) -> Result<Image, LinkError>
    ensures { Answers (linked (defs tabled.h.classes) tabled.h.boot) result }
{
    let Tabled {
        h,
        methods,
        keys,
        places,
    } = tabled;
    let Hierarchy {
        classes,
        fields,
        boot,
        names,
        interfaces,
        ancestors,
    } = h;
    let methods = resolved_methods(
        alloc,
        classes.items(),
        &names,
        interfaces.items(),
        methods.into_vec(),
    )?;
    let hints = hints_of_all(alloc, places.items())?;
    Ok(Image {
        classes,
        methods: Seq::of(methods),
        fields,
        boot,
        index: Index {
            names,
            interfaces,
            ancestors,
            keys,
            places,
            hints: Seq::of(hints),
        },
    })
}

/// The image of classes, or the first fault, phase by phase: what `build` and `tables` tell, and then the first class whose bodies name
/// a class, a field or a method that isn't there, or another class's private member.
pub fn link(alloc: Global, classes: Classes) -> Result<Image, LinkError>
    ensures { Answers (linked classes.list classes.boot) result }
{
    let h = build(alloc, classes)?;
    let tabled = tables(alloc, h)?;
    resolve(alloc, tabled)
}

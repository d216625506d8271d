// Pools of bodies with the numbers of what they name.
ghost use Rattle.std.specs.Prelude.{◌≡◌, filter_map, map, option_map, IfOk};
ghost use Rattle.dv_defs.specs.Images.{Image};
ghost use Rattle.dv_defs.specs.Linked.{body_at, field_ids, method_ids, method_with_pools};
ghost use Rattle.dv_defs.specs.LookUp.{field_named, method_named};
ghost use Rattle.dv_resolve.specs.Members.{Knows};
ghost use Rattle.dv_resolve.specs.Ids.{field_id, method_id};

use crate::members::Members;
use dv_defs::{Body, ClassId, FieldId, FieldRef, MethodId, MethodInfo, MethodRef, Seq};
use std::alloc::{AllocError, Global};

/// The methods with the pools of their bodies resolved.
pub fn resolve_pools(
    alloc: Global,
    members: &Members<'_>,
    methods: Vec<MethodInfo>,
) -> Result<Vec<MethodInfo>, AllocError>
    ensures { (image : Image) → Knows members.now image → IfOk result (λ done. done.items ≡ map (method_with_pools image) methods.items) }
{
    let mut done = Vec::new(alloc);
    for method in methods {
        done.push(resolve_method(alloc, members, method)?)?;
    }
    Ok(done)
}

/// A method with the pools of its body. One that has no body stays as it is.
fn resolve_method(
    alloc: Global,
    members: &Members<'_>,
    method: MethodInfo,
) -> Result<MethodInfo, AllocError>
    ensures { (image : Image) → Knows members.now image → IfOk result (λ done. done ≡ method_with_pools image method) }
{
    match body_of(members, &method) {
        Some(body) => {
            let resolved = with_pools(alloc, members, method.class, method.place, body);
            drop(method);
            resolved
        }
        None => Ok(method),
    }
}

/// A method of this class at this place, with the pools of its body resolved.
fn with_pools<'a>(
    alloc: Global,
    members: &Members<'a>,
    class: ClassId,
    place: u32,
    body: &'a Body,
) -> Result<MethodInfo, AllocError>
    ensures { (image : Image) → Knows members.now image → IfOk result (λ done. done ≡ record {
      class = class;
      place = place;
      types = body.now.types;
      fields = field_ids image body.now;
      methods = method_ids image body.now;
    }) }
{
    let fields = field_ids(alloc, members, body.fields.items())?;
    let methods = method_ids(alloc, members, body.methods.items())?;
    let types = body.types.clone()?;
    Ok(MethodInfo {
        class,
        place,
        types,
        fields: Seq::of(fields),
        methods: Seq::of(methods),
    })
}

/// The body of a method as its class declares it.
fn body_of<'a>(members: &Members<'a>, method: &MethodInfo) -> Option<&'a Body>
    ensures { (image : Image) → Knows members.now image → option_map (λ b. b.now) result ≡ body_at image method.now }
{
    let class = members.infos.get(method.class.0 as usize)?;
    let def = class.def.methods.items().get(method.place as usize)?;
    def.body.as_ref()
}

/// The fields to which references lead, in order.
fn field_ids<'a>(
    alloc: Global,
    members: &Members<'a>,
    fields: &'a [FieldRef],
) -> Result<Vec<FieldId>, AllocError>
    ensures { (image : Image) → Knows members.now image
        → IfOk result (λ ids. ids.items ≡ map field_id (filter_map (field_named image) fields.now)) }
{
    let mut ids = Vec::new(alloc);
    for field in fields {
        if let Some(member) = members.field_named(field) {
            ids.push(FieldId(member.id))?;
        }
    }
    Ok(ids)
}

/// The methods to which references lead, in order.
fn method_ids<'a>(
    alloc: Global,
    members: &Members<'a>,
    methods: &'a [MethodRef],
) -> Result<Vec<MethodId>, AllocError>
    ensures { (image : Image) → Knows members.now image
        → IfOk result (λ ids. ids.items ≡ map method_id (filter_map (method_named image) methods.now)) }
{
    let mut ids = Vec::new(alloc);
    for method in methods {
        if let Some(member) = members.method_named(method) {
            ids.push(MethodId(member.id))?;
        }
    }
    Ok(ids)
}

// The nearest common superclass of two types.
ghost use Rattle.std.specs.Prelude.{◌≡◌, ◌<◌, ◌≤◌, suc, true, IfOk};
ghost use Rattle.dv_defs.specs.Common.{common_super as nearest_common, common_at, common_classes, common_flat as flat_common, first_common as first_of_both, joins_by_component as join_by_component, object_type as type_object};
ghost use Rattle.dv_defs.specs.Op.{class_of_base as named_by};
ghost use Rattle.dv_defs.specs.Pools.{class_type, supers};
ghost use Rattle.dv_defs.specs.Types.{is_reference as is_reference_type, ty_eq};
ghost use Rattle.dv_image.specs.Common.{type_of, type_or_object};

use crate::classes::{OBJECT, class_of, extends, parent_of};
use dv_defs::{Base, Image, Text, Ty};
use std::alloc::{AllocError, Global};

/// The nearest common superclass; arrays have one by their components where both are references.
#[tactic(auto, unfolding(dv_defs::specs::Common::common_super))]
pub fn common_super(alloc: Global, image: &Image, a: &Ty, b: &Ty) -> Result<Ty, AllocError>
    ensures { IfOk result (λ t. t ≡ nearest_common image.now a.now b.now) }
{
    common_of(alloc, image, a.dims, &a.base, b.dims, &b.base)
}

/// The same of two types with their dimensions apart.
fn common_of(
    alloc: Global,
    image: &Image,
    a_dims: u8,
    a: &Base,
    b_dims: u8,
    b: &Base,
) -> Result<Ty, AllocError>
    ensures common { IfOk result (λ t. t ≡ common_at image.now (suc a_dims) (type_of a_dims a.now) (type_of b_dims b.now)) }
    ensures dims { IfOk result (λ t. t.dims ≤ a_dims) }
{
    if is_same(a_dims, a, b_dims, b) {
        return Ok(Ty {
            dims: a_dims,
            base: a.clone()?,
        });
    }
    if joins_by_component(a_dims, a, b_dims, b) {
        let component = common_of(alloc, image, a_dims - 1, a, b_dims - 1, b)?;
        let Ty { dims, base } = component;
        return Ok(Ty {
            dims: dims + 1,
            base,
        });
    }
    common_flat(alloc, image, a_dims, a, b_dims, b)
}

fn is_same(a_dims: u8, a: &Base, b_dims: u8, b: &Base) -> bool
    ensures { result ≡ ty_eq (type_of a_dims a.now) (type_of b_dims b.now) }
{
    a_dims == b_dims && a == b
}

/// Whether both are arrays of references.
fn joins_by_component(a_dims: u8, a: &Base, b_dims: u8, b: &Base) -> bool
    ensures joins { result ≡ join_by_component (type_of a_dims a.now) (type_of b_dims b.now) }
    ensures a_dims { result ≡ true → 0 < a_dims }
    ensures b_dims { result ≡ true → 0 < b_dims }
{
    a_dims > 0 && b_dims > 0 && is_reference(a_dims - 1, a) && is_reference(b_dims - 1, b)
}

fn is_reference(dims: u8, base: &Base) -> bool
    ensures { result ≡ is_reference_type (type_of dims base.now) }
{
    dims > 0 || matches!(base, Base::Class(_))
}

/// Where they don't join by components: Object where one is an array.
fn common_flat(
    alloc: Global,
    image: &Image,
    a_dims: u8,
    a: &Base,
    b_dims: u8,
    b: &Base,
) -> Result<Ty, AllocError>
    ensures common { IfOk result (λ t. t ≡ flat_common image.now (type_of a_dims a.now) (type_of b_dims b.now)) }
    ensures dims { IfOk result (λ t. t.dims ≡ 0) }
{
    if a_dims > 0 || b_dims > 0 {
        return object_type(alloc);
    }
    match common_class(image, a, b) {
        Some(class) => type_at(alloc, image, class),
        None => object_type(alloc),
    }
}

fn object_type(alloc: Global) -> Result<Ty, AllocError>
    ensures { IfOk result (λ t. t ≡ type_object) }
{
    let name = Text::of(Vec::from_slice(alloc, OBJECT)?)?;
    Ok(Ty {
        dims: 0,
        base: Base::Class(name),
    })
}

/// The type of the class at a place.
fn type_at(alloc: Global, image: &Image, class: usize) -> Result<Ty, AllocError>
    ensures { IfOk result (λ t. t ≡ class_type image.now class) }
{
    let name = match image.classes.items().get(class) {
        Some(info) => info.def.name.clone()?,
        None => Text::of(Vec::new(alloc))?,
    };
    Ok(Ty {
        dims: 0,
        base: Base::Class(name),
    })
}

/// The nearest class that both are under.
fn common_class(image: &Image, a: &Base, b: &Base) -> Option<usize>
    ensures { common_classes image.now (named_by image.now a.now) (named_by image.now b.now) ≡ type_or_object image.now result }
{
    match (class_of_base(image, a), class_of_base(image, b)) {
        (Some(class), Some(other)) => first_common(image, class, other),
        _ => None,
    }
}

/// The place of the class that a type without dimensions names, where it names one.
pub fn class_of_base(image: &Image, base: &Base) -> Option<usize>
    ensures { result ≡ named_by image.now base.now }
{
    match base {
        Base::Class(name) => class_of(image, name),
        _ => None,
    }
}

/// The first class of a walk up from one that the other is under too.
#[tactic(auto, using(crate::proofs::Joining::join_on, crate::proofs::Joining::join_found, crate::proofs::Joining::join_top, crate::proofs::Joining::join_done))]
fn first_common(image: &Image, class: usize, other: usize) -> Option<usize>
    ensures { first_of_both image.now (supers image.now class) (supers image.now other) ≡ type_or_object image.now result }
{
    let mut at = Some(class);
    let mut left = image.classes.len();
    while left > 0 {
        let Some(place) = at else { return None };
        if extends(image, other, place) {
            return Some(place);
        }
        at = parent_of(image, place);
        left -= 1;
    }
    None
}

// Objects that are found again by a key: made with all that they need, or not at all.
ghost use Rattle.std.specs.Prelude.{◌≡◌, ◌++◌, ◌∷◌, [], length, bytes_eq, None, OnErr, IfOk};
ghost use Rattle.indexmap.specs.IndexMap.{get};
ghost use Rattle.dv_defs.specs.Types.{ty_eq};
ghost use Rattle.dv_words.specs.declared.state.Kind.TheVariants as kind;
ghost use Rattle.dv_heap.specs.Objects.{with_object};

use crate::borrowed::BorrowedKind;
use crate::contents::Contents;
use crate::objects::Objects;
use dv_defs::{Chars, Ty};
use indexmap::IndexMap;
use std::alloc::AllocError;

/// Makes the string that is found by its units.
///
/// # Errors
///
/// Want of memory; all is as before then.
pub fn add_text(
    objects: &mut Objects,
    texts: &mut IndexMap<Chars, u32>,
    units: &Chars,
) -> Result<u32, AllocError>
    requires { get bytes_eq texts.old units.now ≡ None }
    ensures object { IfOk result (λ o. (objects.new ≡ with_object objects.old kind.Str units.now) × (o ≡ length objects.new.kinds)) }
    ensures text { IfOk result (λ o. texts.new.entries ≡ texts.old.entries ++ (units.now, o) ∷ []) }
    ensures objects_kept { OnErr result (objects.new ≡ objects.old) }
    ensures texts_kept { OnErr result (texts.new.entries ≡ texts.old.entries) }
{
    let key = units.clone()?;
    texts.reserve(1)?;
    let number = objects.add(BorrowedKind::Str, &Contents::Units(units.units()))?;
    texts.insert(key, number)?;
    Ok(number)
}

/// Makes the Class object that is found by its type.
///
/// # Errors
///
/// Want of memory; all is as before then.
pub fn add_class(
    objects: &mut Objects,
    classes: &mut IndexMap<Ty, u32>,
    ty: &Ty,
) -> Result<u32, AllocError>
    requires { get ty_eq classes.old ty.now ≡ None }
    ensures object { IfOk result (λ o. (objects.new ≡ with_object objects.old (kind.ClassOf ty.now) []) × (o ≡ length objects.new.kinds)) }
    ensures class { IfOk result (λ o. classes.new.entries ≡ classes.old.entries ++ (ty.now, o) ∷ []) }
    ensures objects_kept { OnErr result (objects.new ≡ objects.old) }
    ensures classes_kept { OnErr result (classes.new.entries ≡ classes.old.entries) }
{
    let key = ty.clone()?;
    classes.reserve(1)?;
    let number = objects.add(BorrowedKind::ClassOf(ty), &Contents::Zeros(0))?;
    classes.insert(key, number)?;
    Ok(number)
}

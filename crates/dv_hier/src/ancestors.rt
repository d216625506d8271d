// The classes above each class.
ghost use Rattle.std.specs.Prelude.{◌≡◌, ◌<◌, ◌^◌, ◌||◌, ℕ, Some, [], false, length, nat_eq, slice_index_or, All, IfOk};
ghost use Rattle.dv_defs.specs.LookUp.{interfaces_above, once};
ghost use Rattle.dv_defs.specs.Order.{implements, numbers};
ghost use Rattle.dv_hier.specs.Ancestors.{HasMarked, with_interfaces};
ghost use Rattle.dv_hier.specs.Slots.{walked};
ghost use Rattle.dv_hier.specs.Upwards.{bare, is_marked};
ghost use Rattle.law_linking.specs.Ordered.{IsOrdered};
ghost use Rattle.law_linking.specs.Stripped.{AreInRange};

use dv_defs::{ClassId, ClassInfo, Seq};
use std::alloc::{AllocError, Global};

/// Marks these classes.
fn mark_all(row: &mut [bool], classes: &[ClassId])
    requires { All (λ id. id.0 < length row.old) classes.now }
    ensures { HasMarked (numbers classes.now) row.old row.new }
{
    for id in classes {
        row[id.0 as usize] = true;
    }
}

/// Marks a class and its superclasses, and with each the interfaces that are listed for it.
fn mark_above(row: &mut [bool], infos: &[ClassInfo], interfaces: &[Seq<ClassId>], class: ClassId)
    requires range { AreInRange infos.now }
    requires class_in { class.0 < length infos.now }
    requires row { length row.old ≡ length infos.now }
    requires many { length interfaces.now ≡ length infos.now }
    requires interfaces { All (All (λ id. id.0 < length infos.now)) interfaces.now }
    ensures { HasMarked (with_interfaces interfaces.now (walked infos.now (length infos.now) (Some class.0))) row.old row.new }
{
    let mut at = Some(class);
    for _ in 0..infos.len() {
        let Some(id) = at else {
            return;
        };
        let place = id.0 as usize;
        row[place] = true;
        mark_all(row, interfaces[place].items());
        at = infos[place].parent;
    }
}

/// Whether each class is this one or above it.
fn ancestors_of(
    alloc: Global,
    infos: &[ClassInfo],
    interfaces: &[Seq<ClassId>],
    class: ClassId,
) -> Result<Seq<bool>, AllocError>
    requires ordered { IsOrdered (bare infos.now) }
    requires class_in { class.0 < length infos.now }
    requires many { length interfaces.now ≡ length infos.now }
    requires interfaces { (c : ℕ) → numbers (slice_index_or interfaces.now c []) ≡ once (interfaces_above (bare infos.now) c) }
    ensures { IfOk result (λ row. (d : ℕ) → is_marked row d ≡ implements (bare infos.now) class.0 d) }
{
    let mut row = vec![in alloc; false; infos.len()]?;
    mark_above(row.as_mut_slice(), infos, interfaces, class);
    Ok(Seq::of(row))
}

/// By class, whether each class is above it, by superclasses and superinterfaces.
pub fn ancestors_of_all(
    alloc: Global,
    infos: &[ClassInfo],
    interfaces: &[Seq<ClassId>],
) -> Result<Vec<Seq<bool>>, AllocError>
    requires few { length infos.now < 2 ^ 32 }
    requires ordered { IsOrdered (bare infos.now) }
    requires many { length interfaces.now ≡ length infos.now }
    requires interfaces { (c : ℕ) → numbers (slice_index_or interfaces.now c []) ≡ once (interfaces_above (bare infos.now) c) }
    ensures { IfOk result (λ rows. (c d : ℕ)
        → (nat_eq c d || slice_index_or (slice_index_or rows.items c []) d false) ≡ implements (bare infos.now) c d) }
{
    let mut rows = Vec::new(alloc);
    for class in 0..infos.len() {
        rows.push(ancestors_of(alloc, infos, interfaces, ClassId(class as u32))?)?;
    }
    Ok(rows)
}

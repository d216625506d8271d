// Methods that a class may not declare as it does.
ghost use Rattle.std.specs.Prelude.{◌≡◌, false, Some, length, option_map, slice_get, IfOk, OnOk};
ghost use Rattle.std.specs.BTreeSet.{contains};
ghost use Rattle.dv_defs.specs.declared.faults.LinkKind.TheVariants as kind;
ghost use Rattle.dv_defs.specs.First.{first_below};
ghost use Rattle.dv_defs.specs.Images.{Image};
ghost use Rattle.dv_defs.specs.LinkFaults.{Checks, first_fault_by, found, method_twice as first_twice, wrong_methods};
ghost use Rattle.dv_defs.specs.Linked.{defs};
ghost use Rattle.law_linking.specs.Stripped.{AreInRange};
ghost use Rattle.dv_vtable.specs.declared.keys.MethodKey.{MethodKey as Key};
ghost use Rattle.dv_vtable.specs.Numbered.{AreNumbers};

use crate::bodies::check_bodies;
use crate::finals::check_finals;
use crate::key_numbers::KeyNumbers;
use crate::keys::{MethodKey, key_of};
use crate::table::Table;
use dv_defs::{ClassDef, ClassInfo, LinkError, LinkKind, MethodDef, Text};
use dv_hier::error_of;
use std::alloc::{AllocError, Global};
use std::collections::BTreeSet;

/// The name of the first method that an earlier one is like, as that method has it. What is met is added to the set, which is empty;
/// a lone method needs none.
fn repeated_in<'a>(
    seen: &mut BTreeSet<MethodKey<'a>>,
    methods: &'a [MethodDef],
) -> Result<Option<&'a Text>, AllocError>
    requires none { (k : Key) → contains ⟦<MethodKey<'a> as Ord>⟧.cmp seen.old k ≡ false }
    ensures { IfOk result (λ name. first_below (first_twice methods.now) (length methods.now) ≡ option_map (λ n. kind.MethodTwice n.now) name) }
{
    let several = methods.len() > 1;
    for i in 0..methods.len() {
        let key = key_of(&methods[i]);
        if several && !seen.insert(key)? {
            return Ok(Some(key.name));
        }
    }
    Ok(None)
}

/// The name of the first method that an earlier one is like, as that method has it.
fn repeated_name<'a>(
    alloc: Global,
    methods: &'a [MethodDef],
) -> Result<Option<&'a Text>, AllocError>
    ensures { IfOk result (λ name. first_below (first_twice methods.now) (length methods.now) ≡ option_map (λ n. kind.MethodTwice n.now) name) }
{
    let mut seen = BTreeSet::new(alloc);
    repeated_in(&mut seen, methods)
}

/// The name of the first method that an earlier one is like.
fn method_twice(alloc: Global, methods: &[MethodDef]) -> Result<Option<Text>, AllocError>
    ensures { IfOk result (λ name. first_below (first_twice methods.now) (length methods.now) ≡ option_map kind.MethodTwice name) }
{
    match repeated_name(alloc, methods)? {
        Some(name) => Ok(Some(name.clone()?)),
        None => Ok(None),
    }
}

/// The first method of a class that may not stand as it is declared. `place` is the number of the class, and `finals` has room for the
/// keys of final methods.
fn check_class(
    alloc: Global,
    finals: &mut Table,
    infos: &[ClassInfo],
    keys: &KeyNumbers,
    boot: u32,
    place: usize,
    class: &ClassDef,
) -> Result<(), LinkError>
    requires range { AreInRange infos.now }
    requires numbers { AreNumbers infos.now keys.now.firsts.items keys.now.numbers.items keys.now.keys.items }
    requires class { slice_get (defs infos.now) place ≡ Some class.now }
    requires count { finals.old.count ≡ length keys.now.keys.items }
    ensures count { OnOk result (finals.new.count ≡ finals.old.count) }
    ensures fault { (image : Image) → image.classes ≡ infos.now → image.boot ≡ boot
        → Checks result (option_map (found class.now.name) (wrong_methods image place class.now)) }
{
    if let Some(name) = method_twice(alloc, class.methods.items())? {
        return Err(error_of(&class.name, LinkKind::MethodTwice(name)));
    }
    check_bodies(boot, place, class)?;
    check_finals(finals, infos, keys, place, class)
}

/// The first class with a method that it declares twice, that has a body where it may not or none where it must, or that overrides
/// a final one (JLS 8.4.2, 8.4.3.3).
pub fn check_methods(
    alloc: Global,
    infos: &[ClassInfo],
    keys: &KeyNumbers,
    boot: u32,
) -> Result<(), LinkError>
    requires range { AreInRange infos.now }
    requires numbers { AreNumbers infos.now keys.now.firsts.items keys.now.numbers.items keys.now.keys.items }
    ensures { (image : Image) → image.classes ≡ infos.now → image.boot ≡ boot → Checks result (first_fault_by (wrong_methods image) (defs infos.now)) }
{
    let mut finals = Table::new(alloc, keys.keys.len())?;
    for (place, info) in infos.iter().enumerate() {
        check_class(alloc, &mut finals, infos, keys, boot, place, &info.def)?;
    }
    Ok(())
}

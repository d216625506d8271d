// Final methods that a class overrides.
ghost use Rattle.std.specs.Prelude.{◌≡◌, ◌<◌, ◌||◌, false, Some, length, option_map, slice_get, OnOk};
ghost use Rattle.dv_defs.specs.First.{first_in};
ghost use Rattle.dv_defs.specs.Images.{Image};
ghost use Rattle.dv_defs.specs.LinkFaults.{Checks, found, overrides_final};
ghost use Rattle.dv_defs.specs.Linked.{defs};
ghost use Rattle.law_linking.specs.Stripped.{AreInRange};
ghost use Rattle.dv_vtable.specs.Chains.{Key};
ghost use Rattle.dv_vtable.specs.Finals.{class_has_final, final_above, is_constructor, has_entry};
ghost use Rattle.dv_vtable.specs.Numbered.{AreNumbers, all_methods};

use crate::key_numbers::KeyNumbers;
use crate::table::Table;
use dv_defs::{ClassDef, ClassInfo, Flag, LinkError, LinkKind, MethodId};
use dv_hier::error_of;
use std::alloc::AllocError;

/// Enters the keys of a class's final methods, but not those of its static and private ones.
fn enter_finals(
    finals: &mut Table,
    infos: &[ClassInfo],
    keys: &KeyNumbers,
    class: usize,
) -> Result<(), AllocError>
    requires numbers { AreNumbers infos.now keys.now.firsts.items keys.now.numbers.items keys.now.keys.items }
    requires class { class < length infos.now }
    requires count { finals.old.count ≡ length keys.now.keys.items }
    ensures count { OnOk result (finals.new.count ≡ finals.old.count) }
    ensures finals { OnOk result ((k : Key) → is_constructor k ≡ false → has_entry (all_methods infos.now) finals.new.entries k
        ≡ (has_entry (all_methods infos.now) finals.old.entries k || class_has_final infos.now k class)) }
{
    let methods = infos[class].def.methods.items();
    for (place, key) in keys.own(infos, class).iter().enumerate() {
        if let Some(number) = key {
            if Flag::Final.is_in(methods[place].flags) {
                finals.enter(*number, MethodId(*number))?;
            }
        }
    }
    Ok(())
}

/// Enters the keys of the methods that a class may not override: of its superclasses' final ones.
fn enter_finals_above(
    finals: &mut Table,
    infos: &[ClassInfo],
    keys: &KeyNumbers,
    class: usize,
) -> Result<(), AllocError>
    requires range { AreInRange infos.now }
    requires numbers { AreNumbers infos.now keys.now.firsts.items keys.now.numbers.items keys.now.keys.items }
    requires class { class < length infos.now }
    requires count { finals.old.count ≡ length keys.now.keys.items }
    ensures count { OnOk result (finals.new.count ≡ finals.old.count) }
    ensures finals { OnOk result ((k : Key) → is_constructor k ≡ false
        → has_entry (all_methods infos.now) finals.new.entries k ≡ final_above infos.now class k) }
{
    finals.clear();
    let mut above = infos[class].parent;
    for _ in 1..infos.len() {
        let Some(id) = above else {
            return Ok(());
        };
        let info = &infos[id.0 as usize];
        enter_finals(finals, infos, keys, id.0 as usize)?;
        above = info.parent;
    }
    Ok(())
}

/// The first method of a class that overrides a final one. A constructor doesn't.
pub fn check_finals(
    finals: &mut Table,
    infos: &[ClassInfo],
    keys: &KeyNumbers,
    place: usize,
    class: &ClassDef,
) -> Result<(), LinkError>
    requires range { AreInRange infos.now }
    requires numbers { AreNumbers infos.now keys.now.firsts.items keys.now.numbers.items keys.now.keys.items }
    requires class { slice_get (defs infos.now) place ≡ Some class.now }
    requires count { finals.old.count ≡ length keys.now.keys.items }
    ensures count { OnOk result (finals.new.count ≡ finals.old.count) }
    ensures fault { (image : Image) → image.classes ≡ infos.now
        → Checks result (option_map (found class.now.name) (first_in (overrides_final image place) class.now.methods)) }
{
    enter_finals_above(finals, infos, keys, place)?;
    let own = keys.own(infos, place);
    for (i, method) in class.methods.items().iter().enumerate() {
        if let Some(number) = own[i] {
            if finals.has(number) {
                return Err(error_of(&class.name, LinkKind::FinalOverride(method.name.clone()?)));
            }
        }
    }
    Ok(())
}

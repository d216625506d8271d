// The names of classes, each told once.
ghost use Rattle.std.specs.Prelude.{◌≡◌, ℕ, IfOk};
ghost use Rattle.dv_defs.specs.LinkFaults.{Checks, first_fault_by, is_twice};
ghost use Rattle.dv_defs.specs.Numbering.{declared};
ghost use Rattle.law_linking.specs.Stripped.{def_names};

use crate::faults::error_of;
use dv_defs::{ClassDef, LinkError, LinkKind, Pool, Text};
use std::alloc::Global;

/// The names of the classes, or the first class whose name an earlier one has.
pub fn index_names(alloc: Global, classes: &[ClassDef]) -> Result<Pool<Text>, LinkError>
    ensures fault { (boot : ℕ) → Checks result (first_fault_by (is_twice (declared classes.now boot)) classes.now) }
    ensures names { IfOk result (λ names. names ≡ def_names classes.now) }
{
    let mut names = Pool::new(alloc);
    for i in 0..classes.len() {
        let name = &classes[i].name;
        if names.place_of(name).is_some() {
            return Err(error_of(name, LinkKind::ClassTwice));
        }
        names.add(name)?;
    }
    Ok(names)
}

// Classes that are marked, and those of a list each once.
ghost use Rattle.std.specs.Prelude.{◌≡◌, ◌<◌, ℕ, All, false, length, slice_index_or, if◌then◌else◌, OnOk};
ghost use Rattle.dv_defs.specs.Order.{has_number, numbers};
ghost use Rattle.dv_hier.specs.Interfaces.{added};
ghost use Rattle.dv_vtable.specs.Choosing.{AreMarked};

use dv_defs::ClassId;
use std::alloc::AllocError;

/// Marks these classes, or takes their marks away.
pub fn mark_all(marks: &mut [bool], classes: &[ClassId], mark: bool)
    requires { All (λ c. c.0 < length marks.old) classes.now }
    ensures { (d : ℕ) → slice_index_or marks.new d false ≡ (if has_number d (numbers classes.now) then mark else slice_index_or marks.old d false) }
{
    for class in classes {
        marks[class.0 as usize] = mark;
    }
}

/// Adds those of these classes that have no mark, and marks them. Those that are there are marked.
pub fn add_unmarked(
    found: &mut Vec<ClassId>,
    marks: &mut [bool],
    classes: &[ClassId],
) -> Result<(), AllocError>
    requires range { All (λ c. c.0 < length marks.old) classes.now }
    requires found_range { All (λ c. c.0 < length marks.old) found.old.items }
    requires marked { AreMarked marks.old (numbers found.old.items) }
    ensures range { OnOk result (All (λ c. c.0 < length marks.old) found.new.items) }
    ensures marked { OnOk result (AreMarked marks.new (numbers found.new.items)) }
    ensures found { OnOk result (numbers found.new.items ≡ added (numbers found.old.items) (numbers classes.now)) }
{
    for class in classes {
        let place = class.0 as usize;
        if !marks[place] {
            found.push(*class)?;
            marks[place] = true;
        }
    }
    Ok(())
}

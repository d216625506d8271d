// Methods by number.
ghost use Rattle.std.specs.Prelude.{◌≡◌, ◌<◌, ◌^◌, ◌++◌, length, map, sum_by, IfOk, OnOk};
ghost use Rattle.std.specs.List.{range_with_len};
ghost use Rattle.dv_defs.specs.Linked.{defs};
ghost use Rattle.dv_defs.specs.Numbering.{methods_declared, all_methods_declared};
ghost use Rattle.dv_vtable.specs.Chains.{first_method};

use dv_defs::{ClassDef, ClassId, ClassInfo, MethodInfo, Seq};
use std::alloc::{AllocError, Global};

/// Adds the methods of a class in their order, with nothing resolved.
fn add_methods(
    alloc: Global,
    methods: &mut Vec<MethodInfo>,
    id: ClassId,
    class: &ClassDef,
) -> Result<(), AllocError>
    requires few { length class.now.methods < 2 ^ 32 }
    ensures { OnOk result (methods.new.items ≡ methods.old.items ++ methods_declared id.0 class.now) }
{
    for place in 0..class.methods.len() {
        methods.push(MethodInfo {
            class: id,
            place: place as u32,
            types: Seq::of(Vec::new(alloc)),
            fields: Seq::of(Vec::new(alloc)),
            methods: Seq::of(Vec::new(alloc)),
        })?;
    }
    Ok(())
}

/// All methods by number, with nothing resolved.
pub fn number_methods(alloc: Global, infos: &[ClassInfo]) -> Result<Vec<MethodInfo>, AllocError>
    requires few { length infos.now < 2 ^ 32 }
    requires few_methods { sum_by (λ c. length c.def.methods) infos.now < 2 ^ 31 }
    ensures { IfOk result (λ methods. methods.items ≡ all_methods_declared 0 (defs infos.now)) }
{
    let mut methods = Vec::new(alloc);
    for class in 0..infos.len() {
        add_methods(
            alloc,
            &mut methods,
            ClassId(class as u32),
            &infos[class].def,
        )?;
    }
    Ok(methods)
}

/// The number of each class's first method.
pub fn first_methods(alloc: Global, infos: &[ClassInfo]) -> Result<Vec<u32>, AllocError>
    requires few_methods { sum_by (λ c. length c.def.methods) infos.now < 2 ^ 31 }
    ensures { IfOk result (λ firsts. firsts.items ≡ map (first_method infos.now) (range_with_len 0 (length infos.now))) }
{
    let mut firsts = Vec::new(alloc);
    let mut first = 0;
    for info in infos {
        firsts.push(first)?;
        first += info.def.methods.len() as u32;
    }
    Ok(firsts)
}

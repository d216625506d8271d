// The methods that a class and its superclasses have by their keys: of each key the nearest one.
ghost use Rattle.std.specs.Prelude.{◌≡◌, ◌<◌, ◌+◌, ◌^◌, [], length, sum_by, All, IfOk, IfSome, OnOk};
ghost use Rattle.dv_defs.specs.Order.{numbers};
ghost use Rattle.law_linking.specs.Stripped.{AreInRange};
ghost use Rattle.dv_vtable.specs.Chains as spec;
ghost use Rattle.dv_vtable.specs.Numbered.{AreNumbers, all_methods, entered_numbers, numbered};

use crate::key_numbers::KeyNumbers;
use crate::table::Table;
use dv_defs::{ClassId, ClassInfo, MethodId};
use std::alloc::{AllocError, Global};

/// Enters a class's own methods by the numbers of their keys. A key that is there keeps its place, and has the class's method now. `first`
/// is the number of the class's first method.
fn enter(table: &mut Table, own: &[Option<u32>], first: u32) -> Result<(), AllocError>
    requires few_methods { first + length own.now < 2 ^ 32 }
    requires range { All (λ key. IfSome key (λ n. n < table.old.count)) own.now }
    ensures { OnOk result (table.new ≡ record { entries = entered_numbers table.old.entries first own.now; count = table.old.count }) }
{
    for (place, key) in own.iter().enumerate() {
        if let Some(number) = key {
            table.enter(*number, MethodId(first + place as u32))?;
        }
    }
    Ok(())
}

/// A class and its superclasses, nearest first.
pub fn chain_of(
    alloc: Global,
    infos: &[ClassInfo],
    class: ClassId,
) -> Result<Vec<ClassId>, AllocError>
    requires range { AreInRange infos.now }
    requires class { class.0 < length infos.now }
    ensures chain { IfOk result (λ chain. numbers chain.items ≡ spec.chain_of infos.now class.0) }
    ensures range { IfOk result (λ chain. All (λ c. c.0 < length infos.now) chain.items) }
{
    let mut chain = Vec::new(alloc);
    let mut above = Some(class);
    for _ in 0..infos.len() {
        let Some(id) = above else {
            return Ok(chain);
        };
        chain.push(id)?;
        above = infos[id.0 as usize].parent;
    }
    Ok(chain)
}

/// Enters the methods of a chain, which is nearest first: the farthest class's methods come first. The table is empty.
pub fn enter_chain(
    table: &mut Table,
    infos: &[ClassInfo],
    keys: &KeyNumbers,
    chain: &[ClassId],
) -> Result<(), AllocError>
    requires few_methods { sum_by (λ c. length c.def.methods) infos.now < 2 ^ 31 }
    requires numbers { AreNumbers infos.now keys.now.firsts.items keys.now.numbers.items keys.now.keys.items }
    requires range { All (λ c. c.0 < length infos.now) chain.now }
    requires table { table.old ≡ record { entries = []; count = length keys.now.keys.items } }
    ensures { OnOk result (table.new ≡ record {
      entries = numbered (all_methods infos.now) (spec.entered_chain infos.now [] (numbers chain.now));
      count = table.old.count;
    }) }
{
    for k in (0..chain.len()).rev() {
        let class = chain[k].0 as usize;
        enter(table, keys.own(infos, class), keys.firsts[class])?;
    }
    Ok(())
}

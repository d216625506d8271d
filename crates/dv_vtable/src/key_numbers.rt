// The numbers of methods and of their keys.
ghost use Rattle.std.specs.Prelude.{◌≡◌, ◌<◌, ◌≤◌, ◌+◌, ◌^◌, List, length, take, drop, sum_by, slice_get, if◌then◌else◌, Some, None, IfOk, OnOk};
ghost use Rattle.dv_defs.specs.declared.class.MethodDef.{MethodDef as Method};
ghost use Rattle.dv_defs.specs.Pools.{methods_of};
ghost use Rattle.dv_vtable.specs.Chains as spec;
ghost use Rattle.dv_vtable.specs.Firsts.{AreFirst, AreNumbered, StandAt};
ghost use Rattle.dv_vtable.specs.Numbered.{AreNumbers, all_methods, key_number, key_numbers_in, numbers_in};

use crate::keys::{INIT, MethodKey, key_of};
use crate::numbering::first_methods;
use dv_defs::{ClassInfo, Flag, MethodDef};
use std::alloc::{AllocError, Global};
use std::collections::BTreeMap;

/// The numbers of methods, and those of their keys, which all methods of one name and prototype share.
#[derive(Drop)]
pub struct KeyNumbers {
    /// By class, the number of its first method.
    pub firsts: Vec<u32>,
    /// By method, the number of its key.
    pub numbers: Vec<u32>,
    /// The same, but none of a method on which no call on an object may land.
    pub keys: Vec<Option<u32>>,
}

/// Whether a call on an object may land on the method: it is an instance method, and neither private nor a constructor.
fn is_in_tables(method: &MethodDef) -> bool
    ensures { result ≡ spec.is_in_tables method.now }
{
    !Flag::Static.is_in(method.flags)
        && !Flag::Private.is_in(method.flags)
        && method.name.bytes() != INIT
}

/// The number of a key of a method, where a call may land on this.
fn in_tables(method: &MethodDef, number: u32) -> Option<u32>
    ensures { result ≡ (if spec.is_in_tables method.now then Some number else None) }
{
    if is_in_tables(method) {
        Some(number)
    } else {
        None
    }
}

/// The number of a method's key: that of the first method which has it. `number` is the method's own, and what is known are the keys of
/// the methods before it, with their numbers.
fn number_of<'a>(
    known: &mut BTreeMap<MethodKey<'a>, u32>,
    method: &'a MethodDef,
    number: u32,
) -> Result<u32, AllocError>
    ensures number { (all : List Method) → slice_get all number ≡ Some method.now → AreFirst (take number all) known.old
        → IfOk result (λ n. n ≡ key_number all (spec.key_in method.now)) }
    ensures known { (all : List Method) → slice_get all number ≡ Some method.now → AreFirst (take number all) known.old
        → OnOk result (AreFirst (take (number + 1) all) known.new) }
{
    let key = key_of(method);
    if let Some(first) = known.get(&key).copied() {
        return Ok(first);
    }
    known.insert(key, number)?;
    Ok(number)
}

/// Adds the numbers of the keys of methods, which stand behind those that have theirs.
fn add_keys<'a>(
    known: &mut BTreeMap<MethodKey<'a>, u32>,
    numbers: &mut Vec<u32>,
    keys: &mut Vec<Option<u32>>,
    methods: &'a [MethodDef],
) -> Result<(), AllocError>
    requires few { length keys.old.items + length methods.now < 2 ^ 32 }
    ensures count { OnOk result (length keys.new.items ≡ length keys.old.items + length methods.now) }
    ensures numbered { (all : List Method) → StandAt all (length keys.old.items) methods.now → AreNumbered all known.old numbers.old.items keys.old.items
        → OnOk result (AreNumbered all known.new numbers.new.items keys.new.items) }
{
    for method in methods {
        let number = number_of(known, method, keys.len() as u32)?;
        numbers.push(number)?;
        keys.push(in_tables(method, number))?;
    }
    Ok(())
}

/// The numbers of the keys of all methods, and those of methods on which a call may land.
fn number_keys(
    alloc: Global,
    infos: &[ClassInfo],
) -> Result<(Vec<u32>, Vec<Option<u32>>), AllocError>
    requires few_methods { sum_by (λ c. length c.def.methods) infos.now < 2 ^ 31 }
    ensures numbers { IfOk result (λ done. done.0.items ≡ key_numbers_in (all_methods infos.now) (all_methods infos.now)) }
    ensures keys { IfOk result (λ done. done.1.items ≡ numbers_in (all_methods infos.now) (all_methods infos.now)) }
{
    let mut known = BTreeMap::new(alloc);
    let mut numbers = Vec::new(alloc);
    let mut keys = Vec::new(alloc);
    for info in infos {
        add_keys(
            &mut known,
            &mut numbers,
            &mut keys,
            info.def.methods.items(),
        )?;
    }
    Ok((numbers, keys))
}

/// So many numbers from a place on.
fn part(keys: &[Option<u32>], first: usize, count: usize) -> &[Option<u32>]
    requires { first + count ≤ length keys.now }
    ensures { result.now ≡ take count (drop first keys.now) }
{
    &keys[first..first + count]
}

impl KeyNumbers {
    pub fn new(alloc: Global, infos: &[ClassInfo]) -> Result<KeyNumbers, AllocError>
        requires few_methods { sum_by (λ c. length c.def.methods) infos.now < 2 ^ 31 }
        ensures { IfOk result (λ all. AreNumbers infos.now all.firsts.items all.numbers.items all.keys.items) }
    {
        let firsts = first_methods(alloc, infos)?;
        let (numbers, keys) = number_keys(alloc, infos)?;
        Ok(KeyNumbers {
            firsts,
            numbers,
            keys,
        })
    }

    /// The numbers of the keys of a class's methods.
    pub fn own(&self, infos: &[ClassInfo], class: usize) -> &[Option<u32>]
        requires numbers { AreNumbers infos.now self.now.firsts.items self.now.numbers.items self.now.keys.items }
        requires class { class < length infos.now }
        ensures { result.now ≡ numbers_in (all_methods infos.now) (methods_of (slice_get infos.now class)) }
    {
        let first = self.firsts[class] as usize;
        part(&self.keys, first, infos[class].def.methods.len())
    }
}

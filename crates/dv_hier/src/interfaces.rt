// The interfaces above each class.
ghost use Rattle.std.specs.Prelude.{◌≡◌, ◌<◌, ℕ, true, [], length, map, slice_get, slice_index_or, IfOk, OnOk};
ghost use Rattle.dv_defs.specs.Images.{Image};
ghost use Rattle.dv_defs.specs.LookUp.{interfaces_above, once};
ghost use Rattle.dv_defs.specs.Order.{interfaces_of, numbers};
ghost use Rattle.law_linking.specs.Ordered.{IsOrdered};
ghost use Rattle.dv_hier.specs.Interfaces.{added, are_ready, AreRight, is_listed, list_of, listed, or_empty, unlisted as without_list};

use dv_defs::{ClassId, ClassInfo, Pool, Seq};
use std::alloc::{AllocError, Global};

/// Adds these classes to those that are there, each that isn't at the end.
fn add_all(pool: &mut Pool<ClassId>, classes: &[ClassId]) -> Result<(), AllocError>
    ensures { OnOk result (numbers pool.new ≡ added (numbers pool.old) (numbers classes.now)) }
{
    for id in classes {
        pool.add(id)?;
    }
    Ok(())
}

/// Whether each of these interfaces has its list.
fn are_listed(lists: &[Option<Seq<ClassId>>], interfaces: &[ClassId]) -> bool
    ensures { result ≡ are_ready lists.now (numbers interfaces.now) }
{
    for id in interfaces {
        let Some(list) = lists.get(id.0 as usize) else {
            return false;
        };
        if list.is_none() {
            return false;
        }
    }
    true
}

/// The list of a class: empty, where it has none.
fn list_at(lists: &[Option<Seq<ClassId>>], class: ClassId) -> &[ClassId]
    ensures { numbers result.now ≡ list_of lists.now class.0 }
{
    let Some(list) = lists.get(class.0 as usize) else {
        return &[];
    };
    match list {
        Some(above) => above.items(),
        None => &[],
    }
}

/// These interfaces and those above them, by these interfaces' lists.
fn list_above(
    alloc: Global,
    lists: &[Option<Seq<ClassId>>],
    interfaces: &[ClassId],
) -> Result<Seq<ClassId>, AllocError>
    ensures { IfOk result (λ above. numbers above ≡ listed lists.now (numbers interfaces.now)) }
{
    let mut pool = Pool::new(alloc);
    for id in interfaces {
        pool.add(id)?;
        add_all(&mut pool, list_at(lists, *id))?;
    }
    pool.into_seq()
}

/// Lists each class whose interfaces are listed already, and tells whether all classes are.
fn fill(
    alloc: Global,
    infos: &[ClassInfo],
    lists: &mut Vec<Option<Seq<ClassId>>>,
) -> Result<bool, AllocError>
    requires { length lists.old.items ≡ length infos.now }
    ensures length { length lists.new.items ≡ length infos.now }
    ensures right { (image : Image) → image.classes ≡ infos.now → IsOrdered image → AreRight image lists.old.items → OnOk result (AreRight image lists.new.items) }
    ensures kept { (c : ℕ) → is_listed lists.old.items c ≡ true → OnOk result (is_listed lists.new.items c ≡ true) }
    ensures ready { (c : ℕ) → c < length infos.now → are_ready lists.old.items (interfaces_of (slice_get infos.now c)) ≡ true → OnOk result (is_listed lists.new.items c ≡ true) }
    ensures whole { IfOk result (λ all. all ≡ true → (c : ℕ) → c < length infos.now → is_listed lists.new.items c ≡ true) }
{
    let mut is_whole = true;
    for class in 0..infos.len() {
        if lists[class].is_none() {
            let interfaces = infos[class].interfaces.items();
            if are_listed(lists, interfaces) {
                lists[class] = Some(list_above(alloc, lists, interfaces)?);
            } else {
                is_whole = false;
            }
        }
    }
    Ok(is_whole)
}

/// No list for any class.
fn unlisted(alloc: Global, infos: &[ClassInfo]) -> Result<Vec<Option<Seq<ClassId>>>, AllocError>
    ensures { IfOk result (λ lists. lists.items ≡ map without_list infos.now) }
{
    let mut lists = Vec::new(alloc);
    for _ in infos {
        lists.push(None)?;
    }
    Ok(lists)
}

/// The lists, empty where there is none.
fn finished(
    alloc: Global,
    lists: Vec<Option<Seq<ClassId>>>,
) -> Result<Vec<Seq<ClassId>>, AllocError>
    ensures { IfOk result (λ done. done.items ≡ map or_empty lists.items) }
{
    let mut done = Vec::new(alloc);
    for list in lists {
        done.push(match list {
            Some(above) => above,
            None => Seq::of(Vec::new(alloc)),
        })?;
    }
    Ok(done)
}

/// By class, the interfaces that it names and those above them, depth first, each once.
/// A class is listed after those that it names, in as many rounds as there are interfaces above one another.
pub fn interfaces_of_all(
    alloc: Global,
    infos: &[ClassInfo],
) -> Result<Vec<Seq<ClassId>>, AllocError>
    ensures many { IfOk result (λ above. length above.items ≡ length infos.now) }
    ensures above { (image : Image) → image.classes ≡ infos.now → IsOrdered image
        → IfOk result (λ above. (c : ℕ) → numbers (slice_index_or above.items c []) ≡ once (interfaces_above image c)) }
{
    let mut lists = unlisted(alloc, infos)?;
    for _ in 0..infos.len() {
        if fill(alloc, infos, &mut lists)? {
            return finished(alloc, lists);
        }
    }
    finished(alloc, lists)
}

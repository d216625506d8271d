// The classes that are initialised before each class.
ghost use Rattle.std.specs.Prelude.{◌≡◌, ◌<◌, ◌^◌, ◌++◌, true, length, map, filter, flat_map, option_to_list, All, IfOk, OnOk};
ghost use Rattle.std.specs.List.{list_all, list_any, range_with_len};
ghost use Rattle.dv_defs.specs.Images.{Image};
ghost use Rattle.dv_defs.specs.Linked.{priors_at};
ghost use Rattle.dv_defs.specs.LookUp.{interfaces_at, once};
ghost use Rattle.dv_defs.specs.Order.{numbers};
ghost use Rattle.dv_defs.specs.Pools.{class_number};
ghost use Rattle.dv_defs.specs.Prior as prior;
ghost use Rattle.dv_hier.specs.Interfaces.{added};
ghost use Rattle.dv_hier.specs.Upwards.{bare, is_marked};
ghost use Rattle.law_linking.specs.Ordered.{IsOrdered};
ghost use Rattle.law_linking.specs.Stripped.{AreInRange};
ghost use Rattle.dv_vtable.specs.Priors.{IsClosed, declarers, ends_in};

use crate::keys::INIT;
use dv_defs::{ClassDef, ClassId, ClassInfo, Flag, MethodDef, Pool, Seq};
use std::alloc::{AllocError, Global};

/// Whether a method of an interface is a default one: an instance method that is neither abstract nor private nor a constructor.
fn is_default(method: &MethodDef) -> bool
    ensures { result ≡ prior.is_default method.now }
{
    !Flag::Static.is_in(method.flags)
        && !Flag::Abstract.is_in(method.flags)
        && !Flag::Private.is_in(method.flags)
        && method.name.bytes() != INIT
}

/// Whether a class declares a default method.
fn declares_default(class: &ClassDef) -> bool
    ensures { result ≡ list_any prior.is_default class.now.methods }
{
    class.methods.items().iter().any(is_default)
}

/// Whether each class declares a default method.
fn default_declarers(alloc: Global, infos: &[ClassInfo]) -> Result<Vec<bool>, AllocError>
    ensures { IfOk result (λ declares. declares.items ≡ declarers infos.now) }
{
    let mut declares = Vec::new(alloc);
    for info in infos {
        declares.push(declares_default(&info.def))?;
    }
    Ok(declares)
}

/// Adds each of these interfaces that isn't there, behind those that it extends. At most `steps` of them extend one another.
fn add_all(
    pool: &mut Pool<ClassId>,
    infos: &[ClassInfo],
    interfaces: &[ClassId],
    steps: usize,
) -> Result<(), AllocError>
    requires range { AreInRange infos.now }
    requires interfaces { All (λ i. i.0 < length infos.now) interfaces.now }
    requires steps { list_all (ends_in (interfaces_at (bare infos.now)) steps) (numbers interfaces.now) ≡ true }
    requires closed { IsClosed infos.now (numbers pool.old) }
    ensures closed { OnOk result (IsClosed infos.now (numbers pool.new)) }
    ensures added { OnOk result (numbers pool.new
        ≡ added (numbers pool.old) (flat_map (prior.downward (interfaces_at (bare infos.now)) steps) (numbers interfaces.now))) }
{
    for id in interfaces {
        if pool.place_of(id).is_some() {
            continue;
        }
        let above = infos[id.0 as usize].interfaces.items();
        add_all(pool, infos, above, steps - 1)?;
        pool.add(id)?;
    }
    Ok(())
}

/// These interfaces and those above them, each behind those that it extends.
fn interfaces_before(
    alloc: Global,
    infos: &[ClassInfo],
    interfaces: &[ClassId],
) -> Result<Seq<ClassId>, AllocError>
    requires ordered { IsOrdered (bare infos.now) }
    requires interfaces { All (λ i. i.0 < length infos.now) interfaces.now }
    ensures range { IfOk result (λ before. All (λ i. i.0 < length infos.now) before) }
    ensures before { IfOk result (λ before. numbers before
        ≡ once (flat_map (prior.downward (interfaces_at (bare infos.now)) (length infos.now)) (numbers interfaces.now))) }
{
    let mut pool = Pool::new(alloc);
    add_all(&mut pool, infos, interfaces, infos.len())?;
    pool.into_seq()
}

/// Adds the superclass, where there is one.
fn add_parent(priors: &mut Vec<ClassId>, parent: Option<ClassId>) -> Result<(), AllocError>
    ensures { OnOk result (numbers priors.new.items ≡ numbers priors.old.items ++ option_to_list (class_number parent)) }
{
    if let Some(id) = parent {
        priors.push(id)?;
    }
    Ok(())
}

/// Adds those of these interfaces that declare a default method.
fn add_declarers(
    priors: &mut Vec<ClassId>,
    declares: &[bool],
    interfaces: &[ClassId],
) -> Result<(), AllocError>
    requires { All (λ i. i.0 < length declares.now) interfaces.now }
    ensures { OnOk result (numbers priors.new.items ≡ numbers priors.old.items ++ filter (is_marked declares.now) (numbers interfaces.now)) }
{
    for id in interfaces {
        if declares[id.0 as usize] {
            priors.push(*id)?;
        }
    }
    Ok(())
}

/// The classes that are initialised before a class.
fn priors_of(
    alloc: Global,
    infos: &[ClassInfo],
    declares: &[bool],
    class: usize,
) -> Result<Vec<ClassId>, AllocError>
    requires ordered { IsOrdered (bare infos.now) }
    requires class { class < length infos.now }
    requires declares { declares.now ≡ declarers infos.now }
    ensures { IfOk result (λ priors. priors.items ≡ priors_at (bare infos.now) class) }
{
    let info = &infos[class];
    let mut priors = Vec::new(alloc);
    if Flag::Interface.is_in(info.def.flags) {
        return Ok(priors);
    }
    let before = interfaces_before(alloc, infos, info.interfaces.items())?;
    add_parent(&mut priors, info.parent)?;
    add_declarers(&mut priors, declares, before.items())?;
    Ok(priors)
}

/// By class, the classes that are initialised before it, in their order: its superclass, and the superinterfaces that declare a default
/// method, each behind those that it extends; before an interface none (JLS 12.4.2, step 7).
pub fn priors_of_all(alloc: Global, infos: &[ClassInfo]) -> Result<Vec<Seq<ClassId>>, AllocError>
    requires ordered { IsOrdered (bare infos.now) }
    ensures { (image : Image) → image.classes ≡ infos.now
        → IfOk result (λ lists. lists.items ≡ map (priors_at image) (range_with_len 0 (length infos.now))) }
{
    let declares = default_declarers(alloc, infos)?;
    let mut lists = Vec::new(alloc);
    for class in 0..infos.len() {
        lists.push(Seq::of(priors_of(alloc, infos, &declares, class)?))?;
    }
    Ok(lists)
}

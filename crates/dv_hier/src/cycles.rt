// Classes that depend on themselves.
ghost use Rattle.std.specs.Prelude.{◌≡◌, ◌<◌, ◌^◌, [], ◌∷◌, false, length, replicate, All, IfOk, OnOk, vec_len};
ghost use Rattle.std.specs.Bool.{MatchBool};
ghost use Rattle.dv_defs.specs.Images.{Image};
ghost use Rattle.dv_defs.specs.LinkFaults.{Checks, first_fault_by, on_cycle};
ghost use Rattle.dv_defs.specs.Linked.{defs};
ghost use Rattle.dv_defs.specs.Order.{numbers};
ghost use Rattle.law_linking.specs.Stripped.{IsInRange, AreInRange};
ghost use Rattle.dv_hier.specs.Upwards.{AreFree, HasEachReady, unmarked, HasMet, above_of, is_ready as ready, is_self_dependent};

use crate::faults::error_of;
use dv_defs::{ClassId, ClassInfo, LinkError, LinkKind};
use std::alloc::{AllocError, Global};

/// Whether all that stands directly above a class is done.
fn is_ready(done: &[bool], info: &ClassInfo) -> bool
    requires { IsInRange (length done.now) info.now }
    ensures { result ≡ ready done.now info.now }
{
    for id in info.interfaces.items() {
        if !done[id.0 as usize] {
            return false;
        }
    }
    match info.parent {
        Some(id) => done[id.0 as usize],
        None => true,
    }
}

/// Goes over the classes once and marks each above which all is marked by then. Tells whether there was one.
fn mark_ready(infos: &[ClassInfo], done: &mut [bool]) -> bool
    requires range { AreInRange infos.now }
    requires many { length done.old ≡ length infos.now }
    requires free { AreFree infos.now done.old }
    ensures free { AreFree infos.now done.new }
    ensures changed { MatchBool result (unmarked done.new < unmarked done.old) (HasEachReady infos.now done.new (length infos.now)) }
{
    let mut changed = false;
    for i in 0..infos.len() {
        if !done[i] && is_ready(done, &infos[i]) {
            done[i] = true;
            changed = true;
        }
    }
    changed
}

/// Marks the classes from which each way up ends, which don't depend on themselves.
fn free_classes(alloc: Global, infos: &[ClassInfo]) -> Result<Vec<bool>, AllocError>
    requires { AreInRange infos.now }
    ensures many { IfOk result (λ done. vec_len done ≡ length infos.now) }
    ensures free { IfOk result (λ done. AreFree infos.now done.items) }
    ensures ready { IfOk result (λ done. HasEachReady infos.now done.items (length infos.now)) }
{
    let mut done = vec![in alloc; false; infos.len()]?;
    for round in 0..infos.len() {
        if !mark_ready(infos, done.as_mut_slice()) {
            return Ok(done);
        }
    }
    Ok(done)
}

/// A search upwards: the classes that it met, and those of them above which it is still to go.
#[derive(Drop)]
struct Search {
    met: Vec<bool>,
    waiting: Vec<ClassId>,
}

impl Search {
    /// Meets a class, which waits if it is new.
    fn meet(&mut self, id: ClassId) -> Result<(), AllocError>
        requires { id.0 < vec_len self.old.met }
        ensures { OnOk result (HasMet (id.0 ∷ []) self.old.met.items self.old.waiting.items self.new.met.items self.new.waiting.items) }
    {
        if self.met[id.0 as usize] {
            return Ok(());
        }
        self.met[id.0 as usize] = true;
        self.waiting.push(id)?;
        Ok(())
    }

    fn meet_all(&mut self, ids: &[ClassId]) -> Result<(), AllocError>
        requires { All (λ id. id.0 < vec_len self.old.met) ids.now }
        ensures { OnOk result (HasMet (numbers ids.now) self.old.met.items self.old.waiting.items self.new.met.items self.new.waiting.items) }
    {
        for id in ids {
            self.meet(*id)?;
        }
        Ok(())
    }

    /// Meets what stands directly above a class.
    fn meet_above(&mut self, info: &ClassInfo) -> Result<(), AllocError>
        requires { IsInRange (vec_len self.old.met) info.now }
        ensures { OnOk result (HasMet (above_of info.now) self.old.met.items self.old.waiting.items self.new.met.items self.new.waiting.items) }
    {
        self.meet_all(info.interfaces.items())?;
        match info.parent {
            Some(id) => self.meet(id),
            None => Ok(()),
        }
    }
}

/// Whether a search that begins directly above a class comes to the class. It has met nothing before.
fn comes_back(search: &mut Search, infos: &[ClassInfo], class: usize) -> Result<bool, AllocError>
    requires range { AreInRange infos.now }
    requires class_in { class < length infos.now }
    requires met { search.old.met.items ≡ replicate (length infos.now) false }
    requires waiting { search.old.waiting.items ≡ [] }
    ensures { IfOk result (λ depends. depends ≡ is_self_dependent infos.now class) }
{
    search.meet_above(&infos[class])?;
    while let Some(id) = search.waiting.pop() {
        search.meet_above(&infos[id.0 as usize])?;
    }
    Ok(search.met[class])
}

/// Whether a class is met on the ways up from those directly above it.
fn depends_on_itself(alloc: Global, infos: &[ClassInfo], class: usize) -> Result<bool, AllocError>
    requires range { AreInRange infos.now }
    requires class_in { class < length infos.now }
    ensures { IfOk result (λ depends. depends ≡ is_self_dependent infos.now class) }
{
    let mut search = Search {
        met: vec![in alloc; false; infos.len()]?,
        waiting: Vec::new(alloc),
    };
    comes_back(&mut search, infos, class)
}

/// The first class that depends on itself.
pub fn check_cycles(alloc: Global, infos: &[ClassInfo]) -> Result<(), LinkError>
    requires range { AreInRange infos.now }
    ensures { (image : Image) → image.classes ≡ infos.now → Checks result (first_fault_by (on_cycle image) (defs infos.now)) }
{
    let free = free_classes(alloc, infos)?;
    for i in 0..infos.len() {
        if !free[i] && depends_on_itself(alloc, infos, i)? {
            return Err(error_of(&infos[i].def.name, LinkKind::SuperCycle));
        }
    }
    Ok(())
}

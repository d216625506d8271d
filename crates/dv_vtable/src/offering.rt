// What the superinterfaces of a class and its superclasses offer.
ghost use Rattle.std.specs.Prelude.{◌≡◌, ◌<◌, ◌+◌, ◌^◌, [], All, flat_map, length, IfOk, IfSome, OnOk};
ghost use Rattle.dv_defs.specs.Images.{Image};
ghost use Rattle.dv_defs.specs.LookUp.{interfaces_above, once};
ghost use Rattle.dv_defs.specs.Order.{numbers};
ghost use Rattle.dv_defs.specs.Selecting.{callable_of_class};
ghost use Rattle.dv_vtable.specs.Choosing.{AreMarked};
ghost use Rattle.dv_vtable.specs.Numbered.{numbers_of};
ghost use Rattle.dv_vtable.specs.Offers.{offered_numbers, offered_to};
ghost use Rattle.dv_vtable.specs.Sources.{AreSources, IsOf};

use crate::marks::{add_unmarked, mark_all};
use crate::offers::Offers;
use crate::sources::Sources;
use crate::table::Table;
use dv_defs::{ClassId, MethodId};
use std::alloc::{AllocError, Global};

/// The interfaces above the classes of a chain, each once, in the order of look-up. No class is marked before and after.
pub fn superinterfaces_of(
    alloc: Global,
    marks: &mut [bool],
    sources: &Sources<'_>,
    chain: &[ClassId],
) -> Result<Vec<ClassId>, AllocError>
    requires sources { AreSources sources.now }
    requires count { length marks.old ≡ length sources.now.infos.now }
    requires marks { AreMarked marks.old [] }
    ensures marks { OnOk result (AreMarked marks.new []) }
    ensures range { IfOk result (λ found. All (λ c. c.0 < length sources.now.infos.now) found.items) }
    ensures found { (image : Image) → IsOf sources.now image
        → IfOk result (λ found. numbers found.items ≡ once (flat_map (interfaces_above image) (numbers chain.now))) }
{
    let mut found = Vec::new(alloc);
    for class in chain {
        add_unmarked(&mut found, marks, sources.interfaces_of(*class))?;
    }
    mark_all(marks, &found, false);
    Ok(found)
}

/// Adds an interface's own methods by the numbers of their keys, but for the keys that a chain has. `first` is the number of the
/// interface's first method.
fn offer_own(
    alloc: Global,
    offers: &mut Offers,
    chain: &Table,
    own: &[Option<u32>],
    first: u32,
) -> Result<(), AllocError>
    requires few_methods { first + length own.now < 2 ^ 32 }
    requires chain { All (λ key. IfSome key (λ n. n < chain.now.count)) own.now }
    requires offers { All (λ key. IfSome key (λ n. n < offers.old.count)) own.now }
    ensures count { OnOk result (offers.new.count ≡ offers.old.count) }
    ensures offers { OnOk result (offers.new.entries ≡ offered_numbers (numbers_of chain.now.entries) offers.old.entries first own.now) }
{
    for (place, key) in own.iter().enumerate() {
        if let Some(number) = key {
            if !chain.has(*number) {
                offers.add(alloc, *number, MethodId(first + place as u32))?;
            }
        }
    }
    Ok(())
}

/// Adds what these interfaces offer, but for the keys that a chain has.
pub fn offer_all(
    alloc: Global,
    offers: &mut Offers,
    chain: &Table,
    sources: &Sources<'_>,
    interfaces: &[ClassId],
) -> Result<(), AllocError>
    requires sources { AreSources sources.now }
    requires range { All (λ c. c.0 < length sources.now.infos.now) interfaces.now }
    requires chain { chain.now.count ≡ length sources.now.keys.now.keys.items }
    requires offers { offers.old.count ≡ length sources.now.keys.now.keys.items }
    ensures count { OnOk result (offers.new.count ≡ offers.old.count) }
    ensures offers { (image : Image) → IsOf sources.now image
        → OnOk result (offers.new.entries
        ≡ offered_to image (numbers_of chain.now.entries) offers.old.entries (flat_map (callable_of_class image) (numbers interfaces.now))) }
{
    for interface in interfaces {
        let class = interface.0 as usize;
        let own = sources.keys.own(sources.infos, class);
        offer_own(alloc, offers, chain, own, sources.keys.firsts[class])?;
    }
    Ok(())
}

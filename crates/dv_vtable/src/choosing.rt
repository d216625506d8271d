// Which of several methods of interfaces a call selects.
ghost use Rattle.std.specs.Prelude.{◌≡◌, ℕ, ◌∷◌, [], false, not, filter, length, slice_index_or, if◌then◌else◌};
ghost use Rattle.dv_defs.specs.Images.{Image};
ghost use Rattle.dv_defs.specs.Pools.{is_abstract};
ghost use Rattle.dv_defs.specs.Selecting.{chosen as chosen_of, only};
ghost use Rattle.dv_vtable.specs.Sources.{AreSources, IsOf};
ghost use Rattle.dv_vtable.specs.Choosing.{above_any, also_selected, AreMarked, is_unmarked, methods_at};

use crate::marks::mark_all;
use crate::offers::Offer;
use crate::sources::Sources;
use dv_defs::{Flag, MethodId, Select};

/// Marks the interfaces above a method's own, or takes their marks away.
fn mark_above(marks: &mut [bool], sources: &Sources<'_>, method: MethodId, mark: bool)
    requires sources { AreSources sources.now }
    requires count { length marks.old ≡ length sources.now.infos.now }
    ensures { (image : Image) → IsOf sources.now image → (d : ℕ)
        → slice_index_or marks.new d false ≡ (if above_any image (methods_at image (method ∷ [])) d then mark else slice_index_or marks.old d false) }
{
    if let Some(declared) = sources.method_at(method) {
        mark_all(marks, sources.interfaces_of(declared.class), mark);
    }
}

/// The same of each method of an offer.
fn mark_offer(marks: &mut [bool], sources: &Sources<'_>, offer: Offer<'_>, mark: bool)
    requires sources { AreSources sources.now }
    requires count { length marks.old ≡ length sources.now.infos.now }
    ensures { (image : Image) → IsOf sources.now image → (d : ℕ)
        → slice_index_or marks.new d false
        ≡ (if above_any image (methods_at image (offer.entry.first ∷ offer.entry.others.now)) d then mark else slice_index_or marks.old d false) }
{
    mark_above(marks, sources, offer.first, mark);
    for method in offer.others {
        mark_above(marks, sources, *method, mark);
    }
}

/// What is selected with one method more. It counts where its interface has no mark and it isn't abstract.
fn also(marks: &[bool], sources: &Sources<'_>, select: Select, method: MethodId) -> Select
    requires { length marks.now ≡ length sources.now.infos.now }
    ensures { (image : Image) → IsOf sources.now image → result ≡ also_selected image marks.now select method }
{
    let Some(declared) = sources.method_at(method) else {
        return select;
    };
    if marks[declared.class.0 as usize] || Flag::Abstract.is_in(declared.def.flags) {
        return select;
    }
    match select {
        Select::Abstract => Select::Found(method),
        _ => Select::Clash,
    }
}

/// What is selected of the methods of an offer whose interfaces have no mark.
fn unmarked(marks: &[bool], sources: &Sources<'_>, offer: Offer<'_>) -> Select
    requires { length marks.now ≡ length sources.now.infos.now }
    ensures { (image : Image) → IsOf sources.now image
        → result ≡ only (filter (λ m. not (is_abstract m)) (filter (is_unmarked marks.now) (methods_at image (offer.entry.first ∷ offer.entry.others.now)))) }
{
    let mut select = also(marks, sources, Select::Abstract, offer.first);
    for method in offer.others {
        select = also(marks, sources, select, *method);
    }
    select
}

/// What a call selects of the methods of an offer: of those that no other's interface is below, the only one that isn't abstract. No
/// class is marked before and after.
pub fn chosen(marks: &mut [bool], sources: &Sources<'_>, offer: Offer<'_>) -> Select
    requires sources { AreSources sources.now }
    requires count { length marks.old ≡ length sources.now.infos.now }
    requires marks { AreMarked marks.old [] }
    ensures marks { AreMarked marks.new [] }
    ensures select { (image : Image) → IsOf sources.now image → result ≡ chosen_of image (methods_at image (offer.entry.first ∷ offer.entry.others.now)) }
{
    if offer.others.is_empty() {
        return sources.itself(offer.first);
    }
    mark_offer(marks, sources, offer, true);
    let select = unmarked(marks, sources, offer);
    mark_offer(marks, sources, offer, false);
    select
}

// Classes by the bytes of their descriptors, and what is under what by descriptors (JLS 4.10.2).
ghost use Rattle.std.specs.Prelude.{◌≡◌};
ghost use Rattle.dv_defs.specs.Order.{both_found, implements as is_implementing, instance as is_instance};
ghost use Rattle.dv_defs.specs.Pools.{class_named};
ghost use Rattle.dv_defs.specs.Types.{of_class};

use crate::classes::OBJECT;
use crate::instances::implements;
use dv_defs::Image;

/// The place of the class of this descriptor, by a search from the front. The boot classes stand there, so their places are found at
/// once; `class_of` finds any class by the order of its name.
#[tactic(auto, unfolding(dv_defs::specs::Pools::class_named))]
pub fn boot_class(image: &Image, name: &[u8]) -> Option<usize>
    ensures { result ≡ class_named image.now name.now }
{
    let classes = image.classes.items();
    for place in 0..classes.len() {
        if classes[place].def.name.bytes() == name {
            return Some(place);
        }
    }
    None
}

/// Whether the class of a descriptor is under that of another, by superclasses and superinterfaces. Both stand at these places. It takes
/// no memory.
#[tactic(auto, unfolding(dv_defs::specs::Order::instance))]
pub fn is_class_instance(
    image: &Image,
    own: &[u8],
    own_place: Option<usize>,
    name: &[u8],
    place: Option<usize>,
) -> bool
    requires own { own_place ≡ class_named image.now own.now }
    requires above { place ≡ class_named image.now name.now }
    ensures { result ≡ is_instance image.now (of_class own.now) (of_class name.now) }
{
    own == name || name == OBJECT || are_under(image, own_place, place)
}

fn are_under(image: &Image, own: Option<usize>, above: Option<usize>) -> bool
    ensures { result ≡ both_found (is_implementing image.now) own above }
{
    match (own, above) {
        (Some(own), Some(above)) => implements(image, own, above),
        _ => false,
    }
}

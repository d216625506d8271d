// Classes of an image by their names, and the superclasses above them.
ghost use Rattle.std.specs.Prelude.{◌≡◌, Some};
ghost use Rattle.dv_defs.specs.Order.{extends as is_above, names_interface};
ghost use Rattle.dv_defs.specs.Pools.{class_named, is_interface as is_interface_at, parent_at};

use dv_defs::{Flag, Image, Text};

pub const OBJECT: &[u8] = b"Ljava/lang/Object;";

/// The place of the class of this descriptor.
pub fn class_of(image: &Image, name: &Text) -> Option<usize>
    ensures { result ≡ class_named image.now name.now }
{
    image.index.names.place_of(name)
}

/// The place of a class's superclass.
pub fn parent_of(image: &Image, class: usize) -> Option<usize>
    ensures { result ≡ parent_at image.now class }
{
    match image.classes.items().get(class) {
        Some(info) => match info.parent {
            Some(parent) => Some(parent.0 as usize),
            None => None,
        },
        None => None,
    }
}

/// Whether a class is the other or under it by superclasses.
#[tactic(auto, using(crate::proofs::Walks::walk_on, crate::proofs::Walks::walk_found, crate::proofs::Walks::walk_top, crate::proofs::Walks::walk_done))]
pub fn extends(image: &Image, class: usize, above: usize) -> bool
    ensures { result ≡ is_above image.now class above }
{
    let mut at = Some(class);
    let mut left = image.classes.len();
    while left > 0 {
        let Some(place) = at else { return false };
        if place == above {
            return true;
        }
        at = parent_of(image, place);
        left -= 1;
    }
    false
}

/// Whether the descriptor is that of an interface.
pub fn is_interface(image: &Image, name: &Text) -> bool
    ensures { result ≡ names_interface image.now (Some name.now) }
{
    match class_of(image, name) {
        Some(class) => has_interface_flag(image, class),
        None => false,
    }
}

/// Whether a class is an interface.
pub fn has_interface_flag(image: &Image, class: usize) -> bool
    ensures { result ≡ is_interface_at image.now class }
{
    match image.classes.items().get(class) {
        Some(info) => Flag::Interface.is_in(info.def.flags),
        None => false,
    }
}

// What is initialised before a class.
ghost use Rattle.std.specs.Prelude.{◌≡◌};
ghost use Rattle.dv_defs.specs.Order.{numbers};
ghost use Rattle.dv_defs.specs.Prior.{prior_at};

use dv_defs::{ClassId, Image};

/// The classes that are initialised before the class of this place, in their order: its superclass, and then the superinterfaces that declare
/// a default method (JLS 12.4.2, step 7). Before an interface nothing is initialised.
pub fn prior_to(image: &Image, class: usize) -> &[ClassId]
    ensures { numbers result.now ≡ prior_at image.now class }
{
    match image.classes.items().get(class) {
        Some(info) => info.prior.items(),
        None => &[],
    }
}

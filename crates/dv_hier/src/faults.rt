// Faults of classes as errors.
ghost use Rattle.std.specs.Prelude.{◌≡◌, Option, Some};
ghost use Rattle.dv_defs.specs.LinkFaults.{Found, Fails, found};

use dv_defs::{LinkError, LinkKind, Text};

/// The error that tells a fault of a class, unless memory for its name is wanting.
pub fn error_of(class: &Text, kind: LinkKind) -> LinkError
    ensures { (fault : Option Found) → fault ≡ Some (found class.now kind) → Fails result fault }
{
    match class.clone() {
        Ok(class) => LinkError::At { class, kind },
        Err(_) => LinkError::Memory,
    }
}

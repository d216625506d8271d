// What the methods of a class, and those of its superclasses, are told apart by.
ghost use Rattle.std.specs.Prelude.{◌≡◌};

use dv_defs::{MethodDef, Proto, Text};

/// The name of constructors.
pub const INIT: &[u8] = b"<init>";

/// A method's name and prototype.
#[derive(Clone, Copy, PartialEq, Eq, PartialOrd, Ord)]
pub struct MethodKey<'a> {
    pub name: &'a Text,
    pub proto: &'a Proto,
}

/// What a method is told apart by.
pub fn key_of(method: &MethodDef) -> MethodKey<'_>
    ensures name { result.name.now ≡ method.now.name }
    ensures proto { result.proto.now ≡ method.now.proto }
{
    MethodKey {
        name: &method.name,
        proto: &method.proto,
    }
}

// The classes of objects, by their descriptors.
ghost use Rattle.std.specs.Prelude.{◌≡◌};
ghost use Rattle.dv_defs.specs.Pools.{name_at};
ghost use Rattle.dv_words.specs.Mem.{type_of};
ghost use Rattle.dv_final.specs.Final.{class_bytes};

use dv_defs::{Base, ClassId, Image};
use dv_heap::Heap;
use dv_image::OBJECT;
use dv_words::Kind;

const STRING: &[u8] = b"Ljava/lang/String;";

const CLASS: &[u8] = b"Ljava/lang/Class;";

/// The descriptor of a class; nothing where there is no class of that number.
pub fn name_at(image: &Image, class: ClassId) -> &[u8]
    ensures { result.now ≡ name_at image.now class.0 }
{
    match image.classes.items().get(class.0 as usize) {
        Some(class) => class.def.name.bytes(),
        None => b"",
    }
}

/// The descriptor of an object's class, of an array the one of its elements' class; nothing where these are of no class. What isn't there is
/// an Object.
pub fn class_name_of<'a>(image: &'a Image, heap: &'a Heap, object: u32) -> &'a [u8]
    ensures { result.now ≡ class_bytes (type_of image.now heap.now object).base }
{
    if !heap.exists(object) {
        return OBJECT;
    }
    match heap.kind(object) {
        Kind::Object(class) => name_at(image, *class),
        Kind::Array(ty) => class_in(&ty.base),
        Kind::Str => STRING,
        Kind::ClassOf(_) => CLASS,
    }
}

/// The descriptor of a class; nothing where the type is primitive.
fn class_in(base: &Base) -> &[u8]
    ensures { result.now ≡ class_bytes base.now }
{
    match base {
        Base::Class(name) => name.bytes(),
        _ => b"",
    }
}

// The classes by which the methods of objects are looked up.
ghost use Rattle.std.specs.Prelude.{◌≡◌};
ghost use Rattle.dv_words.specs.Heaps.{kind_of};
ghost use Rattle.dv_words.specs.Threads.{class_of_kind};

use dv_defs::Image;
use dv_heap::Heap;
use dv_image::{OBJECT, boot_class};
use dv_words::Kind;

pub const STRING: &[u8] = b"Ljava/lang/String;";

pub const CLASS: &[u8] = b"Ljava/lang/Class;";

/// The place of the class by which the methods of an object are looked up (JLS 15.12.4.4); that of Object for an array, and where there
/// is no object.
#[tactic(auto)]
pub fn class_of_object(image: &Image, heap: &Heap, object: u32) -> Option<usize>
    ensures { result ≡ class_of_kind image.now (kind_of heap.now object) }
{
    if !heap.exists(object) {
        return boot_class(image, OBJECT);
    }
    match heap.kind(object) {
        Kind::Object(class) => Some(class.0 as usize),
        Kind::Array(_) => boot_class(image, OBJECT),
        Kind::Str => boot_class(image, STRING),
        Kind::ClassOf(_) => boot_class(image, CLASS),
    }
}

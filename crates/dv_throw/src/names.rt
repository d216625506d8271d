// The boot classes that unwinding names itself.
ghost use Rattle.std.specs.Prelude.{◌≡◌, ◌<◌, length};
ghost use Rattle.dv_machine.specs.Unwinding.{exception_name as named_class, number_named as class_number};

use dv_defs::{ClassId, Image, Named};
use dv_image::boot_class;

pub const THROWABLE: &[u8] = b"Ljava/lang/Throwable;";

pub const ERROR: &[u8] = b"Ljava/lang/Error;";

/// The descriptor of the class of an exception that the machine makes itself.
pub fn exception_name(named: Named) -> &'static [u8]
    ensures { result.now ≡ named_class named }
{
    match named {
        Named::Arithmetic => b"Ljava/lang/ArithmeticException;",
        Named::NullPointer => b"Ljava/lang/NullPointerException;",
        Named::NegativeArraySize => b"Ljava/lang/NegativeArraySizeException;",
        Named::ArrayIndex => b"Ljava/lang/ArrayIndexOutOfBoundsException;",
        Named::ArrayStore => b"Ljava/lang/ArrayStoreException;",
        Named::ClassCast => b"Ljava/lang/ClassCastException;",
        Named::IllegalMonitorState => b"Ljava/lang/IllegalMonitorStateException;",
        Named::IllegalThreadState => b"Ljava/lang/IllegalThreadStateException;",
        Named::IndexOutOfBounds => b"Ljava/lang/IndexOutOfBoundsException;",
        Named::OutOfMemory => b"Ljava/lang/OutOfMemoryError;",
        Named::NoClassDef => b"Ljava/lang/NoClassDefFoundError;",
        Named::InInitializer => b"Ljava/lang/ExceptionInInitializerError;",
        Named::ClassChange => b"Ljava/lang/IncompatibleClassChangeError;",
        Named::AbstractMethod => b"Ljava/lang/AbstractMethodError;",
    }
}

/// The number of a boot class by its descriptor, 0 where there is none.
pub fn number_named(image: &Image, name: &[u8]) -> ClassId
    ensures { result.0 ≡ class_number image.now name.now }
{
    match boot_class(image, name) {
        Some(place) => class_id(image, place),
        None => ClassId(0),
    }
}

/// The class at a place. An image has no more than 1,057 classes.
fn class_id(image: &Image, place: usize) -> ClassId
    requires { place < length image.now.classes }
    ensures { result.0 ≡ place }
{
    let _classes = &image.classes;
    ClassId(place as u32)
}

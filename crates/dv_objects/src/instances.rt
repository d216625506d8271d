// The types of which objects are instances (JLS 15.20.2).
ghost use Rattle.std.specs.Prelude.{◌≡◌, false, true};
ghost use Rattle.dv_defs.specs.Order.{instance as is_under};
ghost use Rattle.dv_defs.specs.Pools.{class_named, class_type, is_interface};
ghost use Rattle.dv_defs.specs.Types.{of_class};
ghost use Rattle.dv_words.specs.Mem.{type_of};
ghost use Rattle.dv_objects.specs.Types.{is_class_type};

use crate::classes::{CLASS, STRING};
use dv_defs::{Base, ClassId, Image, Ty};
use dv_heap::Heap;
use dv_image::{Ascent, OBJECT, boot_class, implements, is_base_under, is_class_instance};
use dv_words::Kind;

/// Whether a boot class is under the class of a descriptor, which stands at this place.
fn is_boot_under(image: &Image, own: &[u8], name: &[u8], place: Option<usize>) -> bool
    requires { place ≡ class_named image.now name.now }
    ensures { result ≡ is_under image.now (of_class own.now) (of_class name.now) }
{
    is_class_instance(image, own, boot_class(image, own), name, place)
}

/// The same of any class.
fn is_class_under(image: &Image, class: ClassId, name: &[u8], place: Option<usize>) -> bool
    requires { place ≡ class_named image.now name.now }
    ensures { result ≡ is_under image.now (class_type image.now class.0) (of_class name.now) }
{
    match image.classes.items().get(class.0 as usize) {
        Some(info) => {
            let own = Some(class.0 as usize);
            is_class_instance(image, info.def.name.bytes(), own, name, place)
        }
        None => is_boot_under(image, b"", name, place),
    }
}

/// The same of an array's type.
#[tactic(auto, unfolding(dv_defs::specs::Order::instance))]
fn is_array_under(image: &Image, array: &Ty, name: &[u8], place: Option<usize>) -> bool
    requires { place ≡ class_named image.now name.now }
    ensures { result ≡ is_under image.now array.now (of_class name.now) }
{
    if array.dims > 0 {
        return name == OBJECT;
    }
    match &array.base {
        Base::Class(own) => {
            is_class_instance(
                image,
                own.bytes(),
                dv_image::class_of(image, own),
                name,
                place,
            )
        }
        _ => false,
    }
}

/// Whether an object is an instance of the class of a descriptor, which stands at this place. What isn't there is an Object.
pub fn is_of_class(
    image: &Image,
    heap: &Heap,
    object: u32,
    name: &[u8],
    place: Option<usize>,
) -> bool
    requires { place ≡ class_named image.now name.now }
    ensures { result ≡ is_under image.now (type_of image.now heap.now object) (of_class name.now) }
{
    if !heap.exists(object) {
        return is_boot_under(image, OBJECT, name, place);
    }
    match heap.kind(object) {
        Kind::Object(class) => is_class_under(image, *class, name, place),
        Kind::Array(ty) => is_array_under(image, ty, name, place),
        Kind::Str => is_boot_under(image, STRING, name, place),
        Kind::ClassOf(_) => is_boot_under(image, CLASS, name, place),
    }
}

/// The same of the class at a place.
fn is_of_class_at(image: &Image, heap: &Heap, object: u32, class: usize) -> bool
    ensures { result ≡ is_under image.now (type_of image.now heap.now object) (class_type image.now class) }
{
    match image.classes.items().get(class) {
        Some(info) => is_of_class(image, heap, object, info.def.name.bytes(), Some(class)),
        None => is_of_class(image, heap, object, b"", boot_class(image, b"")),
    }
}

/// Whether an object is of a class that has the interface at a place.
pub fn has_interface(image: &Image, heap: &Heap, object: u32, interface: usize) -> bool
    requires { is_interface image.now interface ≡ true }
    ensures { result ≡ is_under image.now (type_of image.now heap.now object) (class_type image.now interface) }
{
    if !heap.exists(object) {
        return is_of_class_at(image, heap, object, interface);
    }
    match heap.kind(object) {
        Kind::Object(class) => {
            let _classes = &image.classes;
            implements(image, class.0 as usize, interface)
        }
        _ => is_of_class_at(image, heap, object, interface),
    }
}

/// Whether an array's type is under the type of so many dimensions over a base.
#[tactic(auto, unfolding(dv_defs::specs::Order::instance))]
fn is_array_instance(image: &Image, array: &Ty, dims: u8, base: &Base) -> bool
    ensures { result ≡ is_under image.now array.now (record { dims = dims; base = base.now }) }
{
    if array.dims == dims && array.base == *base {
        return true;
    }
    dims <= array.dims
        && is_base_under(
            image,
            Ascent::Superinterfaces,
            array.dims - dims,
            &array.base,
            base,
        )
}

/// Whether an object is an instance of a type that is no class: an array may be.
#[tactic(auto, unfolding(dv_defs::specs::Order::instance))]
fn is_of_no_class(image: &Image, heap: &Heap, object: u32, dims: u8, base: &Base) -> bool
    requires { is_class_type (record { dims = dims; base = base.now }) ≡ false }
    ensures { result ≡ is_under image.now (type_of image.now heap.now object) (record { dims = dims; base = base.now }) }
{
    if !heap.exists(object) {
        return false;
    }
    match heap.kind(object) {
        Kind::Array(own) => is_array_instance(image, own, dims, base),
        _ => false,
    }
}

/// Whether an object is an instance of the type of so many dimensions over a base. What isn't there is an Object.
pub fn is_instance_of(image: &Image, heap: &Heap, object: u32, dims: u8, base: &Base) -> bool
    ensures { result ≡ is_under image.now (type_of image.now heap.now object) (record { dims = dims; base = base.now }) }
{
    match base {
        Base::Class(name) if dims == 0 => is_of_class(
            image,
            heap,
            object,
            name.bytes(),
            dv_image::class_of(image, name),
        ),
        _ => is_of_no_class(image, heap, object, dims, base),
    }
}

/// Whether an object is an instance of a type. What isn't there is an Object.
pub fn is_instance(image: &Image, heap: &Heap, object: u32, ty: &Ty) -> bool
    ensures { result ≡ is_under image.now (type_of image.now heap.now object) ty.now }
{
    is_instance_of(image, heap, object, ty.dims, &ty.base)
}

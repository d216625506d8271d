// Images, heaps and stacks for one step, and how they are compared.
use dv_defs::{ClassId, Image, Insn, MethodId};
use dv_frames::Stack;
use dv_heap::{Heap, HeapError};
use dv_load::read_program;
use dv_ops::{coded_at, method_at, units_of};
use dv_units::decode;
use std::alloc::{AllocError, Global};
use std::process::Abort;
use std::str;

/// No heap of these tests has more objects.
const MOST: u32 = 16;

/// A text, read and linked behind the boot classes.
pub fn linked<R: Abort>(rt: &R, alloc: Global, text: &str) -> Image {
    assert!(rt; text.len() < 1_000_000, "{text}");
    match read_program(alloc, text.as_bytes()) {
        Ok(image) => image,
        Err(_) => panic!(rt; "refused: {text}"),
    }
}

/// Adds a static method without parameters to the last class of a text.
pub fn add_method(
    alloc: Global,
    text: &mut String,
    n: usize,
    registers: u32,
    body: &str,
) -> Result<(), AllocError> {
    let method = format!(in alloc;
        ".method static m{n}()V\n.registers {registers}\n{body}\nreturn-void\n.end method\n"
    )?;
    let added = text.push_str(&method);
    drop(method);
    added
}

/// A place or a length, which fits 32 bits.
fn number<R: Abort>(rt: &R, place: usize) -> u32 {
    u32::try_from(place).ok().expect(rt, "few")
}

/// The method of a place among the last methods of an image, which are so many.
pub fn method_among<R: Abort>(rt: &R, image: &Image, count: usize, place: usize) -> MethodId {
    let first = image.methods.len().checked_sub(count);
    let first = first.expect(rt, "a method for each row");
    let place = first.checked_add(place).expect(rt, "few methods");
    MethodId(number(rt, place))
}

/// The descriptor of a class.
pub fn name_of(image: &Image, class: ClassId) -> Option<&str> {
    let info = image.classes.items().get(class.0 as usize)?;
    str::from_utf8(info.def.name.bytes()).ok()
}

/// The class of a method, and its name.
fn names_of(image: &Image, method: MethodId) -> Option<(&str, &str)> {
    let method = method_at(image, method)?;
    let class = name_of(image, method.info.class)?;
    Some((class, str::from_utf8(method.def.name.bytes()).ok()?))
}

fn is_named(image: &Image, method: MethodId, class: &str, name: &str) -> bool {
    match names_of(image, method) {
        Some((of, called)) => of == class && called == name,
        None => false,
    }
}

/// The method of a class by its name.
pub fn method_named(image: &Image, class: &str, name: &str) -> Option<MethodId> {
    for (method, _) in (0..).zip(image.methods.items()) {
        if is_named(image, MethodId(method), class, name) {
            return Some(MethodId(method));
        }
    }
    None
}

/// The class of a descriptor.
pub fn class_named(image: &Image, name: &str) -> Option<ClassId> {
    for (class, info) in (0..).zip(image.classes.items()) {
        if info.def.name.bytes() == name.as_bytes() {
            return Some(ClassId(class));
        }
    }
    None
}

/// The instruction at which the frame on top goes on.
pub fn insn_at(image: &Image, stack: &Stack) -> Option<Insn> {
    let head = stack.head()?;
    let code = coded_at(image, head.method)?;
    let units = units_of(&code);
    let at = head.at as usize;
    if at >= units.len() {
        return None;
    }
    let (insn, _) = decode(units, at).ok()?;
    Some(insn)
}

/// Whether two stacks have the same levels with the same words.
pub fn same_stacks(one: &Stack, other: &Stack) -> bool {
    one.levels.as_slice() == other.levels.as_slice()
        && one.words.as_slice() == other.words.as_slice()
}

/// An object that stands before a step.
#[derive(Clone, Copy)]
pub enum Made {
    /// Of the class of a descriptor, all 0.
    Of(&'static str),
    Text(&'static [u16]),
}

fn make<R: Abort>(rt: &R, image: &Image, heap: &mut Heap, made: Made) -> Result<u32, HeapError> {
    match made {
        Made::Of(name) => {
            let class = class_named(image, name).expect(rt, "a class");
            heap.alloc_object(image, class)
        }
        Made::Text(units) => heap.alloc_string(units),
    }
}

fn fill<R: Abort>(rt: &R, image: &Image, heap: &mut Heap, objects: &[Made]) {
    for (place, made) in objects.iter().enumerate() {
        let object = make(rt, image, heap, *made).ok().expect(rt, "memory");
        assert_eq!(rt; object, number(rt, place).saturating_add(1));
    }
}

/// A heap with these objects, and room for so many words more.
pub fn heap_of<R: Abort>(
    rt: &R,
    alloc: Global,
    image: &Image,
    objects: &[Made],
    room: u32,
) -> Heap {
    let mut heap = Heap::uncounted(alloc, image).ok().expect(rt, "memory");
    fill(rt, image, &mut heap, objects);
    heap.count(room);
    heap
}

/// Whether an object is the same in two heaps, or in neither.
fn same_object(one: &Heap, other: &Heap, object: u32) -> bool {
    if !one.exists(object) {
        return !other.exists(object);
    }
    if !other.exists(object) {
        return false;
    }
    one.kind(object) == other.kind(object) && one.words(object) == other.words(object)
}

/// Whether the objects are the same in two heaps, but for one.
pub fn same_but(one: &Heap, other: &Heap, object: u32) -> bool {
    for each in 1..MOST {
        if each != object && !same_object(one, other, each) {
            return false;
        }
    }
    true
}

/// Whether two heaps have the same objects, and as many words used.
pub fn same_heaps(one: &Heap, other: &Heap) -> bool {
    one.used() == other.used() && same_but(one, other, 0)
}

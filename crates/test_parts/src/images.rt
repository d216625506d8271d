// Programs behind the boot classes: their tables and places, and what isn't there.
use crate::fixtures::linked;
use crate::image_rows as rows;
use crate::image_rows::{Landing, Shape};
use dv_defs::{Base, ClassId, Image, LinkError, LinkKind, MethodId, Select, Text, Ty};
use dv_hier::Classes;
use dv_image::{assignable, field_of, instance, select, sub};
use dv_resolve::{find_main, link};
use std::alloc::Global;
use std::process::Abort;

fn name_of<R: Abort>(rt: &R, alloc: Global, name: &str) -> Text {
    let bytes = Vec::from_slice(alloc, name.as_bytes());
    let name = Text::of(bytes.ok().expect(rt, "memory"));
    name.ok().expect(rt, "memory")
}

fn type_of<R: Abort>(rt: &R, alloc: Global, name: &str) -> Ty {
    let base = Base::Class(name_of(rt, alloc, name));
    Ty { dims: 0, base }
}

// Whether the first is under the second by superclasses, is taken where the second is, and is an instance of it.
fn relations(image: &Image, a: &Ty, b: &Ty) -> (bool, bool, bool) {
    (
        sub(image, a, b),
        assignable(image, a, b),
        instance(image, a, b),
    )
}

fn assert_landings<R: Abort>(rt: &R, image: &Image, rows: &[Landing]) {
    for (object, called, landing) in rows {
        assert!(rt;
            select(image, *object, *called) == *landing,
            "{} {}",
            object.0,
            called.0
        );
    }
}

// Whether a table has these methods, and nothing else.
fn are_found(table: &[Select], methods: &[MethodId]) -> bool {
    for (place, method) in methods.iter().enumerate() {
        if table.get(place) != Some(&Select::Found(*method)) {
            return false;
        }
    }
    table.len() == methods.len()
}

fn assert_shapes<R: Abort>(rt: &R, image: &Image, rows: &[Shape]) {
    for (class, slots, table) in rows {
        let info = image
            .classes
            .items()
            .get(class.0 as usize)
            .expect(rt, "a class");
        assert!(rt;
            info.slots.items() == *slots && are_found(info.table.items(), table),
            "{}",
            class.0
        );
    }
}

// Whether a method has the number of the name and prototype for which this place of the class's table stands.
fn is_placed(image: &Image, class: ClassId, method: MethodId, place: usize) -> bool {
    let Some(places) = image.index.places.items().get(class.0 as usize) else {
        return false;
    };
    let number = image.index.keys.items().get(method.0 as usize);
    number.is_some() && places.items().get(place) == number
}

fn are_placed(image: &Image, class: ClassId, table: &[MethodId]) -> bool {
    for (place, method) in table.iter().enumerate() {
        if !is_placed(image, class, *method, place) {
            return false;
        }
    }
    true
}

fn assert_places<R: Abort>(rt: &R, image: &Image, rows: &[Shape]) {
    for (class, _, table) in rows {
        assert!(rt; are_placed(image, *class, table), "{}", class.0);
    }
}

// What is told of no class.
fn told(error: &LinkError, of: &[u8]) -> &'static str {
    match error {
        LinkError::At {
            class,
            kind: LinkKind::NoClass(name),
        } if class.bytes() == of && name.bytes() == of => "no class",
        _ => "other",
    }
}

#[test]
fn tables_begin_with_those_above(rt: HostRuntime) {
    let image = linked(&rt, rt.alloc(), rows::CALLS_TEXT);
    assert_shapes(&rt, &image, rows::CALLS);
    assert_places(&rt, &image, rows::CALLS);
    assert_landings(&rt, &image, rows::LANDINGS.as_slice());
    drop(image);
}

#[test]
fn cells_begin_with_those_above(rt: HostRuntime) {
    let image = linked(&rt, rt.alloc(), rows::FIELDS_TEXT);
    assert_shapes(&rt, &image, rows::FIELDS);
    assert_places(&rt, &image, rows::FIELDS);
    drop(image);
}

fn assert_nothing<R: Abort>(rt: &R, alloc: Global, image: &Image) {
    let none = type_of(rt, alloc, "LX;");
    let thread = type_of(rt, alloc, "Ljava/lang/Thread;");
    assert!(rt; relations(image, &none, &thread) == (false, false, false));
    assert!(rt; field_of(image, ClassId(9_999), b"out", &thread).is_none());
    drop(thread);
    drop(none);
}

fn assert_no_main<R: Abort>(rt: &R, alloc: Global, image: &Image, name: &str) {
    let main = find_main(alloc, image, name.as_bytes());
    let error = main.err().expect(rt, "a refusal");
    assert!(rt; told(&error, name.as_bytes()) == "no class", "{name}");
    drop(error);
}

#[test]
fn a_class_that_is_not_there_has_nothing(rt: HostRuntime) {
    let image = linked(&rt, rt.alloc(), "");
    assert_nothing(&rt, rt.alloc(), &image);
    for name in ["LX;", ""] {
        assert_no_main(&rt, rt.alloc(), &image, name);
    }
    drop(image);
}

// What linking no classes is refused with.
fn refusal<R: Abort>(rt: &R, alloc: Global) -> LinkError {
    let classes = Classes::new(Vec::new(alloc), 0).expect(rt, "names");
    link(alloc, classes).err().expect(rt, "a refusal")
}

#[test]
fn no_class_is_no_program(rt: HostRuntime) {
    let error = refusal(&rt, rt.alloc());
    assert!(&rt; told(&error, b"Ljava/lang/Object;") == "no class");
    drop(error);
}

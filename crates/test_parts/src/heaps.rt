// Heaps over the images of programs: fields that have no static words, words before and after they are counted, and objects of kinds that come again.
use crate::fixtures::linked;
use dv_defs::{Base, ClassId, FieldId, Image, Ty};
use dv_heap::{Heap, HeapError};
use dv_words::Kind;
use std::process::Abort;

// Fields of long behind narrow ones and behind inherited ones; static fields between them.
const TEXT: &str = ".class LP;
.super Ljava/lang/Object;
.field a:I
.field b:J
.field static s:I = 7
.field static t:J = -2
.class LQ;
.super LP;
.field c:J
.field d:Ljava/lang/Object;
.field static u:B = -1
.field static v:J
";

const Q: ClassId = ClassId(34);

// By field of the program, how many static words it has; the fields of the boot classes come before them. The last one isn't there.
const STATICS: [(u32, u32); 9] = [
    (5, 0),
    (6, 0),
    (7, 1),
    (8, 2),
    (9, 0),
    (10, 0),
    (11, 1),
    (12, 2),
    (13, 0),
];

fn assert_statics<R: Abort>(rt: &R, heap: &Heap) {
    for (field, words) in STATICS {
        assert!(rt; heap.static_size(FieldId(field)) == words, "{field}");
    }
}

#[test]
fn static_fields_alone_have_static_words(rt: HostRuntime) {
    let image = linked(&rt, rt.alloc(), TEXT);
    let heap = Heap::new(rt.alloc(), &image, 64).ok().expect(&rt, "memory");
    assert_statics(&rt, &heap);
    drop(heap);
    drop(image);
}

fn assert_allocates<R: Abort>(rt: &R, image: &Image, heap: &mut Heap, number: u32) {
    assert!(rt;
        matches!(heap.alloc_object(image, Q), Ok(n) if n == number),
        "{number}"
    );
}

// Before words are counted nothing is full.
fn assert_never_full<R: Abort>(rt: &R, image: &Image, heap: &mut Heap) {
    for number in 1..100 {
        assert_allocates(rt, image, heap, number);
    }
    heap.count(8);
    assert!(rt; heap.used() == 0);
    assert_allocates(rt, image, heap, 100);
    assert!(rt;
        matches!(
            heap.alloc_object(image, Q),
            Err(HeapError::Full { used: 8, needed: 8 })
        )
    );
}

#[test]
fn uncounted_heaps_are_never_full(rt: HostRuntime) {
    let image = linked(&rt, rt.alloc(), TEXT);
    let mut heap = Heap::uncounted(rt.alloc(), &image)
        .ok()
        .expect(&rt, "memory");
    assert_never_full(&rt, &image, &mut heap);
    drop(heap);
    drop(image);
}

// An object and the class that it is of; the two numbers behind it are those of arrays. Each class comes again behind others, and one has a number past
// those that are found by a table.
const OBJECTS: [(u32, u32); 6] = [(1, 3), (4, 34), (7, 5000), (10, 34), (13, 5000), (16, 3)];

fn array_of(base: Base) -> Ty {
    Ty { dims: 1, base }
}

fn assert_makes_all<R: Abort>(rt: &R, image: &Image, heap: &mut Heap, ints: &Ty, longs: &Ty) {
    for (object, class) in OBJECTS {
        let made = heap.alloc_object(image, ClassId(class));
        assert!(rt; matches!(made, Ok(number) if number == object), "{class}");
        assert!(rt; heap.alloc_array(ints, 2).is_ok());
        assert!(rt; heap.alloc_array(longs, 2).is_ok());
    }
}

fn assert_of_class<R: Abort>(rt: &R, heap: &Heap, object: u32, class: u32) {
    assert!(rt; heap.exists(object), "{object}");
    assert!(rt;
        matches!(heap.kind(object), Kind::Object(of) if of.0 == class),
        "{object}"
    );
}

fn assert_array<R: Abort>(rt: &R, heap: &Heap, object: u32, ty: &Ty) {
    assert!(rt; heap.exists(object), "{object}");
    assert!(rt;
        matches!(heap.kind(object), Kind::Array(of) if of == ty),
        "{object}"
    );
}

fn assert_kinds<R: Abort>(rt: &R, heap: &Heap, ints: &Ty, longs: &Ty) {
    for (object, class) in OBJECTS {
        assert_of_class(rt, heap, object, class);
        assert_array(rt, heap, object.saturating_add(1), ints);
        assert_array(rt, heap, object.saturating_add(2), longs);
    }
}

#[test]
fn objects_keep_kinds_that_come_again(rt: HostRuntime) {
    let image = linked(&rt, rt.alloc(), TEXT);
    let (ints, longs) = (array_of(Base::I), array_of(Base::J));
    let mut heap = Heap::uncounted(rt.alloc(), &image)
        .ok()
        .expect(&rt, "memory");
    assert_makes_all(&rt, &image, &mut heap, &ints, &longs);
    assert_kinds(&rt, &heap, &ints, &longs);
    drop(heap);
    drop(image);
}

// At which byte a text is no descriptor, and what no text of a program shows. All else of descriptors is in `cases/reading`, and of
// strings in `cases/running`.
use dv_defs::{Base, Ty};
use dv_names::{NameError, chars_of_utf8, java_text, parse_proto, parse_type};
use std::alloc::Global;
use std::process::Abort;
use std::test::Fail;

// A text that is no type, and the place of the first byte that fits none.
static NO_TYPES: [(&str, usize); 25] = [
    ("", 0),
    ("V", 0),
    ("[V", 1),
    ("[", 1),
    ("I;", 1),
    ("IF", 1),
    ("L", 1),
    ("L;", 1),
    ("La", 2),
    ("La/;", 3),
    ("La//b;", 3),
    ("La;x", 3),
    ("La.b;", 2),
    ("L<", 2),
    ("L<>;", 2),
    ("L<F", 2),
    ("L<foo>;", 2),
    ("L<inx;", 4),
    ("L<init;", 6),
    ("L<init>", 7),
    ("L<init>x;", 7),
    ("L<clinix>;", 7),
    ("La<init>;", 2),
    ("La/<c;", 5),
    ("La b;", 2),
];

static NO_PROTOS: [(&str, usize); 8] = [
    ("", 0),
    ("F", 0),
    ("I", 0),
    ("(", 1),
    ("(V)V", 1),
    ("(I[)V", 3),
    ("()", 2),
    ("()VI", 3),
];

// Texts with a float type, and its place.
static FLOAT_TYPES: [(&str, usize); 2] = [("F", 0), ("[D", 1)];

static FLOAT_PROTOS: [(&str, usize); 3] = [("(F)V", 1), ("()D", 2), ("(La;LF;)F", 8)];

fn base_bytes(ty: &Ty) -> &[u8] {
    match &ty.base {
        Base::Z => b"Z",
        Base::B => b"B",
        Base::C => b"C",
        Base::S => b"S",
        Base::I => b"I",
        Base::J => b"J",
        Base::Class(name) => name.bytes(),
    }
}

fn are_bytes(rt: &impl Abort, found: &[u8], expected: &[u8]) {
    assert_eq!(rt; found, expected);
}

fn is_type(rt: &impl Abort, ty: &Ty, dims: u8, base: &[u8]) {
    assert_eq!(rt; ty.dims, dims);
    are_bytes(rt, base_bytes(ty), base);
}

fn refuses_type(rt: &impl Abort, alloc: Global, text: &[u8], error: NameError) {
    assert_eq!(rt; parse_type(alloc, text).err(), Some(error));
}

fn refuses_proto(rt: &impl Abort, alloc: Global, text: &[u8], error: NameError) {
    assert_eq!(rt; parse_proto(alloc, text).err(), Some(error));
}

#[test]
fn other_texts_are_refused_at_the_first_byte_that_fits_no_type(rt: HostRuntime) {
    for (text, place) in &NO_TYPES {
        refuses_type(
            &rt,
            rt.alloc(),
            text.as_bytes(),
            NameError::BadDescriptor(*place),
        );
    }
    for (text, place) in &FLOAT_TYPES {
        refuses_type(
            &rt,
            rt.alloc(),
            text.as_bytes(),
            NameError::FloatType(*place),
        );
    }
}

#[test]
fn an_array_has_at_most_255_dimensions(rt: HostRuntime) -> Result<(), Fail> {
    let mut text = vec![in rt.alloc(); b'['; 256]?;
    text.push(b'I')?;
    is_type(&rt, &parse_type(rt.alloc(), &text[1..])?, 255, b"I");
    refuses_type(&rt, rt.alloc(), &text, NameError::BadDescriptor(255));
    Ok(())
}

#[test]
fn other_texts_are_refused_at_the_first_byte_that_fits_no_prototype(rt: HostRuntime) {
    for (text, place) in &NO_PROTOS {
        refuses_proto(
            &rt,
            rt.alloc(),
            text.as_bytes(),
            NameError::BadDescriptor(*place),
        );
    }
    for (text, place) in &FLOAT_PROTOS {
        refuses_proto(
            &rt,
            rt.alloc(),
            text.as_bytes(),
            NameError::FloatType(*place),
        );
    }
}

#[test]
fn the_java_text_of_a_class_has_dots(rt: HostRuntime) -> Result<(), Fail> {
    are_bytes(
        &rt,
        java_text(rt.alloc(), b"Ljava/lang/Error;")?.bytes(),
        b"java.lang.Error",
    );
    are_bytes(&rt, java_text(rt.alloc(), b"L")?.bytes(), b"");
    Ok(())
}

#[test]
fn texts_are_units(rt: HostRuntime) -> Result<(), Fail> {
    let chars = chars_of_utf8(rt.alloc(), "hé€😀")?;
    assert_eq!(rt;
        chars.units(),
        [0x68, 0xe9, 0x20ac, 0xd83d, 0xde00].as_slice()
    );
    Ok(())
}

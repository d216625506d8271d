// The boot text is read, listed and read again. Other texts are told by the cases of `cases/listing`.
use dv_boot::boot_text;
use dv_classread::{Read, read_classes};
use dv_defs::{ClassDef, LineError};
use dv_print::print_class;
use std::alloc::{AllocError, Global};
use std::process::Abort;

fn read<R: Abort>(rt: &R, alloc: Global, text: &[u8]) -> Result<Read, LineError> {
    assert!(rt; text.len() < 1_000_000);
    read_classes(alloc, text, false)
}

fn add_class(alloc: Global, text: &mut Vec<u8>, class: &ClassDef) -> Result<(), AllocError> {
    let printed = print_class(alloc, class)?;
    let added = text.extend_from_slice(printed.bytes());
    drop(printed);
    added
}

fn add_classes(alloc: Global, text: &mut Vec<u8>, classes: &[ClassDef]) -> Result<(), AllocError> {
    for class in classes {
        add_class(alloc, text, class)?;
    }
    Ok(())
}

fn listing<R: Abort>(rt: &R, alloc: Global, classes: &[ClassDef]) -> Vec<u8> {
    let mut text = Vec::new(alloc);
    assert!(rt; add_classes(alloc, &mut text, classes).is_ok());
    text
}

// Each class as if it began on the first line.
fn forget_lines(classes: &mut Vec<ClassDef>) {
    for class in classes {
        class.line = 1;
    }
}

fn classes_of<R: Abort>(rt: &R, alloc: Global, text: &[u8]) -> Vec<ClassDef> {
    let read = read(rt, alloc, text).ok().expect(rt, "a text");
    let mut classes = read.classes.into_vec();
    forget_lines(&mut classes);
    classes
}

fn assert_listing<R: Abort>(rt: &R, alloc: Global, classes: &[ClassDef], listed: &[u8]) {
    let twice = listing(rt, alloc, classes);
    assert!(rt; twice.as_slice() == listed);
    drop(twice);
}

fn assert_again<R: Abort>(rt: &R, alloc: Global, first: &Vec<ClassDef>, listed: &[u8]) {
    let again = classes_of(rt, alloc, listed);
    assert_listing(rt, alloc, &again, listed);
    assert!(rt; again == *first);
    drop(again);
}

#[test]
fn the_listing_of_the_boot_text_is_read_again(rt: HostRuntime) {
    let alloc = rt.alloc();
    let first = classes_of(&rt, alloc, boot_text().as_bytes());
    assert_eq!(rt; first.len(), 33);
    let listed = listing(&rt, alloc, &first);
    assert_again(&rt, alloc, &first, &listed);
    drop(listed);
    drop(first);
}

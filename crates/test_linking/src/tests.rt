// What no text shows: boot classes that aren't as the table has them, and the cells of objects. The refusals of programs are cases
// (`cases/linking`).
use dv_boot::boot_text;
use dv_classread::read_classes;
use dv_console::{Refusal, refusal_line};
use dv_defs::{ClassDef, ClassId, ClassInfo, FieldInfo, LinkError, LinkKind, Text};
use dv_hier::{Classes, build};
use dv_resolve::link;
use std::alloc::Global;
use std::process::Abort;

const BOOT: u32 = 33;

fn read<R: Abort>(rt: &R, alloc: Global, text: &[u8]) -> Vec<ClassDef> {
    assert!(rt; text.len() < 4_000_000);
    let read = read_classes(alloc, text, false);
    read.ok().expect(rt, "a text").classes.into_vec()
}

// The boot classes, and then those of a text.
fn with_boot<R: Abort>(rt: &R, alloc: Global, text: &str) -> Vec<ClassDef> {
    let mut classes = read(rt, alloc, boot_text().as_bytes());
    let mut more = read(rt, alloc, text.as_bytes());
    assert!(rt; classes.append(&mut more).is_ok());
    drop(more);
    classes
}

fn classes_of<R: Abort>(rt: &R, list: Vec<ClassDef>, boot: u32) -> Classes {
    Classes::new(list, boot).expect(rt, "names")
}

// The line that tells why a class isn't linked.
fn line_of<R: Abort>(rt: &R, alloc: Global, class: Text, kind: LinkKind) -> Text {
    let refusal = Refusal::Link(class, kind);
    let line = refusal_line(alloc, &refusal).ok().expect(rt, "memory");
    drop(refusal);
    line
}

// The line that tells why classes aren't linked, or none.
fn told<R: Abort>(rt: &R, alloc: Global, list: Vec<ClassDef>, boot: u32) -> Option<Text> {
    match link(alloc, classes_of(rt, list, boot)) {
        Ok(image) => {
            drop(image);
            None
        }
        Err(LinkError::At { class, kind }) => Some(line_of(rt, alloc, class, kind)),
        Err(LinkError::Memory) => panic!(rt; "memory"),
    }
}

// The line that tells that a boot class isn't there.
fn without_class<R: Abort>(rt: &R, alloc: Global, class: &str) -> String {
    let line = format!(in alloc; "#refused class {class}: no class {class}\n");
    line.ok().expect(rt, "memory")
}

// A line tells that a boot class isn't there.
fn assert_line<R: Abort>(rt: &R, alloc: Global, line: &[u8], class: &str) {
    let wanted = without_class(rt, alloc, class);
    assert!(rt; line == wanted.as_bytes(), "{class}");
    drop(wanted);
}

// Classes aren't linked, since a boot class isn't there; or they are, where no class is told.
fn assert_told<R: Abort>(rt: &R, alloc: Global, list: Vec<ClassDef>, boot: u32, class: &str) {
    let found = told(rt, alloc, list, boot);
    match &found {
        Some(line) => assert_line(rt, alloc, line.bytes(), class),
        None => assert!(rt; class.is_empty(), "{class}"),
    }
    drop(found);
}

// A line of the boot text, what stands in its place, and the class that isn't as each program finds it: none where it still is.
static CHANGES: [(&str, &str, &str); 14] = [
    (
        ".class final Ljava/lang/Class;",
        ".class Ljava/lang/Class;",
        "Ljava/lang/Class;",
    ),
    (
        ".super Ljava/lang/Exception;",
        ".super Ljava/lang/Throwable;",
        "Ljava/lang/RuntimeException;",
    ),
    (".implements Ljava/lang/Runnable;", "", "Ljava/lang/Thread;"),
    (
        ".field target:Ljava/lang/Runnable;",
        ".field target:Ljava/lang/Object;",
        "Ljava/lang/Thread;",
    ),
    (
        ".field message:Ljava/lang/String;",
        ".field text:Ljava/lang/String;",
        "Ljava/lang/Throwable;",
    ),
    (
        ".field message:Ljava/lang/String;",
        "",
        "Ljava/lang/Throwable;",
    ),
    (
        ".field static final out:Ljava/io/PrintStream;",
        ".field static out:Ljava/io/PrintStream;",
        "Ljava/lang/System;",
    ),
    (
        ".method native start()V",
        ".method native begin()V",
        "Ljava/lang/Thread;",
    ),
    (
        ".method final native wait()V",
        ".method native wait()V",
        "Ljava/lang/Object;",
    ),
    (
        ".method native notify()V",
        ".method native notify(I)V",
        "Ljava/lang/Object;",
    ),
    (
        ".method run()V",
        ".method private run()V",
        "Ljava/lang/Thread;",
    ),
    (".class Ldvm/Text;", ".class Ldvm/Words;", "Ldvm/Text;"),
    // a flag without effect, and another body
    (
        ".method native join()V",
        ".method public synthetic native join()V",
        "",
    ),
    (".locals 0", ".locals 3", ""),
];

// The boot text, the first line of these changed.
fn changed_text<R: Abort>(rt: &R, text: &mut Vec<u8>, from: &str, to: &str) {
    let mut is_changed = false;
    for line in boot_text().lines() {
        let is_next = !is_changed && line == from;
        is_changed |= is_next;
        let line = if is_next { to } else { line };
        assert!(rt; text.extend_from_slice(line.as_bytes()).is_ok());
        assert!(rt; text.push(b'\n').is_ok());
    }
    assert!(rt; is_changed, "{from}");
}

// The boot classes, the first line of this text changed.
fn changed_boot<R: Abort>(rt: &R, alloc: Global, from: &str, to: &str) -> Vec<ClassDef> {
    let mut text = Vec::new(alloc);
    changed_text(rt, &mut text, from, to);
    let classes = read(rt, alloc, &text);
    drop(text);
    classes
}

#[test]
fn boot_classes_are_those_of_the_table(rt: HostRuntime) {
    for (from, to, class) in &CHANGES {
        let list = changed_boot(&rt, rt.alloc(), from, to);
        assert_told(&rt, rt.alloc(), list, BOOT, class);
    }
}

// A program and none, with so many boot classes.
fn assert_boot<R: Abort>(rt: &R, alloc: Global, boot: u32, class: &str) {
    let list = with_boot(rt, alloc, ".class LA;\n.super Ljava/lang/Object;\n");
    assert_told(rt, alloc, list, boot, class);
    let none = Vec::new(alloc);
    assert_told(rt, alloc, none, boot, "Ljava/lang/Object;");
}

#[test]
fn no_other_class_is_a_boot_class(rt: HostRuntime) {
    let alloc = rt.alloc();
    assert_boot(&rt, alloc, 0, "Ljava/lang/Object;");
    assert_boot(&rt, alloc, 1, "Ljava/lang/Runnable;");
    assert_boot(&rt, alloc, 32, "Ljava/lang/StackOverflowError;");
    assert_boot(&rt, alloc, 33, "");
    assert_boot(&rt, alloc, 34, "LA;");
    assert_boot(&rt, alloc, u32::MAX, "LA;");
}

// The fields at the places of a class's cells, its superclass, and how many interfaces it names. Its table isn't made yet.
fn assert_class<R: Abort>(
    rt: &R,
    class: &ClassInfo,
    slots: &[u32],
    parent: u32,
    interfaces: usize,
) {
    assert_eq!(rt; class.slots.len(), slots.len());
    for (slot, wanted) in class.slots.items().iter().zip(slots) {
        assert_eq!(rt; slot.0, *wanted);
    }
    assert!(rt; class.parent == Some(ClassId(parent)));
    assert_eq!(rt; class.interfaces.len(), interfaces);
    assert!(rt; class.table.is_empty());
}

// The class of a field, its place in it, and its first cell.
fn assert_field<R: Abort>(rt: &R, field: &FieldInfo, class: u32, place: u32, slot: u32) {
    assert_eq!(rt; field.class.0, class);
    assert_eq!(rt; field.place, place);
    assert_eq!(rt; field.slot, slot);
}

// Two classes and an interface behind the boot classes.
fn assert_classes<R: Abort>(rt: &R, classes: &[ClassInfo]) {
    assert_eq!(rt; classes.len(), 36);
    assert_class(rt, &classes[33], &[7, 9, 5, 6], 34, 0);
    assert_class(rt, &classes[34], &[7, 9], 0, 1);
    assert_class(rt, &classes[35], &[], 0, 0);
}

// The fields c, d, a, s, b, e; a boot class declares five.
fn assert_fields<R: Abort>(rt: &R, fields: &[FieldInfo]) {
    assert_eq!(rt; fields.len(), 11);
    assert_field(rt, &fields[5], 33, 0, 3);
    assert_field(rt, &fields[6], 33, 1, 4);
    assert_field(rt, &fields[7], 34, 0, 0);
    assert_field(rt, &fields[8], 34, 1, 0);
    assert_field(rt, &fields[9], 34, 2, 2);
    assert_field(rt, &fields[10], 35, 0, 0);
}

const FIELDS: &str = ".class LB;
.super LA;
.field c:[J
.field d:J
.class LA;
.super Ljava/lang/Object;
.implements LI;
.field a:J
.field static s:J
.field b:I
.class interface abstract LI;
.super Ljava/lang/Object;
.field e:I
";

#[test]
fn cells_stand_behind_those_of_the_superclass(rt: HostRuntime) {
    let list = with_boot(&rt, rt.alloc(), FIELDS);
    let built = build(rt.alloc(), classes_of(&rt, list, BOOT));
    let built = built.ok().expect(&rt, "a hierarchy");
    assert_classes(&rt, built.classes.items());
    assert_fields(&rt, built.fields.items());
    drop(built);
}

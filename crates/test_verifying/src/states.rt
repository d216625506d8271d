// Images of texts, and register types and states as the rows of tables have them.
use dv_boot::boot_text;
use dv_classread::read_classes;
use dv_defs::{ClassDef, Image, Seq, Ty};
use dv_hier::Classes;
use dv_names::parse_type;
use dv_resolve::link;
use dv_typing::{PendingType, RegState, RegType};
use std::alloc::Global;
use std::process::Abort;

pub const BOOT: u32 = 33;

/// Stops the test where a row doesn't hold, and tells its number.
pub fn check<R: Abort>(rt: &R, holds: bool, number: usize) {
    assert!(rt; holds, "row {number}");
}

fn read<R: Abort>(rt: &R, alloc: Global, text: &str) -> Vec<ClassDef> {
    assert!(rt; text.len() < 4_000_000);
    let read = read_classes(alloc, text.as_bytes(), false);
    read.ok().expect(rt, "a text").classes.into_vec()
}

// The boot classes, and then those of a text.
fn with_boot<R: Abort>(rt: &R, alloc: Global, text: &str) -> Vec<ClassDef> {
    let mut classes = read(rt, alloc, boot_text());
    let mut more = read(rt, alloc, text);
    assert!(rt; classes.append(&mut more).is_ok());
    drop(more);
    classes
}

/// The image of a text behind the boot classes.
pub fn linked<R: Abort>(rt: &R, alloc: Global, text: &str) -> Image {
    let classes = with_boot(rt, alloc, text);
    let classes = Classes::new(classes, BOOT).expect(rt, "names");
    link(alloc, classes).ok().expect(rt, "an image")
}

/// A register type, a class or an array by its descriptor.
#[derive(Clone, Copy)]
pub enum Kind {
    Conflict,
    Zero,
    Int,
    LongLo,
    LongHi,
    Class(&'static str),
    Uninit(u32),
    UninitThis,
}

/// A pending result.
#[derive(Clone, Copy)]
pub enum Pending {
    Nothing,
    One(Kind),
    Long,
}

/// A state by its registers: with nothing else known, a result still to be moved, the superclass's constructor still to be called, or these
/// and a caught exception.
#[derive(Clone, Copy)]
pub enum StateRow {
    Plain(&'static [Kind]),
    Awaiting(&'static [Kind], Pending),
    Constructing(&'static [Kind]),
    Full(&'static [Kind], Pending, &'static str),
}

fn type_named<R: Abort>(rt: &R, alloc: Global, descriptor: &str) -> Ty {
    let ty = parse_type(alloc, descriptor.as_bytes());
    ty.ok().expect(rt, "a type")
}

// The register type of a row.
fn register_type<R: Abort>(rt: &R, alloc: Global, kind: Kind) -> RegType {
    match kind {
        Kind::Conflict => RegType::Conflict,
        Kind::Zero => RegType::Zero,
        Kind::Int => RegType::Int,
        Kind::LongLo => RegType::LongLo,
        Kind::LongHi => RegType::LongHi,
        Kind::Class(descriptor) => RegType::Class(type_named(rt, alloc, descriptor)),
        Kind::Uninit(at) => RegType::Uninit(at),
        Kind::UninitThis => RegType::UninitThis,
    }
}

fn registers<R: Abort>(rt: &R, alloc: Global, kinds: &[Kind]) -> Seq<RegType> {
    let mut types = Vec::new(alloc);
    for kind in kinds {
        let pushed = types.push(register_type(rt, alloc, *kind));
        pushed.ok().expect(rt, "memory");
    }
    Seq::of(types)
}

fn pending_type<R: Abort>(rt: &R, alloc: Global, pending: Pending) -> PendingType {
    match pending {
        Pending::Nothing => PendingType::None,
        Pending::One(kind) => PendingType::One(register_type(rt, alloc, kind)),
        Pending::Long => PendingType::Long,
    }
}

/// The type of a descriptor, where there is one.
pub fn class_named<R: Abort>(rt: &R, alloc: Global, descriptor: Option<&str>) -> Option<Ty> {
    match descriptor {
        Some(descriptor) => Some(type_named(rt, alloc, descriptor)),
        None => None,
    }
}

fn state_of<R: Abort>(
    rt: &R,
    alloc: Global,
    regs: &[Kind],
    pending: Pending,
    caught: Option<&str>,
    this_pending: bool,
) -> RegState {
    let regs = registers(rt, alloc, regs);
    let result = pending_type(rt, alloc, pending);
    let caught = class_named(rt, alloc, caught);
    RegState {
        regs,
        result,
        caught,
        this_pending,
    }
}

/// The state of a row.
pub fn state<R: Abort>(rt: &R, alloc: Global, row: StateRow) -> RegState {
    match row {
        StateRow::Plain(regs) => state_of(rt, alloc, regs, Pending::Nothing, None, false),
        StateRow::Awaiting(regs, result) => state_of(rt, alloc, regs, result, None, false),
        StateRow::Constructing(regs) => state_of(rt, alloc, regs, Pending::Nothing, None, true),
        StateRow::Full(regs, result, caught) => {
            state_of(rt, alloc, regs, result, Some(caught), true)
        }
    }
}

/// Whether a state is that of a row.
pub fn is_state<R: Abort>(rt: &R, alloc: Global, found: RegState, row: StateRow) -> bool {
    let wanted = state(rt, alloc, row);
    let is_same = found == wanted;
    drop(found);
    drop(wanted);
    is_same
}

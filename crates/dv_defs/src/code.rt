// Instructions, payloads and bodies.
use crate::{Chars, FieldRef, MethodRef, Seq, Ty};
use std::marker::Model;

/// The registers of an instruction: the first `count` of `first`, in the order of the format's operands.
/// In the range form there are `count` neighbouring registers, which begin at the first of `first`.
#[derive(Clone, Copy, PartialEq, Eq, Debug)]
pub struct Regs {
    pub count: u8,
    pub first: [u16; 5],
    pub range: bool,
}

/// A pool of a body, in which the index of an instruction is a place.
#[derive(Clone, Copy)]
pub enum PoolKind {
    Strings,
    Types,
    Fields,
    Methods,
}

/// An instruction with its operands. A part that its format lacks is 0.
/// `off` counts units from the instruction's own address, `index` is a place in a pool of its body.
#[derive(Clone, Copy, PartialEq, Eq)]
pub struct Insn {
    pub op: u8,
    pub regs: Regs,
    pub lit: i64,
    pub off: i32,
    pub index: u32,
}

/// The data of a switch or of fill-array-data. Targets count units from the address of the switch,
/// and `width` is the size of an element in bytes.
#[derive(PartialEq, Eq, Drop)]
pub enum Payload {
    Packed { first: i32, targets: Seq<i32> },
    Sparse { keys: Seq<i32>, targets: Seq<i32> },
    Data { width: u16, bytes: Seq<u8> },
}

/// An exception handler: the place of its type in the body's types, or none where it catches all, and its address.
#[derive(Clone, Copy, PartialEq, Eq)]
pub struct Handler {
    pub kind: Option<u32>,
    pub at: u32,
}

/// A try entry: it covers the addresses from `start` up to and without `end`.
#[derive(PartialEq, Eq, Drop)]
pub struct Try {
    pub start: u32,
    pub end: u32,
    pub handlers: Seq<Handler>,
}

/// The code of a method: its units of 16 bits with try entries, and the pools that its instructions name.
/// A body has at most 256 registers and 16,384 units, and each handler's kind is a place in its pool of types.
/// It is raw where it was written as units.
#[derive(PartialEq, Eq, Drop)]
pub struct Body {
    pub registers: u16,
    pub units: Seq<u16>,
    pub tries: Seq<Try>,
    pub strings: Seq<Chars>,
    pub types: Seq<Ty>,
    pub fields: Seq<FieldRef>,
    pub methods: Seq<MethodRef>,
    pub raw: bool,
}

impl Model for Body {
    ghost use Rattle.dv_defs.specs.Body.{BodyValue, IsBody};

    ghost Value = { BodyValue };

    ghost view = { λ b. record { registers = b.registers; units = b.units; tries = b.tries; strings = b.strings; types = b.types; fields = b.fields; methods = b.methods; raw = b.raw } };

    ghost invariant = { λ b. IsBody b.registers b.units b.tries b.types };

    ghost inverse = { λ b. record { registers = b.registers; units = b.units; tries = b.tries; strings = b.strings; types = b.types; fields = b.fields; methods = b.methods; raw = b.raw } };
}

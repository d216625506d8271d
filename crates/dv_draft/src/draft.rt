// The draft of a method's body.
use dv_defs::{Chars, FieldRef, Insn, MethodRef, Seq, Text, Ty};
use std::marker::Model;

/// What an instruction names in a pool of its body.
#[derive(Drop)]
pub enum PoolRef {
    None,
    Str(Chars),
    OfType(Ty),
    Field(FieldRef),
    Method(MethodRef),
}

/// An instruction with the label that its offset leads to and its entry in a pool. Its own offset and index don't count.
#[derive(Drop)]
pub struct Draftop {
    pub insn: Insn,
    pub label: Option<Text>,
    pub pool: PoolRef,
}

/// A label, an instruction or a payload: a packed switch's first key and targets, a sparse switch's keys and targets,
/// the width of an element in bytes and the bytes of an array.
#[derive(Drop)]
pub enum What {
    Label(Text),
    Op(Draftop),
    Packed(i32, Seq<Text>),
    Sparse(Seq<i32>, Seq<Text>),
    Data(u16, Seq<u8>),
}

/// What stands on a line.
#[derive(Drop)]
pub struct Item {
    pub line: u32,
    pub what: What,
}

/// A handler at the label `at` for the addresses from the label `from` up to and without the label `to`.
/// It catches exceptions of the type `kind`, or all where there is none.
#[derive(Drop)]
pub struct Catch {
    pub line: u32,
    pub kind: Option<Ty>,
    pub from: Text,
    pub to: Text,
    pub at: Text,
}

/// A method's body as it is read, before labels have addresses. There are at most 256 registers, and each item has its
/// form: the opcode of an instruction has a format, and its registers, literal, label and pool entry are of that format.
#[derive(Drop)]
pub struct Draft {
    pub registers: u16,
    pub items: Seq<Item>,
    pub catches: Seq<Catch>,
}

impl Model for Draft {
    ghost use Rattle.dv_draft.specs.Draft.{DraftValue, IsDraft};

    ghost Value = { DraftValue };

    ghost view = { λ d. record { registers = d.registers; items = d.items; catches = d.catches } };

    ghost invariant = { λ d. IsDraft d.registers d.items };

    ghost inverse = { λ d. record { registers = d.registers; items = d.items; catches = d.catches } };
}

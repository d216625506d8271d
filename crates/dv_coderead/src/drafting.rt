// A draft that is being read, line by line.
ghost use Rattle.std.specs.Prelude.{◌≡◌, ◌∷◌, ◌++◌, ℕ, [], IsTrue, OnOk};
ghost use Rattle.std.specs.List.{flat_map};
ghost use Rattle.dv_defs.specs.Tiling.{is_width};
ghost use Rattle.dv_coderead.specs.Giving.{GivesLines};
ghost use Rattle.dv_coderead.specs.BodyLines.{IsLine, StandsIn};
ghost use Rattle.dv_coderead.specs.Bodies.{element_bytes, nothing_before};
ghost use Rattle.dv_coderead.specs.Drafting.{finished_with, payload_with, Adds, IsDrafting};

use crate::body_line::{BodyLine, Context, Opening};
use dv_defs::{LineError, LineKind, Seq, Text};
use dv_draft::{Catch, Draft, Item, What};
use std::alloc::{AllocError, Global};
use std::mem;

/// The payload that is open: the line at which it began, and its labels, keys or bytes so far.
#[derive(Drop)]
pub struct Open {
    pub line: u32,
    pub labels: Vec<Text>,
    pub keys: Vec<i32>,
    pub bytes: Vec<u8>,
}

/// What the lines so far have given.
#[derive(Drop)]
pub struct Drafting {
    pub context: Context,
    pub open: Open,
    pub items: Vec<Item>,
    pub catches: Vec<Catch>,
}

impl Open {
    fn new(alloc: Global) -> Open
        ensures labels { result.labels.items ≡ [] }
        ensures keys { result.keys.items ≡ [] }
        ensures bytes { result.bytes.items ≡ [] }
    {
        Open {
            line: 0,
            labels: Vec::new(alloc),
            keys: Vec::new(alloc),
            bytes: Vec::new(alloc),
        }
    }
}

impl Drafting {
    /// Before the first line.
    pub fn new(alloc: Global) -> Drafting
        ensures context { result.context ≡ nothing_before }
        ensures items { result.items.items ≡ [] }
        ensures catches { result.catches.items ≡ [] }
        ensures drafting { IsDrafting result }
    {
        Drafting {
            context: Context {
                frame: None,
                block: None,
            },
            open: Open::new(alloc),
            items: Vec::new(alloc),
            catches: Vec::new(alloc),
        }
    }

    /// Adds the elements of an array.
    fn add_elements(&mut self, elements: Seq<i64>) -> Result<(), AllocError>
        requires drafting { IsDrafting self.old }
        requires stands { StandsIn self.old.context.block (BodyLine.Elements elements) }
        ensures { OnOk result ((n : ℕ) → Adds self.old n (BodyLine.Elements elements) self.new) }
    {
        let Some(Opening::Data(width)) = self.context.block else {
            return Ok(());
        };
        add_bytes(&mut self.open.bytes, width, elements.items())
    }

    /// Closes the block that is open, whose payload becomes an item.
    fn end_block(&mut self, alloc: Global) -> Result<(), AllocError>
        requires drafting { IsDrafting self.old }
        requires stands { StandsIn self.old.context.block BodyLine.End }
        ensures { OnOk result ((n : ℕ) → Adds self.old n BodyLine.End self.new) }
    {
        let Some(opening) = self.context.block else {
            return Ok(());
        };
        let open = mem::replace(&mut self.open, Open::new(alloc));
        self.items.push(Item {
            line: open.line,
            what: payload(opening, open),
        })?;
        self.context.block = None;
        Ok(())
    }

    /// Adds what a line says, which stands in its block.
    pub fn add(&mut self, alloc: Global, line: u32, says: BodyLine) -> Result<(), AllocError>
        requires drafting { IsDrafting self.old }
        requires formed { IsLine says }
        requires stands { StandsIn self.old.context.block says }
        ensures { OnOk result (Adds self.old line says self.new) }
    {
        match says {
            BodyLine::Registers(frame) => {
                self.context.frame = Some(frame);
                Ok(())
            }
            BodyLine::Label(name) => push(
                &mut self.items,
                Item {
                    line,
                    what: What::Label(name),
                },
            ),
            BodyLine::Op(op) => push(
                &mut self.items,
                Item {
                    line,
                    what: What::Op(op),
                },
            ),
            BodyLine::Handler(catch) => push(&mut self.catches, catch),
            BodyLine::Begin(opening) => {
                self.context.block = Some(opening);
                self.open.line = line;
                Ok(())
            }
            BodyLine::Target(name) => push(&mut self.open.labels, name),
            BodyLine::Case(key, name) => {
                self.open.keys.push(key)?;
                push(&mut self.open.labels, name)
            }
            BodyLine::Elements(elements) => self.add_elements(elements),
            BodyLine::End => self.end_block(alloc),
        }
    }

    /// The draft, behind the last line. `past` is the number of the line behind it.
    ///
    /// # Errors
    ///
    /// `Missing` at that line where there is no count of registers, or a block is left open.
    pub fn finish(self, past: u32) -> Result<Draft, LineError>
        requires { IsDrafting self }
        ensures { GivesLines (λ d. d) result (finished_with past 0 self []) }
    {
        let Some(frame) = self.context.frame else {
            drop(self);
            return Err(missing(past));
        };
        if self.context.block.is_some() {
            drop(self);
            return Err(missing(past));
        }
        Ok(Draft {
            registers: frame.registers as u16,
            items: Seq::of(self.items),
            catches: Seq::of(self.catches),
        })
    }
}

/// Adds the bytes of elements, the low byte of each first.
fn add_bytes(bytes: &mut Vec<u8>, width: u16, elements: &[i64]) -> Result<(), AllocError>
    requires { IsTrue (is_width width) }
    ensures { OnOk result (bytes.new.items ≡ bytes.old.items ++ flat_map (element_bytes width) elements.now) }
{
    for element in elements {
        let all = element.cast_unsigned().to_le_bytes();
        bytes.extend_from_slice(&all[..usize::from(width)])?;
    }
    Ok(())
}

/// Puts one more behind the others.
fn push<T: Drop>(list: &mut Vec<T>, one: T) -> Result<(), AllocError>
    ensures { OnOk result (list.new.items ≡ list.old.items ++ one ∷ []) }
{
    list.push(one)?;
    Ok(())
}

/// That something is missing on this line.
pub fn missing(line: u32) -> LineError
    ensures { result ≡ LineError.At line LineKind.Missing }
{
    LineError::At {
        line,
        kind: LineKind::Missing,
    }
}

/// A payload that begins so and has had these lines.
fn payload(opening: Opening, so_far: Open) -> What
    ensures { result ≡ payload_with opening so_far [] }
{
    match opening {
        Opening::Packed(first) => What::Packed(first, Seq::of(so_far.labels)),
        Opening::Sparse => What::Sparse(Seq::of(so_far.keys), Seq::of(so_far.labels)),
        Opening::Data(width) => What::Data(width, Seq::of(so_far.bytes)),
    }
}

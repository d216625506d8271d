// Registers and offsets that don't fit, and bodies that are too long.
ghost use Rattle.std.specs.Prelude.{◌≡◌, ◌<◌, length, Some};
ghost use Rattle.dv_defs.specs.Spelling.{fits_signed};
ghost use Rattle.dv_defs.specs.Formats.{offset_bits};
ghost use Rattle.dv_asm.specs.Refusals.{with_operands, is_over_registers, register_range, register_range_at, offset_fits, is_over_offset, offset_range, offset_range_at, too_long, too_long_at};

use crate::items::size;
use crate::lines::{first_line, when};
use crate::places::Places;
use dv_defs::{Insn, Text};
use dv_draft::What;
use dv_units::{has_spelling, offset_bits};

/// The most units that a body may have.
const LIMIT: u64 = 16384;

/// The instruction with this offset and this index.
pub fn with_operands(insn: &Insn, off: i32, index: u32) -> Insn
    ensures { result ≡ with_operands insn.now off index }
{
    Insn {
        off,
        index,
        ..*insn
    }
}

fn is_over_registers(what: &What) -> bool
    ensures { result ≡ is_over_registers what.now }
{
    match what {
        What::Op(op) => !has_spelling(&with_operands(&op.insn, 0, 0)),
        _ => false,
    }
}

impl Places<'_> {
    fn register_range_at(&self, k: usize) -> Option<u32>
        requires { k < length self.now }
        ensures { result ≡ register_range_at self.now k }
    {
        let item = self.item(k);
        when(is_over_registers(&item.what), item.line)
    }

    /// The first line of an instruction with a register that doesn't fit its field.
    pub fn register_range(&self) -> Option<u32>
        ensures { result ≡ register_range self.now }
    {
        first_line(self.count(), |k| self.register_range_at(k))
    }

    /// Whether the offset's field of item k, of an opcode, holds the distance of a label.
    fn label_fits(&self, k: usize, op: u8, name: &Text) -> bool
        requires { k < length self.now }
        ensures { result ≡ offset_fits self.now k op (Some name.now) }
    {
        offset_fits(op, self.distance(k, name))
    }

    fn is_over_offset(&self, k: usize, what: &What) -> bool
        requires { k < length self.now }
        ensures { result ≡ is_over_offset self.now k what.now }
    {
        match what {
            What::Op(op) => match &op.label {
                Some(name) => !self.label_fits(k, op.insn.op, name),
                None => false,
            },
            _ => false,
        }
    }

    fn offset_range_at(&self, k: usize) -> Option<u32>
        requires { k < length self.now }
        ensures { result ≡ offset_range_at self.now k }
    {
        let item = self.item(k);
        when(self.is_over_offset(k, &item.what), item.line)
    }

    /// The first line of an instruction whose label is too far for its offset.
    pub fn offset_range(&self) -> Option<u32>
        ensures { result ≡ offset_range self.now }
    {
        first_line(self.count(), |k| self.offset_range_at(k))
    }

    fn too_long_at(&self, k: usize) -> Option<u32>
        requires { k < length self.now }
        ensures { result ≡ too_long_at self.now k }
    {
        let item = self.item(k);
        let address = self.address_of(k);
        let passes = address <= LIMIT && address + size(item) > LIMIT;
        when(passes, item.line)
    }

    /// The line of the item whose end passes the limit.
    pub fn too_long(&self) -> Option<u32>
        ensures { result ≡ too_long self.now }
    {
        first_line(self.count(), |k| self.too_long_at(k))
    }
}

/// Whether the offset's field of an opcode holds a number.
fn offset_fits(op: u8, offset: i64) -> bool
    ensures { result ≡ fits_signed (offset_bits op) offset }
{
    match offset_bits(op) {
        8 => i8::try_from(offset).is_ok(),
        16 => i16::try_from(offset).is_ok(),
        _ => i32::try_from(offset).is_ok(),
    }
}

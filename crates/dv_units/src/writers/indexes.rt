// Writing an instruction of a format with an index.
// In a comment the letters of a unit are nibbles, the highest first.
ghost use Rattle.std.specs.Prelude.{◌≡◌};
ghost use Rattle.dv_defs.specs.Spelling.{spelling_21c, spelling_22c, spelling_31c, spelling_35c, spelling_3rc};

use crate::fields::{are_nibbles, are_zero_from, byte, two_units, unit};
use crate::shape::{has_form, neighbours, one_register, two_registers, with_index};
use crate::spelled::Spelled;
use dv_defs::{Insn, Regs};

/// 21c, `AAop BBBB`.
pub fn write_21c(insn: &Insn) -> Option<Spelled>
    ensures { result ≡ spelling_21c insn.now }
{
    let [a, ..] = insn.regs.first;
    if !has_form(insn, with_index(insn.op, one_register(a), insn.index))
        || a >= 256
        || insn.index >= 0x1_0000
    {
        return None;
    }
    Some(Spelled::two(unit(a, insn.op.into()), insn.index as u16))
}

/// 22c, `BAop CCCC`.
pub fn write_22c(insn: &Insn) -> Option<Spelled>
    ensures { result ≡ spelling_22c insn.now }
{
    let [a, b, ..] = insn.regs.first;
    if !has_form(insn, with_index(insn.op, two_registers(a, b), insn.index))
        || a >= 16
        || b >= 16
        || insn.index >= 0x1_0000
    {
        return None;
    }
    Some(Spelled::two(unit(byte(b, a), insn.op.into()), insn.index as u16))
}

/// 31c, `AAop low high`.
pub fn write_31c(insn: &Insn) -> Option<Spelled>
    ensures { result ≡ spelling_31c insn.now }
{
    let [a, ..] = insn.regs.first;
    if !has_form(insn, with_index(insn.op, one_register(a), insn.index)) || a >= 256 {
        return None;
    }
    let (low, high) = two_units(insn.index);
    Some(Spelled::three(unit(a, insn.op.into()), low, high))
}

/// 35c, `AGop BBBB FEDC`.
pub fn write_35c(insn: &Insn) -> Option<Spelled>
    ensures { result ≡ spelling_35c insn.now }
{
    let count = insn.regs.count;
    let [c, d, e, f, g] = insn.regs.first;
    let words = [c, d, e, f, g];
    let regs = Regs {
        count,
        first: words,
        range: false,
    };
    if !has_form(insn, with_index(insn.op, regs, insn.index))
        || count > 5
        || insn.index >= 0x1_0000
    {
        return None;
    }
    if !are_zero_from(&words, count) || !are_nibbles(&words) {
        return None;
    }
    let first = unit(byte(count.into(), g), insn.op.into());
    Some(Spelled::three(first, insn.index as u16, unit(byte(f, e), byte(d, c))))
}

/// 3rc, `AAop BBBB CCCC`.
pub fn write_3rc(insn: &Insn) -> Option<Spelled>
    ensures { result ≡ spelling_3rc insn.now }
{
    let count = insn.regs.count;
    let [c, ..] = insn.regs.first;
    if !has_form(insn, with_index(insn.op, neighbours(c, count), insn.index))
        || insn.index >= 0x1_0000
    {
        return None;
    }
    if count == 0 && c != 0 {
        return None;
    }
    Some(Spelled::three(unit(count.into(), insn.op.into()), insn.index as u16, c))
}

// Writing an instruction of a format with an offset.
// In a comment the letters of a unit are nibbles, the highest first.
ghost use Rattle.std.specs.Prelude.{◌≡◌};
ghost use Rattle.dv_defs.specs.Spelling.{spelling_10t, spelling_20t, spelling_21t, spelling_22t, spelling_30t, spelling_31t};

use crate::fields::{byte, complement, complement_32, fits_signed, two_units, unit};
use crate::shape::{has_form, no_registers, one_register, two_registers, with_offset};
use crate::spelled::Spelled;
use dv_defs::Insn;

/// 10t, `AAop`.
pub fn write_10t(insn: &Insn) -> Option<Spelled>
    ensures { result ≡ spelling_10t insn.now }
{
    if !has_form(insn, with_offset(insn.op, no_registers(), insn.off))
        || !fits_signed(insn.off.into(), 8)
    {
        return None;
    }
    let offset = complement(insn.off.into(), 8) as u16;
    Some(Spelled::one(unit(offset, insn.op.into())))
}

/// 20t, `00op AAAA`.
pub fn write_20t(insn: &Insn) -> Option<Spelled>
    ensures { result ≡ spelling_20t insn.now }
{
    if !has_form(insn, with_offset(insn.op, no_registers(), insn.off))
        || !fits_signed(insn.off.into(), 16)
    {
        return None;
    }
    let offset = complement(insn.off.into(), 16) as u16;
    Some(Spelled::two(unit(0, insn.op.into()), offset))
}

/// 21t, `AAop BBBB`.
pub fn write_21t(insn: &Insn) -> Option<Spelled>
    ensures { result ≡ spelling_21t insn.now }
{
    let [a, ..] = insn.regs.first;
    if !has_form(insn, with_offset(insn.op, one_register(a), insn.off))
        || a >= 256
        || !fits_signed(insn.off.into(), 16)
    {
        return None;
    }
    let offset = complement(insn.off.into(), 16) as u16;
    Some(Spelled::two(unit(a, insn.op.into()), offset))
}

/// 22t, `BAop CCCC`.
pub fn write_22t(insn: &Insn) -> Option<Spelled>
    ensures { result ≡ spelling_22t insn.now }
{
    let [a, b, ..] = insn.regs.first;
    if !has_form(insn, with_offset(insn.op, two_registers(a, b), insn.off))
        || a >= 16
        || b >= 16
        || !fits_signed(insn.off.into(), 16)
    {
        return None;
    }
    let offset = complement(insn.off.into(), 16) as u16;
    Some(Spelled::two(unit(byte(b, a), insn.op.into()), offset))
}

/// 30t, `00op low high`.
pub fn write_30t(insn: &Insn) -> Option<Spelled>
    ensures { result ≡ spelling_30t insn.now }
{
    if !has_form(insn, with_offset(insn.op, no_registers(), insn.off)) {
        return None;
    }
    let (low, high) = two_units(complement_32(insn.off));
    Some(Spelled::three(unit(0, insn.op.into()), low, high))
}

/// 31t, `AAop low high`.
pub fn write_31t(insn: &Insn) -> Option<Spelled>
    ensures { result ≡ spelling_31t insn.now }
{
    let [a, ..] = insn.regs.first;
    if !has_form(insn, with_offset(insn.op, one_register(a), insn.off)) || a >= 256 {
        return None;
    }
    let (low, high) = two_units(complement_32(insn.off));
    Some(Spelled::three(unit(a, insn.op.into()), low, high))
}

// Writing an instruction of a format with a literal.
// In a comment the letters of a unit are nibbles, the highest first.
ghost use Rattle.std.specs.Prelude.{◌≡◌};
ghost use Rattle.dv_defs.specs.Spelling.{spelling_11n, spelling_21s, spelling_shifted, spelling_21h, spelling_22b, spelling_22s, spelling_31i, spelling_51l};

use crate::fields::{byte, complement, complement_64, fits_signed, four_units, two_units, unit};
use crate::shape::{has_form, one_register, two_registers, with_literal};
use crate::spelled::Spelled;
use dv_defs::Insn;

/// 11n, `BAop`.
pub fn write_11n(insn: &Insn) -> Option<Spelled>
    ensures { result ≡ spelling_11n insn.now }
{
    let [a, ..] = insn.regs.first;
    if !has_form(insn, with_literal(insn.op, one_register(a), insn.lit))
        || a >= 16
        || !fits_signed(insn.lit, 4)
    {
        return None;
    }
    let literal = complement(insn.lit, 4) as u16;
    Some(Spelled::one(unit(byte(literal, a), insn.op.into())))
}

/// 21s, `AAop BBBB`.
pub fn write_21s(insn: &Insn) -> Option<Spelled>
    ensures { result ≡ spelling_21s insn.now }
{
    let [a, ..] = insn.regs.first;
    if !has_form(insn, with_literal(insn.op, one_register(a), insn.lit))
        || a >= 256
        || !fits_signed(insn.lit, 16)
    {
        return None;
    }
    let literal = complement(insn.lit, 16) as u16;
    Some(Spelled::two(unit(a, insn.op.into()), literal))
}

/// 21h, `AAop BBBB`, with the literal in the highest of 32 bits.
fn write_high_16(insn: &Insn) -> Option<Spelled>
    ensures { result ≡ spelling_shifted 16 insn.now }
{
    let [a, ..] = insn.regs.first;
    if !has_form(insn, with_literal(insn.op, one_register(a), insn.lit))
        || a >= 256
        || !fits_signed(insn.lit, 32)
    {
        return None;
    }
    let literal = complement(insn.lit, 32);
    if literal % 0x1_0000 != 0 {
        return None;
    }
    Some(Spelled::two(unit(a, insn.op.into()), (literal / 0x1_0000) as u16))
}

/// 21h, `AAop BBBB`, with the literal in the highest of 64 bits.
fn write_high_48(insn: &Insn) -> Option<Spelled>
    ensures { result ≡ spelling_shifted 48 insn.now }
{
    let [a, ..] = insn.regs.first;
    if !has_form(insn, with_literal(insn.op, one_register(a), insn.lit)) || a >= 256 {
        return None;
    }
    let literal = complement_64(insn.lit);
    if literal % 0x1_0000_0000_0000 != 0 {
        return None;
    }
    Some(Spelled::two(
        unit(a, insn.op.into()),
        (literal / 0x1_0000_0000_0000) as u16,
    ))
}

/// 21h, `AAop BBBB`: const/high16, else const-wide/high16.
pub fn write_21h(insn: &Insn) -> Option<Spelled>
    ensures { result ≡ spelling_21h insn.now }
{
    if insn.op == 0x15 {
        write_high_16(insn)
    } else {
        write_high_48(insn)
    }
}

/// 22b, `AAop CCBB`.
pub fn write_22b(insn: &Insn) -> Option<Spelled>
    ensures { result ≡ spelling_22b insn.now }
{
    let [a, b, ..] = insn.regs.first;
    if !has_form(insn, with_literal(insn.op, two_registers(a, b), insn.lit))
        || a >= 256
        || b >= 256
        || !fits_signed(insn.lit, 8)
    {
        return None;
    }
    let literal = complement(insn.lit, 8) as u16;
    Some(Spelled::two(unit(a, insn.op.into()), unit(literal, b)))
}

/// 22s, `BAop CCCC`.
pub fn write_22s(insn: &Insn) -> Option<Spelled>
    ensures { result ≡ spelling_22s insn.now }
{
    let [a, b, ..] = insn.regs.first;
    if !has_form(insn, with_literal(insn.op, two_registers(a, b), insn.lit))
        || a >= 16
        || b >= 16
        || !fits_signed(insn.lit, 16)
    {
        return None;
    }
    let literal = complement(insn.lit, 16) as u16;
    Some(Spelled::two(unit(byte(b, a), insn.op.into()), literal))
}

/// 31i, `AAop low high`.
pub fn write_31i(insn: &Insn) -> Option<Spelled>
    ensures { result ≡ spelling_31i insn.now }
{
    let [a, ..] = insn.regs.first;
    if !has_form(insn, with_literal(insn.op, one_register(a), insn.lit))
        || a >= 256
        || !fits_signed(insn.lit, 32)
    {
        return None;
    }
    let (low, high) = two_units(complement(insn.lit, 32));
    Some(Spelled::three(unit(a, insn.op.into()), low, high))
}

/// 51l, `AAop` and four units, the lowest first.
pub fn write_51l(insn: &Insn) -> Option<Spelled>
    ensures { result ≡ spelling_51l insn.now }
{
    let [a, ..] = insn.regs.first;
    if !has_form(insn, with_literal(insn.op, one_register(a), insn.lit)) || a >= 256 {
        return None;
    }
    let [first, second, third, fourth] = four_units(complement_64(insn.lit));
    Some(Spelled::five([unit(a, insn.op.into()), first, second, third, fourth]))
}

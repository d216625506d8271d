// Writing an instruction of a format with registers alone.
// In a comment the letters of a unit are nibbles, the highest first.
ghost use Rattle.std.specs.Prelude.{◌≡◌};
ghost use Rattle.dv_defs.specs.Spelling.{spelling_10x, spelling_12x, spelling_11x, spelling_22x, spelling_23x, spelling_32x};

use crate::fields::{byte, unit};
use crate::shape::{has_form, no_registers, one_register, plain, three_registers, two_registers};
use crate::spelled::Spelled;
use dv_defs::Insn;

/// 10x, `00op`.
pub fn write_10x(insn: &Insn) -> Option<Spelled>
    ensures { result ≡ spelling_10x insn.now }
{
    if !has_form(insn, plain(insn.op, no_registers())) {
        return None;
    }
    Some(Spelled::one(unit(0, insn.op.into())))
}

/// 12x, `BAop`.
pub fn write_12x(insn: &Insn) -> Option<Spelled>
    ensures { result ≡ spelling_12x insn.now }
{
    let [a, b, ..] = insn.regs.first;
    if !has_form(insn, plain(insn.op, two_registers(a, b))) || a >= 16 || b >= 16 {
        return None;
    }
    Some(Spelled::one(unit(byte(b, a), insn.op.into())))
}

/// 11x, `AAop`.
pub fn write_11x(insn: &Insn) -> Option<Spelled>
    ensures { result ≡ spelling_11x insn.now }
{
    let [a, ..] = insn.regs.first;
    if !has_form(insn, plain(insn.op, one_register(a))) || a >= 256 {
        return None;
    }
    Some(Spelled::one(unit(a, insn.op.into())))
}

/// 22x, `AAop BBBB`.
pub fn write_22x(insn: &Insn) -> Option<Spelled>
    ensures { result ≡ spelling_22x insn.now }
{
    let [a, b, ..] = insn.regs.first;
    if !has_form(insn, plain(insn.op, two_registers(a, b))) || a >= 256 {
        return None;
    }
    Some(Spelled::two(unit(a, insn.op.into()), b))
}

/// 23x, `AAop CCBB`.
pub fn write_23x(insn: &Insn) -> Option<Spelled>
    ensures { result ≡ spelling_23x insn.now }
{
    let [a, b, c, ..] = insn.regs.first;
    if !has_form(insn, plain(insn.op, three_registers(a, b, c)))
        || a >= 256
        || b >= 256
        || c >= 256
    {
        return None;
    }
    Some(Spelled::two(unit(a, insn.op.into()), unit(c, b)))
}

/// 32x, `00op AAAA BBBB`.
pub fn write_32x(insn: &Insn) -> Option<Spelled>
    ensures { result ≡ spelling_32x insn.now }
{
    let [a, b, ..] = insn.regs.first;
    if !has_form(insn, plain(insn.op, two_registers(a, b))) {
        return None;
    }
    Some(Spelled::three(unit(0, insn.op.into()), a, b))
}

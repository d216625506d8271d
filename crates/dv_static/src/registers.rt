// The registers of an instruction: S11.
ghost use Rattle.std.specs.Prelude.{◌≡◌, ◌<◌, ◌∷◌, [], take};
ghost use Rattle.dv_defs.specs.Op.{named_registers, reg, count_up};
ghost use Rattle.dv_defs.specs.Parts.{is_shift as is_shift_of};
ghost use Rattle.dv_typing.specs.Statics.{registers_below as is_within, wide_binary, wide_in, wide_registers, wide_two};
ghost use Rattle.dv_units.specs.Tables.{standard_bin, standard_family};
ghost use Rattle.dv_static.specs.Registers.{all_below, pairs_below};

use crate::families::family_of;
use dv_defs::{Insn, Regs};
use dv_optable::{Bin, Family, Suffix, Width};

/// Whether each register that an instruction names, and the second of each pair, is below the number of registers.
pub fn registers_below(registers: u16, insn: &Insn) -> bool
    ensures { result ≡ is_within registers insn.now }
{
    are_named_below(registers, &insn.regs) && are_pairs_below(registers, insn)
}

fn are_named_below(registers: u16, regs: &Regs) -> bool
    ensures { result ≡ all_below registers (named_registers regs.now) }
{
    if regs.range {
        is_range_below(registers, regs.first[0], regs.count)
    } else {
        are_first_below(registers, &regs.first, regs.count as usize)
    }
}

/// Whether neighbouring registers are all below.
#[tactic(auto, using(crate::proofs::Ranges::range_is_below, crate::proofs::Ranges::range_is_above))]
fn is_range_below(registers: u16, first: u16, count: u8) -> bool
    ensures { result ≡ all_below registers (count_up first count) }
{
    count == 0 || first as u32 + count as u32 <= registers as u32
}

/// Whether the first of some registers are, so many of them.
fn are_first_below(registers: u16, named: &[u16], count: usize) -> bool
    ensures { result ≡ all_below registers (take count named.now) }
{
    if count < named.len() {
        are_below(registers, &named[..count])
    } else {
        are_below(registers, named)
    }
}

fn are_below(registers: u16, named: &[u16]) -> bool
    ensures { result ≡ all_below registers named.now }
{
    for register in named {
        if *register >= registers {
            return false;
        }
    }
    true
}

/// Whether the second register of each pair is below.
fn are_pairs_below(registers: u16, insn: &Insn) -> bool
    ensures { result ≡ pairs_below registers (wide_in insn.now) }
{
    match family_of(insn.op) {
        Some(family) => are_pairs_of_family_below(registers, family, insn),
        None => true,
    }
}

fn are_pairs_of_family_below(registers: u16, family: Family, insn: &Insn) -> bool
    ensures { result ≡ pairs_below registers (wide_registers (standard_family family) insn.now) }
{
    match family {
        Family::Move(Width::Wide) | Family::LongUnary(_) => are_two_below(registers, insn, 0, 1),
        Family::CmpLong => are_two_below(registers, insn, 1, 2),
        Family::LongBinary(operation) => are_binary_below(registers, operation, insn),
        Family::LongTwo(operation) => are_two_address_below(registers, operation, insn),
        Family::LongToInt => is_pair_below(registers, insn, 1),
        Family::MoveResult(Width::Wide)
        | Family::Return(Width::Wide)
        | Family::ConstWide
        | Family::IntToLong
        | Family::ArrayGet(Suffix::Long)
        | Family::ArrayPut(Suffix::Long)
        | Family::FieldGet(Suffix::Long)
        | Family::FieldPut(Suffix::Long)
        | Family::StaticGet(Suffix::Long)
        | Family::StaticPut(Suffix::Long) => is_pair_below(registers, insn, 0),
        _ => true,
    }
}

/// Two longs and what they give; the distance of a shift is an int.
fn are_binary_below(registers: u16, operation: Bin, insn: &Insn) -> bool
    ensures { result ≡ pairs_below registers (wide_binary (standard_bin operation) insn.now) }
{
    if is_shift(operation) {
        are_two_below(registers, insn, 0, 1)
    } else {
        are_three_below(registers, insn)
    }
}

/// The same of the /2addr form.
fn are_two_address_below(registers: u16, operation: Bin, insn: &Insn) -> bool
    ensures { result ≡ pairs_below registers (wide_two (standard_bin operation) insn.now) }
{
    if is_shift(operation) {
        is_pair_below(registers, insn, 0)
    } else {
        are_two_below(registers, insn, 0, 1)
    }
}

fn is_shift(operation: Bin) -> bool
    ensures { result ≡ is_shift_of (standard_bin operation) }
{
    matches!(operation, Bin::Shl | Bin::Shr | Bin::Ushr)
}

fn are_three_below(registers: u16, insn: &Insn) -> bool
    ensures { result ≡ pairs_below registers (reg insn.now 0 ∷ reg insn.now 1 ∷ reg insn.now 2 ∷ []) }
{
    is_pair_below(registers, insn, 0) && are_two_below(registers, insn, 1, 2)
}

fn are_two_below(registers: u16, insn: &Insn, one: usize, other: usize) -> bool
    requires one { one < 5 }
    requires other { other < 5 }
    ensures { result ≡ pairs_below registers (reg insn.now one ∷ reg insn.now other ∷ []) }
{
    is_pair_below(registers, insn, one) && is_pair_below(registers, insn, other)
}

/// Whether the register after an operand is below.
fn is_pair_below(registers: u16, insn: &Insn, operand: usize) -> bool
    requires { operand < 5 }
    ensures { result ≡ pairs_below registers (reg insn.now operand ∷ []) }
{
    insn.regs.first[operand] as u32 + 1 < registers as u32
}

// What an assembler asks before it writes an instruction.
ghost use Rattle.std.specs.Prelude.{◌≡◌, is_some, option_map};
ghost use Rattle.dv_defs.specs.Families.{family_at, pool_in, pool_at};
ghost use Rattle.dv_defs.specs.Formats.{format_at, has_offset, offset_bits, size_at};
ghost use Rattle.dv_defs.specs.Spelling.{spelling};
ghost use Rattle.dv_units.specs.Tables.{standard_family};

use crate::format::{format_of, table_format, units_of};
use crate::writers::write;
use dv_defs::{Insn, PoolKind};
use dv_optable::{Family, Format, kind_of};

/// The number of units of an instruction with an opcode, 0 where the opcode has no format.
pub fn insn_size(op: u8) -> usize
    ensures { result ≡ size_at op }
{
    match table_format(op) {
        Some(format) => units_of(format),
        None => 0,
    }
}

/// The number of bits of the offset of a branch, a switch or fill-array-data.
pub fn offset_bits(op: u8) -> u32
    ensures { result ≡ offset_bits op }
{
    match table_format(op) {
        Some(Format::F10t) => 8,
        Some(Format::F20t | Format::F21t | Format::F22t) => 16,
        _ => 32,
    }
}

/// Whether the instructions of an opcode have an offset, as branches, switches and fill-array-data do.
pub fn has_offset(op: u8) -> bool
    ensures { result ≡ has_offset (format_at op) }
{
    matches!(
        table_format(op),
        Some(
            Format::F10t | Format::F20t | Format::F21t | Format::F22t | Format::F30t | Format::F31t
        )
    )
}

/// The family of an opcode, none where it is unused or a float's.
#[tactic(auto, using(crate::proofs::Opcodes::families_agree))]
fn family_of(op: u8) -> Option<Family>
    ensures { option_map standard_family result ≡ family_at op }
{
    kind_of(op)
}

fn pool_of_family(family: Option<Family>) -> Option<PoolKind>
    ensures { result ≡ pool_in (option_map standard_family family) }
{
    match family? {
        Family::ConstString => Some(PoolKind::Strings),
        Family::ConstClass
        | Family::CheckCast
        | Family::InstanceOf
        | Family::NewInstance
        | Family::NewArray
        | Family::FilledNewArray => Some(PoolKind::Types),
        Family::FieldGet(_) | Family::FieldPut(_) | Family::StaticGet(_) | Family::StaticPut(_) =>
            Some(PoolKind::Fields),
        Family::Invoke(_) => Some(PoolKind::Methods),
        _ => None,
    }
}

/// The pool of a body in which the index of an opcode's instructions is a place, if they have one.
#[tactic(auto, unfolding(dv_defs::specs::Families::pool_at))]
pub fn pool_of(op: u8) -> Option<PoolKind>
    ensures { result ≡ pool_at op }
{
    pool_of_family(family_of(op))
}

/// Whether an instruction has a spelling. Takes no memory.
pub fn has_spelling(insn: &Insn) -> bool
    ensures { result ≡ is_some (spelling insn.now) }
{
    match format_of(insn.op) {
        Ok(format) => write(format, insn).is_some(),
        Err(_) => false,
    }
}

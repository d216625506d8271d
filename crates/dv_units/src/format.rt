// Opcodes and their formats.
ghost use Rattle.std.specs.Prelude.{◌≡◌, ◌↔◌, IsTrue, IsOk, IfOk, Some, option_map};
ghost use Rattle.dv_defs.specs.Formats.{format_at, is_float, is_unused, size_in};
ghost use Rattle.dv_units.specs.Tables.{has_format, standard};

use crate::UnitError;
use dv_optable::{Format, is_float, row_of};

/// The number of units of an instruction of a format.
pub fn units_of(format: Format) -> usize
    ensures { result ≡ size_in (standard format) }
{
    match format {
        Format::F10x | Format::F12x | Format::F11n | Format::F11x | Format::F10t => 1,
        Format::F20t
        | Format::F22x
        | Format::F21t
        | Format::F21s
        | Format::F21h
        | Format::F21c
        | Format::F23x
        | Format::F22b
        | Format::F22t
        | Format::F22s
        | Format::F22c => 2,
        Format::F30t
        | Format::F32x
        | Format::F31i
        | Format::F31t
        | Format::F31c
        | Format::F35c
        | Format::F3rc => 3,
        Format::F51l => 5,
    }
}

/// The format of an opcode, none where it is unused or a float's.
pub fn table_format(op: u8) -> Option<Format>
    ensures { option_map standard result ≡ format_at op }
{
    match row_of(op) {
        Some(row) => Some(row.format),
        None => None,
    }
}

fn is_float_opcode(op: u8) -> bool
    ensures { result ≡ is_float op }
{
    is_float(op)
}

/// The format of an opcode.
#[tactic(auto, using(crate::proofs::Opcodes::opcode_kinds))]
pub fn format_of(op: u8) -> Result<Format, UnitError>
    ensures format { IfOk result (λ f. format_at op ≡ Some (standard f)) }
    ensures known { IsOk result ↔ IsTrue (has_format op) }
    ensures unused { (result ≡ Err (UnitError.Unused op)) ↔ IsTrue (is_unused op) }
    ensures float { (result ≡ Err (UnitError.Float op)) ↔ IsTrue (is_float op) }
{
    match table_format(op) {
        Some(format) => Ok(format),
        None if is_float_opcode(op) => Err(UnitError::Float(op)),
        None => Err(UnitError::Unused(op)),
    }
}

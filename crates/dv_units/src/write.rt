ghost use Rattle.std.specs.Prelude.{◌≡◌, ◌↔◌, ◌++◌, length, None, IfOk, OnErr, IsSome, IsSomeAnd, IsTrue, IsOkUnless};
ghost use Rattle.dv_defs.specs.Formats.{is_unused, is_float};
ghost use Rattle.dv_defs.specs.Spelling.{spelling};
ghost use Rattle.dv_units.specs.Tables.{has_format};

use crate::UnitError;
use crate::format::format_of;
use crate::writers::write;
use dv_defs::Insn;

/// Appends the units of an instruction to `out`, and gives their number.
///
/// # Errors
///
/// By its opcode `Unused` or `Float`; then `OperandRange` where the instruction has no spelling.
#[tactic(auto, using(crate::proofs::Opcodes::opcode_kinds))]
pub fn encode(insn: &Insn, out: &mut Vec<u16>) -> Result<u32, UnitError>
    ensures written { IfOk result (λ n. IsSomeAnd (spelling insn.now) (λ us. (out.new.items ≡ out.old.items ++ us) × (n ≡ length us))) }
    ensures unchanged { OnErr result (out.new.items ≡ out.old.items) }

    ensures unused { (result ≡ Err (UnitError.Unused insn.now.op)) ↔ IsTrue (is_unused insn.now.op) }
    ensures float { (result ≡ Err (UnitError.Float insn.now.op)) ↔ IsTrue (is_float insn.now.op) }
    ensures operand_range { (result ≡ Err UnitError.OperandRange) ↔ (IsTrue (has_format insn.now.op) × (spelling insn.now ≡ None)) }
    ensures only_memory { IsSome (spelling insn.now) → IsOkUnless result UnitError.Memory }
{
    let format = format_of(insn.op)?;
    let spelled = write(format, insn).ok_or(UnitError::OperandRange)?;
    let units = spelled.as_slice();
    out.extend_from_slice(units)?;
    Ok(units.len() as u32)
}

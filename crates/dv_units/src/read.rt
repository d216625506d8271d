ghost use Rattle.std.specs.Prelude.{◌≡◌, ◌↔◌, ℕ, ◌-◌, ◌<◌, ◌≤◌, List, length, take, drop, Some, None, MatchOption, IfOk, OnErr, IsTrue};
ghost use Rattle.dv_defs.specs.declared.code.Insn.{Insn};
ghost use Rattle.dv_defs.specs.Formats.{size_in, format_at, size_at, is_unused, is_float};
ghost use Rattle.dv_defs.specs.Spelling.{spelling};
ghost use Rattle.dv_defs.specs.Decoding.{insn_here};
ghost use Rattle.dv_units.specs.Tables.{standard, has_format};
ghost use Rattle.dv_units.specs.Reading.{opcode_at, StandAt, NoneStandsAt};

use crate::UnitError;
use crate::fields::bytes;
use crate::format::{format_of, units_of};
use crate::readers::read;
use dv_defs::Insn;
use dv_optable::Format;

/// The instruction that stands at `at`, of the format of its opcode.
fn read_at(format: Format, units: &[u16], at: usize) -> Option<Insn>
    requires inside { at < length units.now }
    requires whole { size_in (standard format) ≤ length units.now - at }
    requires opcode { format_at (opcode_at units.now at) ≡ Some (standard format) }
    ensures { MatchOption result (NoneStandsAt units.now at)
        (λ i. spelling i ≡ Some (take (size_in (standard format)) (drop at units.now))) }
{
    let (_, rest) = units.split_at(at);
    read(format, rest)
}

/// Reads the instruction at `at`, and gives its size in units.
///
/// # Errors
///
/// By its opcode `Unused` or `Float`; then `Cut` where the units end inside it, and `OperandRange` where
/// no instruction's spelling stands there.
#[tactic(auto, using(crate::proofs::Opcodes::opcode_kinds))]
pub fn decode(units: &[u16], at: usize) -> Result<(Insn, u32), UnitError>
    requires { at < length units.now }
    ensures read { IfOk result (λ r. spelling r.0 ≡ Some (take r.1 (drop at units.now))) }
    ensures size { IfOk result (λ r. r.1 ≡ size_at (opcode_at units.now at)) }
    ensures few { IfOk result (λ r. (0 < r.1) × (r.1 ≤ 5)) }

    // Each instruction that is spelled there is read.
    ensures every { (insn : Insn) (us : List ℕ) → spelling insn ≡ Some us → StandAt us units.now at →
        result ≡ Ok (insn, length us) }

    // The same, as the definition that computes the instruction which stands there.
    ensures here { IfOk result (λ r. insn_here (drop at units.now) ≡ Some (record { insn = r.0; size = r.1 })) }
    ensures none_here { OnErr result (insn_here (drop at units.now) ≡ None) }

    ensures unused { let op = opcode_at units.now at in (result ≡ Err (UnitError.Unused op)) ↔ IsTrue (is_unused op) }
    ensures float { let op = opcode_at units.now at in (result ≡ Err (UnitError.Float op)) ↔ IsTrue (is_float op) }
    ensures cut { let op = opcode_at units.now at in
        (result ≡ Err UnitError.Cut) ↔ (IsTrue (has_format op) × (length units.now - at < size_at op)) }
    ensures operand_range { let op = opcode_at units.now at in
        (result ≡ Err UnitError.OperandRange) ↔
        (IsTrue (has_format op) × (size_at op ≤ length units.now - at) × NoneStandsAt units.now at) }
{
    let (_, op) = bytes(units[at]);
    let format = format_of(op)?;
    let size = units_of(format);
    if units.len() - at < size {
        return Err(UnitError::Cut);
    }
    let insn = read_at(format, units, at).ok_or(UnitError::OperandRange)?;
    Ok((insn, size as u32))
}

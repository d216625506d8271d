// The laws of spelling, reading and writing.
ghost use Rattle.std.specs.Prelude.{◌≡◌, ℕ, ◌<◌, ◌++◌, List, length, take, drop, Some, IfOk, IsSome, IsOkUnless};
ghost use Rattle.dv_defs.specs.declared.code.Insn.{Insn};
ghost use Rattle.dv_defs.specs.Spelling.{spelling};
ghost use Rattle.dv_defs.specs.Formats.{size_at};
ghost use Rattle.dv_units.specs.Tables.{FormatsAgree, FamiliesAgree, FloatsAgree, ThrowsAgree, LocalsAgree};
ghost use Rattle.dv_units.specs.Laws.{SpellingsAreApart, ItemsAreApart, InsnHereIsSpelled, PayloadHereIsSpelled, TilingIsUnique, TilingIsFound};
ghost use Rattle.dv_units.specs.Reading.{StandAt, opcode_at};

use crate::UnitError;
use crate::read::decode;
use crate::write::encode;
use dv_defs::Insn;

/// The table of opcodes gives each opcode the format and the family that the definitions give it, and the same
/// opcodes to floats; and what a row says, that an instruction can throw and that it is local, is what the
/// definitions say of its operation.
pub fn tables_agree()
    ensures formats { FormatsAgree }
    ensures families { FamiliesAgree }
    ensures floats { FloatsAgree }
    ensures throws { ThrowsAgree }
    ensures locals { LocalsAgree }
{}

/// An instruction is determined by its spelling, and no spelling begins another.
pub fn spellings_are_apart()
    ensures { SpellingsAreApart }
{}

/// No spelling of an instruction or a payload begins that of another.
pub fn items_are_apart()
    ensures { ItemsAreApart }
{}

/// What the definitions compute from units is what is spelled there.
pub fn units_spell_items()
    ensures insns { InsnHereIsSpelled }
    ensures payloads { PayloadHereIsSpelled }
{}

/// Units have one tiling at most, which the definition `tiling` computes.
pub fn tiling_is_unique()
    ensures unique { TilingIsUnique }
    ensures found { TilingIsFound }
{}

/// Reads again what `encode` appends to `out`: the instruction itself.
pub fn decode_of_encode(insn: &Insn, out: &mut Vec<u16>) -> Result<(Insn, u32), UnitError>
    ensures same { IfOk result (λ r. r.0 ≡ insn.now) }
    ensures size { IfOk result (λ r. r.1 ≡ size_at insn.now.op) }
    ensures only_memory { IsSome (spelling insn.now) → IsOkUnless result UnitError.Memory }
{
    let at = out.len();
    encode(insn, out)?;
    decode(out, at)
}

/// Writes again what `decode` reads at `at`: the units that stand there.
pub fn encode_of_decode(units: &[u16], at: usize, out: &mut Vec<u16>) -> Result<u32, UnitError>
    requires { at < length units.now }
    ensures same { IfOk result (λ n. out.new.items ≡ out.old.items ++ take n (drop at units.now)) }
    ensures size { IfOk result (λ n. n ≡ size_at (opcode_at units.now at)) }
    ensures only_memory { (insn : Insn) (us : List ℕ) → spelling insn ≡ Some us → StandAt us units.now at →
        IsOkUnless result UnitError.Memory }
{
    let (insn, _) = decode(units, at)?;
    encode(&insn, out)
}

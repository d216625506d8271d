// The family of an opcode as the definitions have it.
ghost use Rattle.std.specs.Prelude.{◌≡◌, option_map};
ghost use Rattle.dv_defs.specs.Families.{family_at};
ghost use Rattle.dv_units.specs.Tables.{standard_family};

use dv_optable::{Family, kind_of};

/// The family of an opcode; none where it is unused or a float's.
#[tactic(auto, using(dv_units::proofs::Opcodes::families_agree))]
pub fn family_of(op: u8) -> Option<Family>
    ensures { option_map standard_family result ≡ family_at op }
{
    kind_of(op)
}

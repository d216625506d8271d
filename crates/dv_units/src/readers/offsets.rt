// Reading an instruction of a format with an offset.
// In a comment the letters of a unit are nibbles, the highest first.
#![tactic(auto, using(dv_defs::proofs::InsnEq::form_tests))]

ghost use Rattle.std.specs.Prelude.{◌≡◌, [], ◌∷◌, Some};
ghost use Rattle.dv_defs.specs.Spelling.{unit, spelling_10t, spelling_20t, spelling_21t, spelling_22t, spelling_30t, spelling_31t};
ghost use Rattle.dv_units.specs.Reading.{IsReading};

use crate::fields::{nibbles, of_two_units, signed_offset};
use crate::shape::{no_registers, one_register, two_registers, with_offset};
use dv_defs::Insn;

/// 10t, `AAop`.
pub fn read_10t(op: u8, high: u8) -> Insn
    ensures { spelling_10t result ≡ Some (unit high op ∷ []) }
{
    with_offset(op, no_registers(), signed_offset(high.into(), 8))
}

/// 20t, `00op AAAA`.
pub fn read_20t(op: u8, high: u8, offset: u16) -> Option<Insn>
    ensures { IsReading spelling_20t (unit high op ∷ offset ∷ []) result }
{
    if high == 0 {
        Some(with_offset(op, no_registers(), signed_offset(offset.into(), 16)))
    } else {
        None
    }
}

/// 21t, `AAop BBBB`.
pub fn read_21t(op: u8, high: u8, offset: u16) -> Insn
    ensures { spelling_21t result ≡ Some (unit high op ∷ offset ∷ []) }
{
    with_offset(
        op,
        one_register(high.into()),
        signed_offset(offset.into(), 16),
    )
}

/// 22t, `BAop CCCC`.
pub fn read_22t(op: u8, high: u8, offset: u16) -> Insn
    ensures { spelling_22t result ≡ Some (unit high op ∷ offset ∷ []) }
{
    let (b, a) = nibbles(high);
    with_offset(op, two_registers(a, b), signed_offset(offset.into(), 16))
}

/// 30t, `00op low high`.
pub fn read_30t(op: u8, high: u8, offset: (u16, u16)) -> Option<Insn>
    ensures { IsReading spelling_30t (unit high op ∷ offset.0 ∷ offset.1 ∷ []) result }
{
    if high == 0 {
        let offset = of_two_units(offset.0, offset.1);
        Some(with_offset(op, no_registers(), signed_offset(offset, 32)))
    } else {
        None
    }
}

/// 31t, `AAop low high`.
pub fn read_31t(op: u8, high: u8, offset: (u16, u16)) -> Insn
    ensures { spelling_31t result ≡ Some (unit high op ∷ offset.0 ∷ offset.1 ∷ []) }
{
    let offset = of_two_units(offset.0, offset.1);
    with_offset(op, one_register(high.into()), signed_offset(offset, 32))
}

// Reading an instruction of a format with registers alone.
// In a comment the letters of a unit are nibbles, the highest first.
#![tactic(auto, using(dv_defs::proofs::InsnEq::form_tests))]

ghost use Rattle.std.specs.Prelude.{◌≡◌, [], ◌∷◌, Some};
ghost use Rattle.dv_defs.specs.Spelling.{unit, spelling_10x, spelling_12x, spelling_11x, spelling_22x, spelling_23x, spelling_32x};
ghost use Rattle.dv_units.specs.Reading.{IsReading};

use crate::fields::{bytes, nibbles};
use crate::shape::{no_registers, one_register, plain, three_registers, two_registers};
use dv_defs::Insn;

/// 10x, `00op`.
pub fn read_10x(op: u8, high: u8) -> Option<Insn>
    ensures { IsReading spelling_10x (unit high op ∷ []) result }
{
    if high == 0 {
        Some(plain(op, no_registers()))
    } else {
        None
    }
}

/// 12x, `BAop`.
pub fn read_12x(op: u8, high: u8) -> Insn
    ensures { spelling_12x result ≡ Some (unit high op ∷ []) }
{
    let (b, a) = nibbles(high);
    plain(op, two_registers(a, b))
}

/// 11x, `AAop`.
pub fn read_11x(op: u8, high: u8) -> Insn
    ensures { spelling_11x result ≡ Some (unit high op ∷ []) }
{
    plain(op, one_register(high.into()))
}

/// 22x, `AAop BBBB`.
pub fn read_22x(op: u8, high: u8, source: u16) -> Insn
    ensures { spelling_22x result ≡ Some (unit high op ∷ source ∷ []) }
{
    plain(op, two_registers(high.into(), source))
}

/// 23x, `AAop CCBB`.
pub fn read_23x(op: u8, high: u8, sources: u16) -> Insn
    ensures { spelling_23x result ≡ Some (unit high op ∷ sources ∷ []) }
{
    let (c, b) = bytes(sources);
    plain(op, three_registers(high.into(), b.into(), c.into()))
}

/// 32x, `00op AAAA BBBB`.
pub fn read_32x(op: u8, high: u8, target: u16, source: u16) -> Option<Insn>
    ensures { IsReading spelling_32x (unit high op ∷ target ∷ source ∷ []) result }
{
    if high != 0 {
        return None;
    }
    Some(plain(op, two_registers(target, source)))
}

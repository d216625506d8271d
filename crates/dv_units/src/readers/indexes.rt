// Reading an instruction of a format with an index.
// In a comment the letters of a unit are nibbles, the highest first.
#![tactic(auto, using(dv_defs::proofs::InsnEq::form_tests))]

ghost use Rattle.std.specs.Prelude.{◌≡◌, ◌/◌, ◌%◌, [], ◌∷◌, Some};
ghost use Rattle.dv_defs.specs.Spelling.{unit, spelling_21c, spelling_22c, spelling_31c, spelling_35c, spelling_3rc};
ghost use Rattle.dv_units.specs.Reading.{IsReading};

use crate::fields::{are_zero_from, bytes, nibbles, of_two_units};
use crate::shape::{neighbours, one_register, two_registers, with_index};
use dv_defs::{Insn, Regs};

/// 21c, `AAop BBBB`.
pub fn read_21c(op: u8, high: u8, index: u16) -> Insn
    ensures { spelling_21c result ≡ Some (unit high op ∷ index ∷ []) }
{
    with_index(op, one_register(high.into()), index.into())
}

/// 22c, `BAop CCCC`.
pub fn read_22c(op: u8, high: u8, index: u16) -> Insn
    ensures { spelling_22c result ≡ Some (unit high op ∷ index ∷ []) }
{
    let (b, a) = nibbles(high);
    with_index(op, two_registers(a, b), index.into())
}

/// 31c, `AAop low high`.
pub fn read_31c(op: u8, high: u8, index: (u16, u16)) -> Insn
    ensures { spelling_31c result ≡ Some (unit high op ∷ index.0 ∷ index.1 ∷ []) }
{
    with_index(
        op,
        one_register(high.into()),
        of_two_units(index.0, index.1),
    )
}

/// The words vC, vD, vE, vF and vG of 35c, from its parts `G` and `FEDC`.
fn five_words(g: u16, words: u16) -> [u16; 5]
    ensures { result ≡ words % 256 % 16 ∷ words % 256 / 16 ∷ words / 256 % 16 ∷ words / 256 / 16 ∷ g ∷ [] }
{
    let (high, low) = bytes(words);
    let (f, e) = nibbles(high);
    let (d, c) = nibbles(low);
    [c, d, e, f, g]
}

/// 35c, `AGop BBBB FEDC`.
pub fn read_35c(op: u8, high: u8, index: u16, words: u16) -> Option<Insn>
    ensures { IsReading spelling_35c (unit high op ∷ index ∷ words ∷ []) result }
{
    let count = high / 16;
    let first = five_words(u16::from(high % 16), words);
    if count > 5 || !are_zero_from(&first, count) {
        return None;
    }
    let regs = Regs {
        count,
        first,
        range: false,
    };
    Some(with_index(op, regs, index.into()))
}

/// 3rc, `AAop BBBB CCCC`.
pub fn read_3rc(op: u8, high: u8, index: u16, first: u16) -> Option<Insn>
    ensures { IsReading spelling_3rc (unit high op ∷ index ∷ first ∷ []) result }
{
    if high == 0 && first != 0 {
        return None;
    }
    Some(with_index(op, neighbours(first, high), index.into()))
}

// Reading an instruction of a format with a literal.
// In a comment the letters of a unit are nibbles, the highest first.
#![tactic(auto, using(dv_defs::proofs::InsnEq::form_tests))]

ghost use Rattle.std.specs.Prelude.{◌≡◌, [], ◌∷◌, Some};
ghost use Rattle.dv_defs.specs.Spelling.{unit, spelling_11n, spelling_21s, spelling_shifted, spelling_21h, spelling_22b, spelling_22s, spelling_31i, spelling_51l};

use crate::fields::{bytes, nibbles, of_four_units, of_two_units, signed, signed_64};
use crate::shape::{one_register, two_registers, with_literal};
use dv_defs::Insn;

/// 11n, `BAop`.
pub fn read_11n(op: u8, high: u8) -> Insn
    ensures { spelling_11n result ≡ Some (unit high op ∷ []) }
{
    let (b, a) = nibbles(high);
    with_literal(op, one_register(a), signed(b.into(), 4))
}

/// 21s, `AAop BBBB`.
pub fn read_21s(op: u8, high: u8, literal: u16) -> Insn
    ensures { spelling_21s result ≡ Some (unit high op ∷ literal ∷ []) }
{
    with_literal(op, one_register(high.into()), signed(literal.into(), 16))
}

/// 21h, `AAop BBBB`, with the literal in the highest of 32 bits.
fn read_high_16(op: u8, high: u8, literal: u16) -> Insn
    ensures spelling { spelling_shifted 16 result ≡ Some (unit high op ∷ literal ∷ []) }
    ensures opcode { result.op ≡ op }
{
    let literal = signed(u32::from(literal) * 0x1_0000, 32);
    with_literal(op, one_register(high.into()), literal)
}

/// 21h, `AAop BBBB`, with the literal in the highest of 64 bits.
fn read_high_48(op: u8, high: u8, literal: u16) -> Insn
    ensures spelling { spelling_shifted 48 result ≡ Some (unit high op ∷ literal ∷ []) }
    ensures opcode { result.op ≡ op }
{
    let literal = signed_64(u64::from(literal) * 0x1_0000_0000_0000);
    with_literal(op, one_register(high.into()), literal)
}

/// 21h, `AAop BBBB`: const/high16, else const-wide/high16.
pub fn read_21h(op: u8, high: u8, literal: u16) -> Insn
    ensures { spelling_21h result ≡ Some (unit high op ∷ literal ∷ []) }
{
    if op == 0x15 {
        read_high_16(op, high, literal)
    } else {
        read_high_48(op, high, literal)
    }
}

/// 22b, `AAop CCBB`.
pub fn read_22b(op: u8, high: u8, operands: u16) -> Insn
    ensures { spelling_22b result ≡ Some (unit high op ∷ operands ∷ []) }
{
    let (c, b) = bytes(operands);
    with_literal(
        op,
        two_registers(high.into(), b.into()),
        signed(c.into(), 8),
    )
}

/// 22s, `BAop CCCC`.
pub fn read_22s(op: u8, high: u8, literal: u16) -> Insn
    ensures { spelling_22s result ≡ Some (unit high op ∷ literal ∷ []) }
{
    let (b, a) = nibbles(high);
    with_literal(op, two_registers(a, b), signed(literal.into(), 16))
}

/// 31i, `AAop low high`.
pub fn read_31i(op: u8, high: u8, literal: (u16, u16)) -> Insn
    ensures { spelling_31i result ≡ Some (unit high op ∷ literal.0 ∷ literal.1 ∷ []) }
{
    let literal = of_two_units(literal.0, literal.1);
    with_literal(op, one_register(high.into()), signed(literal, 32))
}

/// 51l, `AAop` and four units, the lowest first.
pub fn read_51l(op: u8, high: u8, a: u16, b: u16, c: u16, d: u16) -> Insn
    ensures { spelling_51l result ≡ Some (unit high op ∷ a ∷ b ∷ c ∷ d ∷ []) }
{
    with_literal(
        op,
        one_register(high.into()),
        signed_64(of_four_units(a, b, c, d)),
    )
}

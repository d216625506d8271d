// Arithmetic, as their formats spell them: in `BAop` and the like the letters of a unit are nibbles, the highest first.
ghost use Rattle.std.specs.Prelude.{◌≡◌, ◌%◌, ◌^◌, ◌<◌, Some, false, true};
ghost use Rattle.dv_defs.specs.Families as family;
ghost use Rattle.dv_defs.specs.Families.{family_at};
ghost use Rattle.dv_defs.specs.Formats.{F12x, F22b, F22s, F23x, format_at};
ghost use Rattle.dv_defs.specs.Parts.{Neg, Not, is_division, is_shift};
ghost use Rattle.dv_frames.specs.Heads.{frame};
ghost use Rattle.dv_local.specs.Spelled.{Did};
ghost use Rattle.dv_units.specs.Tables.{standard_bin, standard_unary};

use crate::arithmetic::{
    binary_ints, binary_longs, compared_longs, complemented_long, int_to_long, literal_int,
    long_to_int, negated_long, shifted_long, unary_int,
};
use crate::here::Here;
use crate::numbers::{signed_byte, signed_unit};
use dv_frames::Head;
use dv_optable::{Bin, Unary};

/// `BAop`: neg-int, not-int, int-to-byte, int-to-char, int-to-short vA, vB.
#[inline(always)]
pub fn int_12x(opcode: u8, operation: Unary, here: &Here<'_>, words: &mut [u32], head: &mut Head)
    requires opcode { here.now.first % 256 ≡ opcode }
    requires format { format_at opcode ≡ Some F12x }
    requires family { family_at opcode ≡ Some (family.IntUnary (standard_unary operation)) }
    requires short { here.now.at < 2 ^ 16 }
    ensures { Did here.now (frame head.old words.old) (frame head.new words.new) }
{
    let (a, b) = (here.low_nibble(), here.high_nibble());
    unary_int(operation, a, b, here.after(1), words, head);
}

/// `BAop`: neg-long vA, vB.
#[inline(always)]
pub fn negate_long_12x(opcode: u8, here: &Here<'_>, words: &mut [u32], head: &mut Head)
    requires opcode { here.now.first % 256 ≡ opcode }
    requires format { format_at opcode ≡ Some F12x }
    requires family { family_at opcode ≡ Some (family.LongUnary Neg) }
    requires short { here.now.at < 2 ^ 16 }
    ensures { Did here.now (frame head.old words.old) (frame head.new words.new) }
{
    let (a, b) = (here.low_nibble(), here.high_nibble());
    negated_long(a, b, here.after(1), words, head);
}

/// `BAop`: not-long vA, vB.
#[inline(always)]
pub fn complement_long_12x(opcode: u8, here: &Here<'_>, words: &mut [u32], head: &mut Head)
    requires opcode { here.now.first % 256 ≡ opcode }
    requires format { format_at opcode ≡ Some F12x }
    requires family { family_at opcode ≡ Some (family.LongUnary Not) }
    requires short { here.now.at < 2 ^ 16 }
    ensures { Did here.now (frame head.old words.old) (frame head.new words.new) }
{
    let (a, b) = (here.low_nibble(), here.high_nibble());
    complemented_long(a, b, here.after(1), words, head);
}

/// `BAop`: int-to-long vA, vB.
#[inline(always)]
pub fn int_to_long_12x(opcode: u8, here: &Here<'_>, words: &mut [u32], head: &mut Head)
    requires opcode { here.now.first % 256 ≡ opcode }
    requires format { format_at opcode ≡ Some F12x }
    requires family { family_at opcode ≡ Some family.IntToLong }
    requires short { here.now.at < 2 ^ 16 }
    ensures { Did here.now (frame head.old words.old) (frame head.new words.new) }
{
    let (a, b) = (here.low_nibble(), here.high_nibble());
    int_to_long(a, b, here.after(1), words, head);
}

/// `BAop`: long-to-int vA, vB.
#[inline(always)]
pub fn long_to_int_12x(opcode: u8, here: &Here<'_>, words: &mut [u32], head: &mut Head)
    requires opcode { here.now.first % 256 ≡ opcode }
    requires format { format_at opcode ≡ Some F12x }
    requires family { family_at opcode ≡ Some family.LongToInt }
    requires short { here.now.at < 2 ^ 16 }
    ensures { Did here.now (frame head.old words.old) (frame head.new words.new) }
{
    let (a, b) = (here.low_nibble(), here.high_nibble());
    long_to_int(a, b, here.after(1), words, head);
}

/// `AAop CCBB`: cmp-long vAA, vBB, vCC.
#[inline(always)]
pub fn compare_23x(opcode: u8, here: &Here<'_>, words: &mut [u32], head: &mut Head)
    requires opcode { here.now.first % 256 ≡ opcode }
    requires format { format_at opcode ≡ Some F23x }
    requires family { family_at opcode ≡ Some family.CmpLong }
    requires short { here.now.at < 2 ^ 16 }
    ensures { Did here.now (frame head.old words.old) (frame head.new words.new) }
{
    let (a, operands) = (here.high(), here.unit(0));
    compared_longs(
        a,
        operands % 256,
        operands / 256,
        here.after(2),
        words,
        head,
    );
}

/// `AAop CCBB`: an operation on ints, vAA, vBB, vCC.
#[inline(always)]
pub fn ints_23x(opcode: u8, operation: Bin, here: &Here<'_>, words: &mut [u32], head: &mut Head)
    requires opcode { here.now.first % 256 ≡ opcode }
    requires format { format_at opcode ≡ Some F23x }
    requires family { family_at opcode ≡ Some (family.IntBinary (standard_bin operation)) }
    requires whole { is_division (standard_bin operation) ≡ false }
    requires short { here.now.at < 2 ^ 16 }
    ensures { Did here.now (frame head.old words.old) (frame head.new words.new) }
{
    let (a, operands) = (here.high(), here.unit(0));
    let (b, c) = (operands % 256, operands / 256);
    binary_ints(operation, a, b, c, here.after(2), words, head);
}

/// `BAop`: an operation on ints, vA, vB.
#[inline(always)]
pub fn ints_12x(opcode: u8, operation: Bin, here: &Here<'_>, words: &mut [u32], head: &mut Head)
    requires opcode { here.now.first % 256 ≡ opcode }
    requires format { format_at opcode ≡ Some F12x }
    requires family { family_at opcode ≡ Some (family.IntTwo (standard_bin operation)) }
    requires whole { is_division (standard_bin operation) ≡ false }
    requires short { here.now.at < 2 ^ 16 }
    ensures { Did here.now (frame head.old words.old) (frame head.new words.new) }
{
    let (a, b) = (here.low_nibble(), here.high_nibble());
    binary_ints(operation, a, a, b, here.after(1), words, head);
}

/// `BAop CCCC`: an operation on ints, vA, vB, #CCCC.
#[inline(always)]
pub fn ints_22s(opcode: u8, operation: Bin, here: &Here<'_>, words: &mut [u32], head: &mut Head)
    requires opcode { here.now.first % 256 ≡ opcode }
    requires format { format_at opcode ≡ Some F22s }
    requires family { family_at opcode ≡ Some (family.IntLiteral (standard_bin operation)) }
    requires whole { is_division (standard_bin operation) ≡ false }
    requires short { here.now.at < 2 ^ 16 }
    ensures { Did here.now (frame head.old words.old) (frame head.new words.new) }
{
    let (a, b) = (here.low_nibble(), here.high_nibble());
    let literal = signed_unit(here.unit(0));
    literal_int(operation, a, b, literal, here.after(2), words, head);
}

/// `AAop CCBB`: an operation on ints, vAA, vBB, #CC.
#[inline(always)]
pub fn ints_22b(opcode: u8, operation: Bin, here: &Here<'_>, words: &mut [u32], head: &mut Head)
    requires opcode { here.now.first % 256 ≡ opcode }
    requires format { format_at opcode ≡ Some F22b }
    requires family { family_at opcode ≡ Some (family.IntLiteral (standard_bin operation)) }
    requires whole { is_division (standard_bin operation) ≡ false }
    requires short { here.now.at < 2 ^ 16 }
    ensures { Did here.now (frame head.old words.old) (frame head.new words.new) }
{
    let (a, operands) = (here.high(), here.unit(0));
    let (b, literal) = (operands % 256, signed_byte(operands / 256));
    literal_int(operation, a, b, literal, here.after(2), words, head);
}

/// `AAop CCBB`: an operation on longs, vAA, vBB, vCC.
#[inline(always)]
pub fn longs_23x(opcode: u8, operation: Bin, here: &Here<'_>, words: &mut [u32], head: &mut Head)
    requires opcode { here.now.first % 256 ≡ opcode }
    requires format { format_at opcode ≡ Some F23x }
    requires family { family_at opcode ≡ Some (family.LongBinary (standard_bin operation)) }
    requires whole { is_division (standard_bin operation) ≡ false }
    requires unshifted { is_shift (standard_bin operation) ≡ false }
    requires short { here.now.at < 2 ^ 16 }
    ensures { Did here.now (frame head.old words.old) (frame head.new words.new) }
{
    let (a, operands) = (here.high(), here.unit(0));
    let (b, c) = (operands % 256, operands / 256);
    binary_longs(operation, a, b, c, here.after(2), words, head);
}

/// `BAop`: an operation on longs, vA, vB.
#[inline(always)]
pub fn longs_12x(opcode: u8, operation: Bin, here: &Here<'_>, words: &mut [u32], head: &mut Head)
    requires opcode { here.now.first % 256 ≡ opcode }
    requires format { format_at opcode ≡ Some F12x }
    requires family { family_at opcode ≡ Some (family.LongTwo (standard_bin operation)) }
    requires whole { is_division (standard_bin operation) ≡ false }
    requires unshifted { is_shift (standard_bin operation) ≡ false }
    requires short { here.now.at < 2 ^ 16 }
    ensures { Did here.now (frame head.old words.old) (frame head.new words.new) }
{
    let (a, b) = (here.low_nibble(), here.high_nibble());
    binary_longs(operation, a, a, b, here.after(1), words, head);
}

/// `AAop CCBB`: a shift of a long, vAA, vBB, vCC.
#[inline(always)]
pub fn shift_23x(opcode: u8, operation: Bin, here: &Here<'_>, words: &mut [u32], head: &mut Head)
    requires opcode { here.now.first % 256 ≡ opcode }
    requires format { format_at opcode ≡ Some F23x }
    requires family { family_at opcode ≡ Some (family.LongBinary (standard_bin operation)) }
    requires shift { is_shift (standard_bin operation) ≡ true }
    requires short { here.now.at < 2 ^ 16 }
    ensures { Did here.now (frame head.old words.old) (frame head.new words.new) }
{
    let (a, operands) = (here.high(), here.unit(0));
    let (b, c) = (operands % 256, operands / 256);
    shifted_long(operation, a, b, c, here.after(2), words, head);
}

/// `BAop`: a shift of a long, vA, vB.
#[inline(always)]
pub fn shift_12x(opcode: u8, operation: Bin, here: &Here<'_>, words: &mut [u32], head: &mut Head)
    requires opcode { here.now.first % 256 ≡ opcode }
    requires format { format_at opcode ≡ Some F12x }
    requires family { family_at opcode ≡ Some (family.LongTwo (standard_bin operation)) }
    requires shift { is_shift (standard_bin operation) ≡ true }
    requires short { here.now.at < 2 ^ 16 }
    ensures { Did here.now (frame head.old words.old) (frame head.new words.new) }
{
    let (a, b) = (here.low_nibble(), here.high_nibble());
    shifted_long(operation, a, a, b, here.after(1), words, head);
}

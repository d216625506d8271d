// Numbers of units, of words, and of pairs of words.
ghost use Rattle.std.specs.Prelude.{◌≡◌, ◌+◌, ◌*◌, ◌^◌, ◌<◌, false, true};
ghost use Rattle.dv_defs.specs.Numbers.{compare, hi_of, jump, lo_of, long_of, operate32, operate64, signed_at, unary_at};
ghost use Rattle.std.specs.Int.{w32, w64};
ghost use Rattle.dv_defs.specs.Parts.{Neg, Not, is_division, is_shift};
ghost use Rattle.dv_units.specs.Tables.{standard_bin, standard_test, standard_unary};

use dv_num::{shl_i32, shl_i64, shr_i32, shr_i64, to_byte, to_char, to_short, ushr_i32, ushr_i64};
use dv_optable::{Bin, Test, Unary};

/// An address that no instruction has: a body has at most 16,384 units.
const NOWHERE: u32 = 65536;

/// The address at a distance from another.
#[inline(always)]
pub fn jump(at: u32, off: i32) -> u32
    requires { at < 2 ^ 16 }
    ensures { result ≡ jump at off }
{
    let to = i64::from(at) + i64::from(off);
    if to < 0 { NOWHERE } else { to as u32 }
}

/// A number of 32 bits of two units.
#[inline(always)]
pub fn double(low: u16, high: u16) -> u32
    ensures { result ≡ low + high * 2 ^ 16 }
{
    u32::from(high) * 0x1_0000 + u32::from(low)
}

/// A signed number of 4 bits.
#[inline(always)]
pub fn signed_nibble(nibble: u16) -> i32
    requires { nibble < 2 ^ 4 }
    ensures { result ≡ signed_at 4 nibble }
{
    if nibble < 8 {
        i32::from(nibble)
    } else {
        i32::from(nibble) - 16
    }
}

/// A signed number of 8 bits.
#[inline(always)]
pub fn signed_byte(byte: u16) -> i32
    requires { byte < 2 ^ 8 }
    ensures { result ≡ signed_at 8 byte }
{
    i32::from((byte as u8).cast_signed())
}

/// A signed number of 16 bits.
#[inline(always)]
pub fn signed_unit(unit: u16) -> i32
    ensures { result ≡ signed_at 16 unit }
{
    i32::from(unit.cast_signed())
}

/// A signed number of 32 bits.
#[inline(always)]
pub fn signed_double(double: u32) -> i32
    ensures { result ≡ signed_at 32 double }
{
    double.cast_signed()
}

/// A signed number of 64 bits.
#[inline(always)]
pub fn signed_quad(quad: u64) -> i64
    ensures { result ≡ signed_at 64 quad }
{
    quad.cast_signed()
}

/// The long of a low and a high word.
#[inline(always)]
pub fn long(low: u32, high: u32) -> i64
    ensures { result ≡ long_of low high }
{
    (u64::from(high) * 0x1_0000_0000 + u64::from(low)).cast_signed()
}

/// The low and the high word of a long.
#[inline(always)]
pub fn halves(long: i64) -> (u32, u32)
    ensures low { result.0 ≡ lo_of long }
    ensures high { result.1 ≡ hi_of long }
{
    let bits = long.cast_unsigned();
    ((bits % 0x1_0000_0000) as u32, (bits / 0x1_0000_0000) as u32)
}

/// An operation on two ints that can't throw.
#[inline(always)]
pub fn operate_ints(operation: Bin, left: i32, right: i32) -> i32
    requires { is_division (standard_bin operation) ≡ false }
    ensures { result ≡ operate32 (standard_bin operation) left right }
{
    match operation {
        Bin::Add => left.wrapping_add(right),
        Bin::Sub => left.wrapping_sub(right),
        Bin::Rsub => right.wrapping_sub(left),
        Bin::Mul => left.wrapping_mul(right),
        Bin::And => left & right,
        Bin::Or => left | right,
        Bin::Xor => left ^ right,
        Bin::Shl => shl_i32(left, right),
        Bin::Shr => shr_i32(left, right),
        Bin::Ushr => ushr_i32(left, right),
        Bin::Div | Bin::Rem => unreachable!(),
    }
}

/// An operation on two longs that can't throw, and is no shift.
#[inline(always)]
pub fn operate_longs(operation: Bin, left: i64, right: i64) -> i64
    requires whole { is_division (standard_bin operation) ≡ false }
    requires unshifted { is_shift (standard_bin operation) ≡ false }
    ensures { result ≡ operate64 (standard_bin operation) left right }
{
    match operation {
        Bin::Add => left.wrapping_add(right),
        Bin::Sub => left.wrapping_sub(right),
        Bin::Rsub => right.wrapping_sub(left),
        Bin::Mul => left.wrapping_mul(right),
        Bin::And => left & right,
        Bin::Or => left | right,
        Bin::Xor => left ^ right,
        Bin::Div | Bin::Rem | Bin::Shl | Bin::Shr | Bin::Ushr => unreachable!(),
    }
}

/// A long shifted by an int.
#[inline(always)]
pub fn shift_long(operation: Bin, long: i64, distance: i32) -> i64
    requires { is_shift (standard_bin operation) ≡ true }
    ensures { result ≡ operate64 (standard_bin operation) long distance }
{
    match operation {
        Bin::Shl => shl_i64(long, distance),
        Bin::Shr => shr_i64(long, distance),
        Bin::Ushr => ushr_i64(long, distance),
        _ => unreachable!(),
    }
}

/// An operation on an int.
#[inline(always)]
pub fn change_int(operation: Unary, int: i32) -> i32
    ensures { result ≡ unary_at w32 (standard_unary operation) int }
{
    match operation {
        Unary::Neg => int.wrapping_neg(),
        Unary::Not => !int,
        Unary::ToByte => to_byte(int),
        Unary::ToChar => to_char(int),
        Unary::ToShort => to_short(int),
    }
}

/// The negated long.
#[inline(always)]
pub fn negate_long(long: i64) -> i64
    ensures { result ≡ unary_at w64 Neg long }
{
    long.wrapping_neg()
}

/// The long with its bits turned.
#[inline(always)]
pub fn complement_long(long: i64) -> i64
    ensures { result ≡ unary_at w64 Not long }
{
    !long
}

/// Whether two ints pass a test.
#[inline(always)]
pub fn passes(test: Test, left: i32, right: i32) -> bool
    ensures { result ≡ compare (standard_test test) left right }
{
    match test {
        Test::Eq => left == right,
        Test::Ne => left != right,
        Test::Lt => left < right,
        Test::Ge => left >= right,
        Test::Gt => left > right,
        Test::Le => left <= right,
    }
}

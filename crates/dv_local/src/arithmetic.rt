// What arithmetic makes of a frame.
ghost use Rattle.std.specs.Prelude.{◌≡◌, suc, false, true};
ghost use Rattle.dv_defs.specs.Numbers.{long_of};
ghost use Rattle.dv_defs.specs.Op.{CompareLong, IntOp, IntToLong, IntUnary, Lit, LongOp, LongShift, LongToInt, LongUnary, Reg};
ghost use Rattle.dv_defs.specs.Parts.{Neg, Not, is_division, is_shift};
ghost use Rattle.dv_frames.specs.Heads.{frame};
ghost use Rattle.dv_words.specs.Local.{word_local};
ghost use Rattle.dv_units.specs.Tables.{standard_bin, standard_unary};
ghost use Rattle.dv_words.specs.Words.{int_of, word_at};

use crate::moving::{set_int, set_long};
use crate::numbers::{
    change_int, complement_long, long, negate_long, operate_ints, operate_longs, shift_long,
};
use dv_frames::{Head, go, set_word, two_words, word};
use dv_num::cmp_long;
use dv_optable::{Bin, Unary};

/// The int in a register.
#[inline(always)]
pub fn int_in(words: &[u32], register: u16) -> i32
    ensures { result ≡ int_of (word_at words.now register) }
{
    word(words, register).cast_signed()
}

/// The long in a register and the next one.
#[inline(always)]
fn long_in(words: &[u32], register: u16) -> i64
    ensures { result ≡ long_of (word_at words.now register) (word_at words.now (suc register)) }
{
    let (low, high) = two_words(words, register);
    long(low, high)
}

#[inline(always)]
pub fn unary_int(operation: Unary, a: u16, b: u16, next: u32, words: &mut [u32], head: &mut Head)
    ensures { frame head.new words.new ≡ word_local (IntUnary (standard_unary operation) a b) (frame head.old words.old) next }
{
    let int = int_in(words, b);
    set_int(a, change_int(operation, int), next, words, head);
}

#[inline(always)]
pub fn negated_long(a: u16, b: u16, next: u32, words: &mut [u32], head: &mut Head)
    ensures { frame head.new words.new ≡ word_local (LongUnary Neg a b) (frame head.old words.old) next }
{
    let long = long_in(words, b);
    set_long(a, negate_long(long), next, words, head);
}

#[inline(always)]
pub fn complemented_long(a: u16, b: u16, next: u32, words: &mut [u32], head: &mut Head)
    ensures { frame head.new words.new ≡ word_local (LongUnary Not a b) (frame head.old words.old) next }
{
    let long = long_in(words, b);
    set_long(a, complement_long(long), next, words, head);
}

#[inline(always)]
pub fn int_to_long(a: u16, b: u16, next: u32, words: &mut [u32], head: &mut Head)
    ensures { frame head.new words.new ≡ word_local (IntToLong a b) (frame head.old words.old) next }
{
    let int = int_in(words, b);
    set_long(a, i64::from(int), next, words, head);
}

#[inline(always)]
pub fn long_to_int(a: u16, b: u16, next: u32, words: &mut [u32], head: &mut Head)
    ensures { frame head.new words.new ≡ word_local (LongToInt a b) (frame head.old words.old) next }
{
    let low = word(words, b);
    set_word(words, a, low);
    go(head, next);
}

#[inline(always)]
pub fn binary_ints(
    operation: Bin,
    a: u16,
    b: u16,
    c: u16,
    next: u32,
    words: &mut [u32],
    head: &mut Head,
)
    requires { is_division (standard_bin operation) ≡ false }
    ensures { frame head.new words.new ≡ word_local (IntOp (standard_bin operation) a b (Reg c)) (frame head.old words.old) next }
{
    let (left, right) = (int_in(words, b), int_in(words, c));
    let int = operate_ints(operation, left, right);
    set_int(a, int, next, words, head);
}

#[inline(always)]
pub fn literal_int(
    operation: Bin,
    a: u16,
    b: u16,
    literal: i32,
    next: u32,
    words: &mut [u32],
    head: &mut Head,
)
    requires { is_division (standard_bin operation) ≡ false }
    ensures { frame head.new words.new ≡ word_local (IntOp (standard_bin operation) a b (Lit literal)) (frame head.old words.old) next }
{
    let left = int_in(words, b);
    let int = operate_ints(operation, left, literal);
    set_int(a, int, next, words, head);
}

#[inline(always)]
pub fn binary_longs(
    operation: Bin,
    a: u16,
    b: u16,
    c: u16,
    next: u32,
    words: &mut [u32],
    head: &mut Head,
)
    requires whole { is_division (standard_bin operation) ≡ false }
    requires unshifted { is_shift (standard_bin operation) ≡ false }
    ensures { frame head.new words.new ≡ word_local (LongOp (standard_bin operation) a b c) (frame head.old words.old) next }
{
    let (left, right) = (long_in(words, b), long_in(words, c));
    let long = operate_longs(operation, left, right);
    set_long(a, long, next, words, head);
}

#[inline(always)]
pub fn shifted_long(
    operation: Bin,
    a: u16,
    b: u16,
    c: u16,
    next: u32,
    words: &mut [u32],
    head: &mut Head,
)
    requires { is_shift (standard_bin operation) ≡ true }
    ensures { frame head.new words.new ≡ word_local (LongShift (standard_bin operation) a b c) (frame head.old words.old) next }
{
    let (left, distance) = (long_in(words, b), int_in(words, c));
    let long = shift_long(operation, left, distance);
    set_long(a, long, next, words, head);
}

#[inline(always)]
pub fn compared_longs(a: u16, b: u16, c: u16, next: u32, words: &mut [u32], head: &mut Head)
    ensures { frame head.new words.new ≡ word_local (CompareLong a b c) (frame head.old words.old) next }
{
    let (left, right) = (long_in(words, b), long_in(words, c));
    set_int(a, cmp_long(left, right), next, words, head);
}

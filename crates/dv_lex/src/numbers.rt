// Numbers as they are written: what their text is, and their value in so many bits.
ghost use Rattle.std.specs.Prelude.{◌≡◌, ◌↔◌, ◌<◌, ◌≤◌, ◌^◌, ℕ, Bool, true, List, [], ◌++◌, length, IsTrue, SomeIff};
ghost use Rattle.std.specs.List.{list_all};
ghost use Rattle.dv_lex.specs.Bytes.{is_hexadecimal};
ghost use Rattle.dv_lex.specs.Literals.{digit_value};
ghost use Rattle.dv_lex.specs.NumberParts.{number_of, HasDigits, IsCut};
ghost use Rattle.dv_lex.specs.Numbers.{in_bits, is_digit, is_suffix, negated, value_from, when, IsNumber, Means, Number, Spells};

use crate::bytes::is_hexadecimal;
use dv_defs::{LineError, LineKind};

/// A number's text without its suffix.
#[derive(Clone, Copy)]
struct Parts<'a> {
    negative: bool,
    hexadecimal: bool,
    digits: &'a [u8],
}

/// Whether the text begins with the prefix, and what stands behind it.
fn strip<'a>(text: &'a [u8], prefix: &[u8]) -> (bool, &'a [u8])
    ensures whole { text.now ≡ when result.0 prefix.now ++ result.1.now }
    ensures there { (rest : List ℕ) → text.now ≡ prefix.now ++ rest → result.0 ≡ true }
{
    match text.strip_prefix(prefix) {
        Some(rest) => (true, rest),
        None => (false, text),
    }
}

/// What stands before the suffix, if there is one.
fn before_suffix(text: &[u8]) -> &[u8]
    ensures whole { (w : List ℕ) × (is_suffix w ≡ true) × (text.now ≡ result.now ++ w) }
    ensures digits { (hexadecimal : Bool) (digits w : List ℕ) → list_all (is_digit hexadecimal) digits ≡ true → is_suffix w ≡ true
        → text.now ≡ digits ++ w → result.now ≡ digits }
{
    match text.split_last() {
        Some((b'L' | b's' | b't', front)) => front,
        _ => text,
    }
}

/// Strips the sign, `0x` and the suffix.
fn cut(token: &[u8]) -> Parts<'_>
    ensures whole { IsCut token.now result }
    ensures digits { IsNumber token.now → HasDigits result }
{
    let (negative, unsigned) = strip(token, b"-");
    let (hexadecimal, rest) = strip(unsigned, b"0x");
    let digits = before_suffix(rest);
    Parts {
        negative,
        hexadecimal,
        digits,
    }
}

/// Whether the byte is a digit of the base.
fn is_digit(hexadecimal: bool, byte: u8) -> bool
    ensures { result ≡ is_digit hexadecimal byte }
{
    if hexadecimal {
        is_hexadecimal(byte)
    } else {
        byte.is_ascii_digit()
    }
}

/// Whether a token is spelled as a number: perhaps `-`, then decimal digits, or `0x` and hexadecimal digits of either
/// case, then perhaps one of the suffixes `L`, `s` and `t`.
pub fn is_number(token: &[u8]) -> bool
    ensures { IsTrue result ↔ IsNumber token.now }
{
    let parts = cut(token);
    let hexadecimal = parts.hexadecimal;
    !parts.digits.is_empty() && parts.digits.iter().all(|byte| is_digit(hexadecimal, *byte))
}

/// What a hexadecimal digit of either case stands for.
fn digit_value(digit: u8) -> u64
    requires { IsTrue (is_hexadecimal digit) }
    ensures { result ≡ digit_value digit }
{
    match digit {
        b'0'..=b'9' => u64::from(digit - b'0'),
        b'A'..=b'F' => u64::from(digit - b'A') + 10,
        _ => u64::from(digit - b'a') + 10,
    }
}

/// What the digits stand for, where 64 bits hold it.
fn magnitude(digits: &[u8], base: u64) -> Option<u64>
    requires base { 0 < base }
    requires digits { list_all is_hexadecimal digits.now ≡ true }
    ensures { SomeIff result (value_from base 0 digits.now < 2 ^ 64) (value_from base 0 digits.now) }
{
    let mut value: u64 = 0;
    for digit in digits {
        value = value.checked_mul(base)?.checked_add(digit_value(*digit))?;
    }
    Some(value)
}

/// The number below zero with this magnitude.
fn negated(value: u64) -> i64
    requires { value ≤ 2 ^ 63 }
    ensures { result ≡ negated value }
{
    if value == 0 {
        0
    } else {
        -1 - ((value - 1) as i64)
    }
}

/// The number of these parts in so many bits, if it fits.
fn in_bits(parts: &Parts, bits: u32) -> Option<i64>
    requires bits { (1 ≤ bits) × (bits ≤ 64) }
    requires digits { list_all is_hexadecimal parts.now.digits.now ≡ true }
    ensures { result ≡ in_bits bits (number_of parts.now []) }
{
    let base = if parts.hexadecimal { 16 } else { 10 };
    let value = magnitude(parts.digits, base)?;
    let limit: u64 = 1 << (bits - 1);
    if parts.negative {
        if value <= limit {
            Some(negated(value))
        } else {
            None
        }
    } else if value < limit {
        Some(value as i64)
    } else if parts.hexadecimal && (bits == 32 || bits == 64) && value - limit < limit {
        // 2^bits is twice the limit.
        Some(negated(limit - (value - limit)))
    } else {
        None
    }
}

/// The value of a number in so many bits. Its suffix changes nothing. It fits from `-2^(bits - 1)` to `2^(bits - 1) - 1`,
/// and in 32 and in 64 bits a hexadecimal number without a sign fits up to `2^bits - 1`, as two's complement.
///
/// # Errors
///
/// `NumberRange` at `line` where the value doesn't fit.
pub fn number(token: &[u8], bits: u32, line: u32) -> Result<i64, LineError>
    requires spelled { IsNumber token.now }
    requires bits { (1 ≤ bits) × (bits ≤ 64) }
    ensures { (n : Number) → Spells token.now n → Means line result (in_bits bits n) }
{
    let kind = LineKind::NumberRange;
    in_bits(&cut(token), bits).ok_or(LineError::At { line, kind })
}

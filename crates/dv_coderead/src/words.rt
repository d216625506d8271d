// Single words of a line: numbers, strings, labels and registers.
ghost use Rattle.std.specs.Prelude.{◌≡◌, ◌≤◌, true, IfOk};
ghost use Rattle.std.specs.List.{list_all};
ghost use Rattle.dv_lex.specs.Literals.{IsSomeString};
ghost use Rattle.dv_lex.specs.Numbers.{is_decimal, value_from};
ghost use Rattle.dv_coderead.specs.Giving.{Gives};
ghost use Rattle.dv_coderead.specs.WordParts.{are_decimal, few_tens, register_at, short_decimal};
ghost use Rattle.dv_coderead.specs.Words.{argument_of, decimal_in, label_in, literal_in, register_in, string_of};

use crate::Refusal;
use crate::names::is_name;
use dv_defs::{Chars, LineKind, Text};
use dv_lex::{is_number, number, string_units};
use std::alloc::{AllocError, Global};

/// How many registers a method has, and how many of them, the last ones, hold its arguments.
#[derive(Clone, Copy, PartialEq, Eq, Debug)]
pub struct Frame {
    pub registers: u32,
    pub arguments: u64,
}

/// The number that a word spells, which so many bits hold.
///
/// # Errors
///
/// `Operands` where the word spells no number, `NumberRange` where it spells one that doesn't fit.
pub fn literal(word: &[u8], bits: u32) -> Result<i64, LineKind>
    requires { (1 ≤ bits) × (bits ≤ 64) }
    ensures { result ≡ literal_in bits word.now }
{
    if !is_number(word) {
        return Err(LineKind::Operands);
    }
    match number(word, bits, 0) {
        Ok(value) => Ok(value),
        Err(_) => Err(LineKind::NumberRange),
    }
}

/// The units of a string literal.
///
/// # Errors
///
/// Want of memory.
pub fn string(alloc: Global, word: &[u8]) -> Result<Chars, AllocError>
    requires { IsSomeString word.now }
    ensures { IfOk result (λ units. units ≡ string_of word.now) }
{
    string_units(alloc, word)
}

/// The name of a label, which stands behind a colon.
///
/// # Errors
///
/// `Operands` where the word is no label, and want of memory.
pub fn label(alloc: Global, word: &[u8]) -> Result<Text, Refusal>
    ensures { Gives (λ name. name) result (label_in word.now) }
{
    match word.strip_prefix(b":") {
        Some(name) if is_name(name) => Ok(Text::of(Vec::from_slice(alloc, name)?)?),
        _ => Err(Refusal::Fault(LineKind::Operands)),
    }
}

/// Whether these are digits, one or more.
fn are_decimal(digits: &[u8]) -> bool
    ensures { result ≡ are_decimal digits.now }
{
    !digits.is_empty() && digits.iter().all(u8::is_ascii_digit)
}

/// The value of decimal digits, without sign or suffix.
///
/// # Errors
///
/// `Operands` where there are none or other bytes, `RegisterRange` where the value is 2^47 or more.
fn decimal(digits: &[u8]) -> Result<i64, LineKind>
    ensures { result ≡ short_decimal (decimal_in digits.now) }
{
    if !are_decimal(digits) {
        return Err(LineKind::Operands);
    }
    match number(digits, 48, 0) {
        Ok(value) => Ok(value),
        Err(_) => Err(LineKind::RegisterRange),
    }
}

/// The value of the digits of a number in front of its last, if there are any.
///
/// # Errors
///
/// `RegisterRange` where the value is 2^63 or more.
fn tens(digits: &[u8]) -> Result<i64, LineKind>
    requires { list_all is_decimal digits.now ≡ true }
    ensures { result ≡ few_tens (value_from 10 0 digits.now) }
{
    if digits.is_empty() {
        return Ok(0);
    }
    match number(digits, 64, 0) {
        Ok(value) => Ok(value),
        Err(_) => Err(LineKind::RegisterRange),
    }
}

/// The register of this number.
fn register_at(number: i64) -> Result<u16, LineKind>
    ensures { result ≡ register_at number }
{
    match u16::try_from(number) {
        Ok(register) => Ok(register),
        Err(_) => Err(LineKind::RegisterRange),
    }
}

/// The register of the argument's word with this number, of which the last digit is counted by itself.
///
/// # Errors
///
/// `Operands` where there are no digits or other bytes, `RegisterRange` where it stands before register 0 or behind
/// register 65535.
fn argument(frame: Frame, digits: &[u8]) -> Result<u16, LineKind>
    ensures { result ≡ argument_of frame (decimal_in digits.now) }
{
    let [front @ .., last] = digits else {
        return Err(LineKind::Operands);
    };
    if !are_decimal(digits) {
        return Err(LineKind::Operands);
    }
    let tens = tens(front)? - (frame.arguments / 10) as i64;
    if tens < -1_000_000_000 || 1_000_000_000 < tens {
        return Err(LineKind::RegisterRange);
    }
    let ones = i64::from(*last - b'0') - (frame.arguments % 10) as i64;
    register_at(10 * tens + ones + i64::from(frame.registers))
}

/// The register that a word names: `v` and its number, or `p` and the number of an argument's word.
///
/// # Errors
///
/// `Operands` where the word names none, `RegisterRange` where it stands before register 0 or behind register 65535.
pub fn register(frame: Frame, word: &[u8]) -> Result<u16, LineKind>
    ensures { result ≡ register_in frame word.now }
{
    if let Some(digits) = word.strip_prefix(b"v") {
        return register_at(decimal(digits)?);
    }
    if let Some(digits) = word.strip_prefix(b"p") {
        return argument(frame, digits);
    }
    Err(LineKind::Operands)
}

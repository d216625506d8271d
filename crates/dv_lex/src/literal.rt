// Literals, and the UTF-16 units that they mean.
ghost use Rattle.std.specs.Prelude.{◌≡◌, ℕ, ◌<◌, true, List, IfOk, drop, slice_index};
ghost use Rattle.std.specs.Str.Iter.{chars_rest};
ghost use Rattle.dv_lex.specs.Bytes.{begins_with_four, escape_length, is_escape, is_hexadecimal, is_short};
ghost use Rattle.dv_lex.specs.Literals.{digit_value, escape_unit, short_unit, value_of_four, IsCharacter, IsLiteral, IsSomeCharacter, IsSomeString, IsString, Writes};

use dv_defs::Chars;
use std::alloc::{AllocError, Global};
use std::str;

/// The text between a literal's quotes.
fn inner(literal: &[u8]) -> &str
    requires { (quote : ℕ) × (units : List ℕ) × IsLiteral quote units literal.now }
    ensures { (quote : ℕ) (units : List ℕ) → IsLiteral quote units literal.now → Writes quote units result.now }
{
    match str::from_utf8(&literal[1..literal.len() - 1]) {
        Ok(text) => text,
        Err(_) => unreachable!(),
    }
}

/// The value of a hexadecimal digit of either case.
fn digit_value(digit: char) -> u16
    requires { is_hexadecimal digit ≡ true }
    ensures value { result ≡ digit_value digit }
    ensures small { result < 16 }
{
    match digit {
        '0'..='9' => digit as u16 - '0' as u16,
        'A'..='F' => digit as u16 - 'A' as u16 + 10,
        'a'..='f' => digit as u16 - 'a' as u16 + 10,
        _ => unreachable!(),
    }
}

/// The value of the hexadecimal digit that comes next.
fn next_digit(rest: &mut str::Chars) -> u16
    requires { is_hexadecimal (slice_index (chars_rest rest.old) 0) ≡ true }
    ensures value { result ≡ digit_value (slice_index (chars_rest rest.old) 0) }
    ensures small { result < 16 }
    ensures behind { chars_rest rest.new ≡ drop 1 (chars_rest rest.old) }
{
    match rest.next() {
        Some(digit) => digit_value(digit),
        None => unreachable!(),
    }
}

/// The value of the four hexadecimal digits that come next.
fn next_four_digits(rest: &mut str::Chars) -> u16
    requires { begins_with_four (chars_rest rest.old) ≡ true }
    ensures value { result ≡ value_of_four (chars_rest rest.old) }
    ensures behind { chars_rest rest.new ≡ drop 4 (chars_rest rest.old) }
{
    let high = next_digit(rest) * 0x10 + next_digit(rest);
    let low = next_digit(rest) * 0x10 + next_digit(rest);
    high * 0x100 + low
}

/// The unit of a backslash with this character.
fn short_unit(c: char) -> u16
    requires { is_short c ≡ true }
    ensures { result ≡ short_unit c }
{
    match c {
        'n' => 0x0A,
        't' => 0x09,
        'r' => 0x0D,
        'b' => 0x08,
        'f' => 0x0C,
        mark => mark as u16,
    }
}

/// The unit of the escape that comes next, whose backslash has been read.
fn next_escape(rest: &mut str::Chars) -> u16
    requires { is_escape (chars_rest rest.old) ≡ true }
    ensures value { result ≡ escape_unit (chars_rest rest.old) }
    ensures behind { chars_rest rest.new ≡ drop (escape_length (chars_rest rest.old)) (chars_rest rest.old) }
{
    match rest.next() {
        Some('u') => next_four_digits(rest),
        Some(c) => short_unit(c),
        None => unreachable!(),
    }
}

/// The UTF-16 units of a string literal, whose text has its quotes with it.
///
/// # Errors
///
/// Want of memory.
pub fn string_units(alloc: Global, literal: &[u8]) -> Result<Chars, AllocError>
    requires { IsSomeString literal.now }
    ensures { (units : List ℕ) → IsString units literal.now → IfOk result (λ u. u ≡ units) }
{
    let mut units = Vec::new(alloc);
    let mut rest = inner(literal).chars();
    while let Some(c) = rest.next() {
        if c == '\\' {
            units.push(next_escape(&mut rest))?;
        } else {
            units.extend_from_slice(c.encode_utf16(&mut [0; 2]))?;
        }
    }
    Ok(Chars::of(units))
}

/// The UTF-16 unit of a character literal, whose text has its quotes with it.
pub fn char_unit(literal: &[u8]) -> u16
    requires { IsSomeCharacter literal.now }
    ensures { (unit : ℕ) → IsCharacter unit literal.now → result ≡ unit }
{
    let mut rest = inner(literal).chars();
    match rest.next() {
        Some('\\') => next_escape(&mut rest),
        Some(c) => c.encode_utf16(&mut [0; 2])[0],
        None => unreachable!(),
    }
}

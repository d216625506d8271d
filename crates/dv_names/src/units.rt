// Texts in UTF-8, and guest strings in units of UTF-16.
ghost use Rattle.std.specs.Prelude.{◌≡◌, false, ◌++◌, ◌&&◌, ◌<◌, ◌≤◌, length, drop, IfOk, encode_utf8, if◌then◌else◌};
ghost use Rattle.std.specs.Option.{unwrap_or};
ghost use Rattle.std.specs.Char.Utf16.{has_unpaired_surrogate, is_high_surrogate, is_low_surrogate, lone_unit_char, surrogate_pair_char};
ghost use Rattle.std.specs.Str.{IsUtf8};
ghost use Rattle.dv_defs.specs.Texts.{utf8};
ghost use Rattle.dv_names.specs.Units.{units_of};

use dv_defs::{Chars, Text};
use std::alloc::{AllocError, Global};

/// The text in units of UTF-16: a character above U+FFFF is a pair of surrogates.
pub fn chars_of_utf8(alloc: Global, text: &str) -> Result<Chars, AllocError>
    ensures units { IfOk result (λ u. u ≡ units_of text.now) }
    ensures back { IfOk result (λ u. utf8 u ≡ text.now) }
{
    let mut units = Vec::new(alloc);
    for c in text.chars() {
        units.extend_from_slice(c.encode_utf16(&mut [0; 2]))?;
    }
    Ok(Chars::of(units))
}

/// The character of a pair of surrogates.
fn pair_char(high: u16, low: u16) -> Option<char>
    ensures { result ≡ (if is_high_surrogate high && is_low_surrogate low then Some (surrogate_pair_char high low) else None) }
{
    if high < 0xD800 || 0xDC00 <= high || low < 0xDC00 || 0xE000 <= low {
        return None;
    }
    let over = (u32::from(high) - 0xD800) * 0x400 + (u32::from(low) - 0xDC00);
    char::from_u32(0x1_0000 + over)
}

/// The character of a unit that is in no pair, `?` where it is a surrogate.
fn lone_char(unit: u16) -> char
    ensures { result ≡ unwrap_or (lone_unit_char unit) 63 }
{
    char::from_u32(u32::from(unit)).unwrap_or('?')
}

/// The character at `at`, and where the next one begins.
fn char_at(units: &[u16], at: usize) -> (char, usize)
    requires { at < length units.now }
    ensures within { (at < result.1) × (result.1 ≤ length units.now) }
    ensures first { utf8 (drop at units.now) ≡ encode_utf8 result.0 ++ utf8 (drop result.1 units.now) }
{
    if at + 1 < units.len() {
        if let Some(c) = pair_char(units[at], units[at + 1]) {
            return (c, at + 2);
        }
    }
    (lone_char(units[at]), at + 1)
}

/// The units in UTF-8, with `?` for each surrogate that has no partner.
fn utf8_of_units(alloc: Global, units: &[u16]) -> Result<Text, AllocError>
    ensures text { IfOk result (λ t. t ≡ utf8 units.now) }
    ensures utf8 { IfOk result IsUtf8 }
    ensures back { has_unpaired_surrogate units.now ≡ false → IfOk result (λ t. units_of t ≡ units.now) }
{
    let mut text = String::new(alloc);
    let mut at = 0;
    while at < units.len() {
        let (c, next) = char_at(units, at);
        text.push(c)?;
        at = next;
    }
    Text::of(text.into_bytes())
}

/// The guest string in UTF-8, with `?` for each surrogate that has no partner.
pub fn utf8_of_chars(alloc: Global, chars: &Chars) -> Result<Text, AllocError>
    ensures text { IfOk result (λ t. t ≡ utf8 chars.now) }
    ensures utf8 { IfOk result IsUtf8 }
    ensures back { has_unpaired_surrogate chars.now ≡ false → IfOk result (λ t. units_of t ≡ chars.now) }
{
    utf8_of_units(alloc, chars.units())
}

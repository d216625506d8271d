// Texts in UTF-8. A text is words that are units of UTF-16.
ghost use Rattle.std.specs.Prelude.{◌≡◌, ℕ, ◌++◌, ◌&&◌, ◌+◌, ◌<◌, ◌≤◌, ◌^◌, length, drop, slice_index, Some, None, encode_utf8, vec_len, vec_capacity, if◌then◌else◌};
ghost use Rattle.std.specs.Option.{unwrap_or};
ghost use Rattle.std.specs.Char.Utf16.{is_high_surrogate, is_low_surrogate, lone_unit_char, surrogate_pair_char};
ghost use Rattle.dv_defs.specs.Texts.{utf8};

/// The character of a pair of surrogates.
fn pair_char(high: u32, low: u32) -> Option<char>
    ensures { result ≡ (if is_high_surrogate high && is_low_surrogate low then Some (surrogate_pair_char high low) else None) }
{
    if high < 0xD800 || 0xDC00 <= high || low < 0xDC00 || 0xE000 <= low {
        return None;
    }
    char::from_u32(0x1_0000 + (high - 0xD800) * 0x400 + (low - 0xDC00))
}

/// The character of a unit that is in no pair, `?` where it is a surrogate.
fn lone_char(unit: u32) -> char
    requires { unit < 2 ^ 16 }
    ensures { result ≡ unwrap_or (lone_unit_char unit) 63 }
{
    char::from_u32(unit).unwrap_or('?')
}

/// The character at a place, and where the next one begins.
fn char_at(text: &[u32], at: usize) -> (char, usize)
    requires within { at < length text.now }
    requires units { (k : ℕ) → slice_index text.now k < 2 ^ 16 }
    ensures within { (at < result.1) × (result.1 ≤ length text.now) }
    ensures first { utf8 (drop at text.now) ≡ encode_utf8 result.0 ++ utf8 (drop result.1 text.now) }
{
    if at + 1 < text.len() {
        if let Some(c) = pair_char(text[at], text[at + 1]) {
            return (c, at + 2);
        }
    }
    (lone_char(text[at]), at + 1)
}

/// How many bytes a text has.
pub fn utf8_len(text: &[u32]) -> usize
    requires units { (k : ℕ) → slice_index text.now k < 2 ^ 16 }
    ensures { result ≡ length (utf8 text.now) }
{
    let mut len = 0;
    let mut at = 0;
    while at < text.len() {
        let (c, next) = char_at(text, at);
        len += c.len_utf8();
        at = next;
    }
    len
}

/// Appends the bytes of a text where there is room.
pub fn add_utf8(output: &mut Vec<u8>, text: &[u32])
    requires units { (k : ℕ) → slice_index text.now k < 2 ^ 16 }
    requires room { vec_len output.old + length (utf8 text.now) ≤ vec_capacity output.old }
    ensures { output.new.items ≡ output.old.items ++ utf8 text.now }
{
    let mut at = 0;
    while at < text.len() {
        let (c, next) = char_at(text, at);
        let _ = output.extend_from_slice(c.encode_utf8(&mut [0; 4]).as_bytes());
        at = next;
    }
}

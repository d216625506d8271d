// Bytes and names of descriptors.
ghost use Rattle.std.specs.Prelude.{◌≡◌, ◌<◌, ◌≤◌, true, false, length, slice_index, slice_range};
ghost use Rattle.std.specs.List.{list_all};
ghost use Rattle.dv_names.specs.Descriptors.{is_name_byte};
ghost use Rattle.dv_names.specs.Grammar.{primitive_of, is_float_letter};
ghost use Rattle.dv_names.specs.Parts.{EndsWord, EndsSpecial, EndsName, EndsClass};

use crate::NameError;
use dv_defs::Base;

/// The characters that no plain name has, beside blanks and control characters.
const MARKS: &[u8; 16] = b".;[/()<>:\"'#{},=";

pub fn is_name_byte(byte: u8) -> bool
    ensures { result ≡ is_name_byte byte }
{
    byte > b' ' && !MARKS.contains(&byte)
}

/// The primitive type of this letter.
pub fn primitive(letter: u8) -> Option<Base>
    ensures { result ≡ primitive_of letter }
{
    match letter {
        b'Z' => Some(Base::Z),
        b'B' => Some(Base::B),
        b'C' => Some(Base::C),
        b'S' => Some(Base::S),
        b'I' => Some(Base::I),
        b'J' => Some(Base::J),
        _ => None,
    }
}

pub fn is_float_letter(letter: u8) -> bool
    ensures { result ≡ is_float_letter letter }
{
    matches!(letter, b'F' | b'D')
}

/// Where the bytes of a plain name end that begin at `start`.
fn name_bytes_end(text: &[u8], start: usize) -> usize
    requires { start ≤ length text.now }
    ensures within { (start ≤ result) × (result ≤ length text.now) }
    ensures bytes { list_all is_name_byte (slice_range text.now start result) ≡ true }
    ensures most { result < length text.now → is_name_byte (slice_index text.now result) ≡ false }
{
    let mut at = start;
    while at < text.len() && is_name_byte(text[at]) {
        at += 1;
    }
    at
}

/// Where the bytes of `word` end that are to stand at `start`.
fn word_end(text: &[u8], start: usize, word: &[u8]) -> Result<usize, NameError>
    requires { start ≤ length text.now }
    ensures { EndsWord word.now text.now start result }
{
    let mut at = start;
    while at - start < word.len() {
        if at == text.len() || text[at] != word[at - start] {
            return Err(NameError::BadDescriptor(at));
        }
        at += 1;
    }
    Ok(at)
}

/// Where the special name ends whose `<` stands before `start`.
fn special_end(text: &[u8], start: usize) -> Result<usize, NameError>
    requires { start ≤ length text.now }
    ensures { EndsSpecial text.now start result }
{
    if start < text.len() && text[start] == b'c' {
        word_end(text, start, b"clinit>")
    } else {
        word_end(text, start, b"init>")
    }
}

/// Where the name at `start` ends.
fn name_end(text: &[u8], start: usize) -> Result<usize, NameError>
    requires { start ≤ length text.now }
    ensures { EndsName text.now start result }
{
    if start < text.len() && text[start] == b'<' {
        return special_end(text, start + 1);
    }
    let end = name_bytes_end(text, start);
    if end == start {
        return Err(NameError::BadDescriptor(start));
    }
    Ok(end)
}

/// Where the class descriptor ends whose `L` stands before `start`.
pub fn class_end(text: &[u8], start: usize) -> Result<usize, NameError>
    requires { start ≤ length text.now }
    ensures { EndsClass text.now start result }
{
    let mut end = name_end(text, start)?;
    while end < text.len() && text[end] == b'/' {
        end = name_end(text, end + 1)?;
    }
    if end == text.len() || text[end] != b';' {
        return Err(NameError::BadDescriptor(end));
    }
    Ok(end + 1)
}

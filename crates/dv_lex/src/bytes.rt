// What a byte of a line is to the cutting of tokens.
ghost use Rattle.std.specs.Prelude.{◌≡◌};
ghost use Rattle.dv_lex.specs.Bytes.{byte_class, is_plain, is_control, is_hexadecimal, is_escape, escape_length, units_begun};

/// What a byte is between tokens.
#[derive(Clone, Copy, PartialEq, Eq, Debug)]
pub enum Class {
    Blank,
    Hash,
    Mark,
    Quote,
    Control,
    Plain,
}

#[tactic(auto, unfolding(crate::specs::Bytes::byte_class))]
pub fn byte_class(byte: u8) -> Class
    ensures { result ≡ byte_class byte }
{
    match byte {
        b' ' | b'\t' => Class::Blank,
        b'#' => Class::Hash,
        b'{' | b'}' | b',' | b'=' => Class::Mark,
        b'"' | b'\'' => Class::Quote,
        0..=31 => Class::Control,
        _ => Class::Plain,
    }
}

/// Whether the byte is one of a word.
pub fn is_plain(byte: u8) -> bool
    ensures { result ≡ is_plain byte }
{
    matches!(byte_class(byte), Class::Plain)
}

/// Whether the byte is a control character other than a tab.
pub fn is_control(byte: u8) -> bool
    ensures { result ≡ is_control byte }
{
    matches!(byte_class(byte), Class::Control)
}

pub fn is_hexadecimal(byte: u8) -> bool
    ensures { result ≡ is_hexadecimal byte }
{
    matches!(byte, b'0'..=b'9' | b'a'..=b'f' | b'A'..=b'F')
}

/// Whether an escape stands behind a backslash.
#[tactic(auto, unfolding(crate::specs::Bytes::is_escape))]
pub fn is_escape(behind: &[u8]) -> bool
    ensures { result ≡ is_escape behind.now }
{
    match behind {
        [b'u', a, b, c, d, ..] => {
            is_hexadecimal(*a) && is_hexadecimal(*b) && is_hexadecimal(*c) && is_hexadecimal(*d)
        }
        [b'n' | b't' | b'r' | b'b' | b'f' | b'\'' | b'"' | b'\\', ..] => true,
        _ => false,
    }
}

/// The bytes of the escape behind a backslash.
pub fn escape_length(behind: &[u8]) -> usize
    ensures { result ≡ escape_length behind.now }
{
    match behind {
        [b'u', ..] => 5,
        [_, ..] => 1,
        [] => 0,
    }
}

/// How many UTF-16 units the character has that begins with the byte; none where the byte begins no character.
pub fn units_begun(byte: u8) -> usize
    ensures { result ≡ units_begun byte }
{
    match byte {
        0..=127 => 1,
        128..=191 => 0,
        192..=239 => 1,
        240..=255 => 2,
    }
}

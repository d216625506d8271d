// Tokens, and the scanning of a line.
ghost use Rattle.std.specs.Prelude.{◌≡◌, ◌≤◌, ◌<◌, ◌≢◌, length, drop, slice_index, slice_range, IfOk};
ghost use Rattle.std.specs.List.{All};
ghost use Rattle.dv_lex.specs.declared.bytes.Class.TheVariants as class;
ghost use Rattle.dv_lex.specs.declared.token.TokenKind.TheVariants as kind;
ghost use Rattle.dv_lex.specs.Bytes.{byte_class};
ghost use Rattle.dv_lex.specs.Lexemes.{lacks_one_unit, lexemes, literal_kind, Cuts, Outside};
ghost use Rattle.dv_lex.specs.Lines.{lexemes_in, Finds, Takes, IsInside};

use crate::bytes::{
    Class, byte_class, escape_length, is_control, is_escape, is_plain, units_begun,
};
use dv_defs::LineKind;
use std::alloc::{AllocError, Global};

/// What a token is.
#[derive(Clone, Copy, PartialEq, Eq, Debug)]
pub enum TokenKind {
    /// A string literal, in double quotes.
    Str,
    /// A character literal, in single quotes.
    Char,
    /// One of `{`, `}`, `,` and `=`.
    Mark,
    /// A longest run of characters other than blanks, tabs, quotes, `#` and marks.
    Word,
}

/// A token, from the byte `start` of its text up to the byte `end`.
#[derive(Clone, Copy, PartialEq, Eq, Debug)]
pub struct Token {
    pub kind: TokenKind,
    pub start: usize,
    pub end: usize,
}

impl Token {
    /// The token's bytes in its text.
    pub fn bytes<'a>(&self, text: &'a [u8]) -> &'a [u8]
        requires { IsInside text.now self.now }
        ensures { result.now ≡ slice_range text.now self.now.start self.now.end }
    {
        &text[self.start..self.end]
    }
}

/// Where the word that begins at `start` ends.
fn word_end(line: &[u8], start: usize) -> usize
    requires inside { start < length line.now }
    requires word { byte_class (slice_index line.now start) ≡ class.Plain }
    ensures { Cuts kind.Word line.now start (Ok result) }
{
    let mut at = start + 1;
    while at < line.len() && is_plain(line[at]) {
        at += 1;
    }
    at
}

/// Whether a literal in these quotes is to have one unit, and has another number.
fn lacks_one_unit(quote: u8, units: usize) -> bool
    ensures { result ≡ lacks_one_unit quote units }
{
    quote == b'\'' && units != 1
}

/// Where the literal that begins with the quote at `start` ends.
fn literal_end(line: &[u8], start: usize) -> Result<usize, LineKind>
    requires inside { start < length line.now }
    requires literal { byte_class (slice_index line.now start) ≡ class.Quote }
    ensures { Cuts (literal_kind (slice_index line.now start)) line.now start result }
{
    let quote = line[start];
    let mut units: usize = 0;
    let mut at = start + 1;
    while at < line.len() {
        let byte = line[at];
        at += 1;
        if byte == quote {
            return if lacks_one_unit(quote, units) {
                Err(LineKind::BadToken)
            } else {
                Ok(at)
            };
        }
        if is_control(byte) {
            return Err(LineKind::BadToken);
        }
        if byte == b'\\' {
            if !is_escape(&line[at..]) {
                return Err(LineKind::BadEscape);
            }
            at += escape_length(&line[at..]);
            units += 1;
        } else {
            units += units_begun(byte);
        }
    }
    Err(LineKind::BadToken)
}

/// The kind of a literal in these quotes.
fn literal_kind(quote: u8) -> TokenKind
    ensures { result ≡ literal_kind quote }
{
    if quote == b'"' {
        TokenKind::Str
    } else {
        TokenKind::Char
    }
}

/// The token that begins at `start`.
fn token_at(line: &[u8], start: usize) -> Result<Token, LineKind>
    requires inside { start < length line.now }
    requires not_blank { byte_class (slice_index line.now start) ≢ class.Blank }
    requires not_hash { byte_class (slice_index line.now start) ≢ class.Hash }
    ensures { Takes line.now start result }
{
    let first = line[start];
    let (kind, end) = match byte_class(first) {
        Class::Mark => (TokenKind::Mark, start + 1),
        Class::Quote => (literal_kind(first), literal_end(line, start)?),
        Class::Plain => (TokenKind::Word, word_end(line, start)),
        Class::Control => return Err(LineKind::BadToken),
        Class::Blank | Class::Hash => unreachable!(),
    };
    Ok(Token { kind, start, end })
}

/// The tokens of `line` from `start` on, or the first fault there.
pub fn tokens_from(
    alloc: Global,
    line: &[u8],
    start: usize,
) -> Result<Result<Vec<Token>, LineKind>, AllocError>
    requires { start ≤ length line.now }
    ensures within { IfOk result (λ r. IfOk r (λ v. All (IsInside line.now) v.items)) }
    ensures exact { IfOk result (λ r. Finds (λ v. lexemes_in line.now v.items) r (lexemes start Outside (drop start line.now))) }
{
    let mut tokens = Vec::new(alloc);
    let mut at = start;
    while at < line.len() {
        match byte_class(line[at]) {
            Class::Blank => at += 1,
            Class::Hash => return Ok(Ok(tokens)),
            _ => match token_at(line, at) {
                Ok(token) => {
                    tokens.push(token)?;
                    at = token.end;
                }
                Err(kind) => return Ok(Err(kind)),
            },
        }
    }
    Ok(Ok(tokens))
}

// Lines with their tokens.
ghost use Rattle.std.specs.Prelude.{◌≡◌, ◌∷◌, ◌+◌, ◌-◌, ◌^◌, ◌<◌, ◌≤◌, length, drop, take, map, position, slice_range, IfOk};
ghost use Rattle.std.specs.List.{All};
ghost use Rattle.std.specs.Str.{is_utf8};
ghost use Rattle.std.specs.Str.Lines.{strip_carriage_return};
ghost use Rattle.dv_lex.specs.Lines.{good_in, is_line_feed, lexemes_in, line_lexemes, mark_length, read_in, reading_of, rows_from, AreTokens, Finds, HasTokens, IsInside, IsLineInside, ReadsAll, Row};

use crate::token::{Token, tokens_from};
use dv_defs::{LineError, LineKind, Seq};
use std::alloc::{AllocError, Global};

/// The tokens of a line, whose places are places in the text. Lines are counted from 1.
#[derive(Debug, Drop)]
pub struct Line {
    pub number: u32,
    pub tokens: Seq<Token>,
}

/// The first line that isn't good, and why: it isn't UTF-8, or has a bad token or a bad escape.
#[derive(Clone, Copy, PartialEq, Eq, Debug)]
pub struct Stop {
    pub line: u32,
    pub kind: LineKind,
}

/// The good lines of a text up to the first that isn't good, if there is one.
#[derive(Debug, Drop)]
pub struct GoodLines {
    pub lines: Seq<Line>,
    pub stop: Option<Stop>,
}

fn line_feed(rest: &[u8]) -> Option<usize>
    ensures { result ≡ position is_line_feed rest.now }
{
    rest.iter().position(|b| *b == b'\n')
}

/// How long a line is without a carriage return at its end.
fn trimmed_len(line: &[u8]) -> usize
    ensures { (result ≤ length line.now) × (take result line.now ≡ strip_carriage_return line.now) }
{
    match line {
        [.., b'\r'] => line.len() - 1,
        _ => line.len(),
    }
}

/// Where the line that begins at `start` ends, and where the next one begins.
fn line_bounds(text: &[u8], start: usize, number: u32) -> (usize, usize)
    requires { start < length text.now }
    ensures inside { (start ≤ result.0) × (result.0 ≤ length text.now) × (start < result.1) × (result.1 ≤ length text.now) }
    ensures line { rows_from number start (drop start text.now) ≡ record { number = number; start = start; bytes = slice_range text.now start result.0 } ∷ rows_from (number + 1) result.1 (drop result.1 text.now) }
{
    match line_feed(&text[start..]) {
        None => (text.len(), text.len()),
        Some(len) => {
            let end = start + len;
            (start + trimmed_len(&text[start..end]), end + 1)
        }
    }
}

fn is_utf8(bytes: &[u8]) -> bool
    ensures { result ≡ is_utf8 bytes.now }
{
    match std::str::from_utf8(bytes) {
        Ok(_) => true,
        Err(_) => false,
    }
}

/// The tokens of the line from `start` to `end`, or its first fault.
fn tokens_between(
    alloc: Global,
    text: &[u8],
    start: usize,
    end: usize,
) -> Result<Result<Vec<Token>, LineKind>, AllocError>
    requires { (start ≤ end) × (end ≤ length text.now) }
    ensures within { IfOk result (λ r. IfOk r (λ v. All (IsInside text.now) v.items)) }
    ensures tokens { IfOk result (λ r. IfOk r (λ v. AreTokens text.now v.items)) }
    ensures exact { IfOk result (λ r. Finds (λ v. lexemes_in text.now v.items) r (line_lexemes start (slice_range text.now start end))) }
{
    if !is_utf8(&text[start..end]) {
        return Ok(Err(LineKind::NotUtf8));
    }
    tokens_from(alloc, &text[..end], start)
}

/// The tokens of a line that stands alone, whose places are places in the line; or why it isn't good: it isn't UTF-8,
/// or has a bad token or a bad escape. A line feed or a carriage return in it is a control character.
///
/// # Errors
///
/// Want of memory.
pub fn line_tokens(alloc: Global, line: &[u8]) -> Result<Result<Vec<Token>, LineKind>, AllocError>
    ensures within { IfOk result (λ r. IfOk r (λ v. All (IsInside line.now) v.items)) }
    ensures tokens { IfOk result (λ r. IfOk r (λ v. AreTokens line.now v.items)) }
    ensures exact { IfOk result (λ r. Finds (λ v. lexemes_in line.now v.items) r (line_lexemes 0 line.now)) }
{
    tokens_between(alloc, line, 0, line.len())
}

/// How many bytes a byte order mark in front of a text has.
fn mark_length(text: &[u8]) -> usize
    ensures exact { result ≡ mark_length text.now }
    ensures inside { result ≤ length text.now }
{
    if text.starts_with(b"\xef\xbb\xbf") {
        3
    } else {
        0
    }
}

/// The good lines of a text with their tokens, and the first fault, which stands on the line after them. A reader of
/// grammar goes by these: a fault of grammar on one of the good lines is the text's first. A byte order mark in front is
/// passed over.
///
/// # Errors
///
/// Want of memory.
pub fn good_lines(alloc: Global, text: &[u8]) -> Result<GoodLines, AllocError>
    requires { length text.now < 2 ^ 32 - 1 }
    ensures within { IfOk result (λ g. All (IsLineInside text.now) g.lines) }
    ensures tokens { IfOk result (λ g. All (HasTokens text.now) g.lines) }
    ensures exact { IfOk result (λ g. good_in text.now g ≡ reading_of text.now) }
{
    let mut lines = Vec::new(alloc);
    let mut start = mark_length(text);
    let mut number = 1;
    while start < text.len() {
        let (end, next) = line_bounds(text, start, number);
        match tokens_between(alloc, text, start, end)? {
            Ok(tokens) => {
                let tokens = Seq::of(tokens);
                lines.push(Line { number, tokens })?;
            }
            Err(kind) => {
                let lines = Seq::of(lines);
                let stop = Some(Stop { line: number, kind });
                return Ok(GoodLines { lines, stop });
            }
        }
        start = next;
        number += 1;
    }
    let lines = Seq::of(lines);
    Ok(GoodLines { lines, stop: None })
}

/// The lines of a text with their tokens. Lines end with LF or CR LF, and a last empty one is none.
///
/// # Errors
///
/// The first line that isn't good, with its kind: `NotUtf8`, or the line's first fault from the left, `BadToken` or
/// `BadEscape`. Or want of memory.
pub fn lines(alloc: Global, text: &[u8]) -> Result<Vec<Line>, LineError>
    requires { length text.now < 2 ^ 32 - 1 }
    ensures within { IfOk result (λ v. All (IsLineInside text.now) v.items) }
    ensures tokens { IfOk result (λ v. All (HasTokens text.now) v.items) }
    ensures exact { ReadsAll (λ v. map (read_in text.now) v.items) result (reading_of text.now) }
{
    let good = good_lines(alloc, text)?;
    match good.stop {
        None => Ok(good.lines.into_vec()),
        Some(Stop { line, kind }) => Err(LineError::At { line, kind }),
    }
}

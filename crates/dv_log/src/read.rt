// Lines of text as a schedule.
ghost use Rattle.std.specs.Prelude.{◌≡◌, ◌+◌, ◌^◌, ◌<◌, ◌≤◌, ◌↔◌, ℕ, Some, Ok, length, IfOk, MatchResult};
ghost use Rattle.std.specs.List.{All};
ghost use Rattle.dv_lex.specs.Lines.{lexeme_in, lexemes_in, IsInside};
ghost use Rattle.dv_defs.specs.declared.run.Entry.{Entry};
ghost use Rattle.dv_log.specs.Reading.{AreEntry, IsField, IsSomeIn, Reads, Refuses, Says};

use crate::LogError;
use dv_defs::{Entry, Text};
use dv_lex::{Token, is_number, line_tokens, number};
use std::alloc::{AllocError, Global};

/// What a line of a schedule says.
#[derive(Clone, Copy, PartialEq, Eq, Debug)]
pub enum Said {
    /// Nothing: it is blank, or a comment.
    Nothing,
    One(Entry),
    /// Anything else.
    Other,
}

/// The value, if there is one, and it is in the range.
fn in_range(value: Option<i64>, low: u32, high: u32) -> Option<u32>
    ensures { (v : ℕ) → (result ≡ Some v) ↔ IsSomeIn low high value v }
{
    let value = u32::try_from(value?).ok()?;
    if low <= value && value <= high {
        Some(value)
    } else {
        None
    }
}

/// The number that a token spells, if it is in the range.
fn field(line: &[u8], token: &Token, low: u32, high: u32) -> Option<u32>
    requires inside { IsInside line.now token.now }
    requires high { high < 2 ^ 15 }
    ensures { (v : ℕ) → (result ≡ Some v) ↔ IsField low high (lexeme_in line.now token.now) v }
{
    let text = token.bytes(line);
    if !is_number(text) {
        return None;
    }
    in_range(number(text, 16, 0).ok(), low, high)
}

/// The entry of these fields, if all are there.
fn entry_of(worker: Option<u32>, thread: Option<u32>, steps: Option<u32>) -> Option<Entry>
    ensures { (e : Entry) → (result ≡ Some e) ↔ ((worker ≡ Some e.worker) × (thread ≡ Some e.thread) × (steps ≡ Some e.steps)) }
{
    Some(Entry {
        worker: worker?,
        thread: thread?,
        steps: steps?,
    })
}

/// The entry that a line's tokens are, if they are one.
fn entry(line: &[u8], tokens: &[Token]) -> Option<Entry>
    requires inside { All (IsInside line.now) tokens.now }
    ensures { (e : Entry) → (result ≡ Some e) ↔ AreEntry (lexemes_in line.now tokens.now) e }
{
    match tokens {
        [worker, thread, steps] => entry_of(
            field(line, worker, 0, 7),
            field(line, thread, 0, 63),
            field(line, steps, 1, 256),
        ),
        _ => None,
    }
}

/// What a line says.
fn read_line(alloc: Global, line: &[u8]) -> Result<Said, AllocError>
    ensures { IfOk result (Says line.now) }
{
    let tokens = match line_tokens(alloc, line)? {
        Ok(tokens) => tokens,
        Err(_) => return Ok(Said::Other),
    };
    if tokens.is_empty() {
        return Ok(Said::Nothing);
    }
    match entry(line, tokens.as_slice()) {
        Some(entry) => Ok(Said::One(entry)),
        None => Ok(Said::Other),
    }
}

/// The schedule of these lines, the first of which has the number `first`. A line is three numbers: the worker, 0 to 7,
/// the thread, 0 to 63, and the steps, 1 to 256. Blank lines and comments are passed over.
///
/// # Errors
///
/// `BadLogLine` with the first line that is none of this, or want of memory.
pub fn read_log(alloc: Global, lines: &[Text], first: u32) -> Result<Vec<Entry>, LogError>
    requires { first + length lines.now < 2 ^ 32 }
    ensures { MatchResult result (λ v. Reads first lines.now (Ok v.items)) (λ e. Refuses e first lines.now) }
{
    let mut entries = Vec::new(alloc);
    let mut number = first;
    for line in lines {
        match read_line(alloc, line.bytes())? {
            Said::Nothing => {}
            Said::One(entry) => entries.push(entry)?,
            Said::Other => return Err(LogError::BadLogLine(number)),
        }
        number += 1;
    }
    Ok(entries)
}

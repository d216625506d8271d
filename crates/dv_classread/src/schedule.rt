// The schedule that stands behind the classes of a text.
ghost use Rattle.std.specs.Prelude.{◌≡◌, []};
ghost use Rattle.std.specs.List.{All};
ghost use Rattle.dv_lex.specs.Lines.{HasTokens, IsLineInside};
ghost use Rattle.dv_coderead.specs.Giving.{on_line, GivesLines, Reads};
ghost use Rattle.dv_coderead.specs.Operands.{after_first, ended};
ghost use Rattle.dv_coderead.specs.Pieces.{piece_in, pieces_in};
ghost use Rattle.dv_coderead.specs.Heads.{head_of};
ghost use Rattle.dv_coderead.specs.Kept.{text_line, text_lines, AreNumbered};
ghost use Rattle.dv_classread.specs.Schedules.{begins_schedule, entry_by, entry_in, field_in, log_from, log_line, nothing_behind, refusal_behind, schedule_from, CutsAt};

use crate::class_line::refusal_of;
use crate::lines::{as_error, ended, missing_at};
use dv_coderead::parts::{after_first, end};
use dv_coderead::words::literal;
use dv_coderead::{Directive, Head, Next, Piece, head_of, next_line, read_tokens};
use dv_defs::{Entry, LineError, LineKind};
use dv_lex::{Line, Stop};
use std::alloc::Global;

/// What a line of a schedule says.
#[derive(Clone, Copy, PartialEq, Eq, Debug)]
pub enum LogLine {
    Nothing,
    One(Entry),
    End,
}

// ---- entries

/// A number in this range, if the piece is one.
fn field(piece: &Piece, low: u32, high: u32) -> Option<u32>
    ensures { result ≡ field_in low high (piece_in piece.now) }
{
    let Piece::Word(word) = piece else {
        return None;
    };
    let Ok(number) = literal(*word, 64) else {
        return None;
    };
    let value = u32::try_from(number).ok()?;
    if low <= value && value <= high {
        Some(value)
    } else {
        None
    }
}

fn entry_of(worker: Option<u32>, thread: Option<u32>, steps: Option<u32>) -> Result<Entry, LineKind>
    ensures { result ≡ entry_by worker thread steps }
{
    let Some(worker) = worker else {
        return Err(LineKind::BadLogLine);
    };
    let Some(thread) = thread else {
        return Err(LineKind::BadLogLine);
    };
    let Some(steps) = steps else {
        return Err(LineKind::BadLogLine);
    };
    Ok(Entry {
        worker,
        thread,
        steps,
    })
}

/// A worker, a thread and a number of steps.
#[tactic(auto, unfolding(crate::specs::Schedules::entry_in))]
fn entry(pieces: &[Piece]) -> Result<Entry, LineKind>
    ensures { Reads (λ e. e) result (entry_in (pieces_in pieces.now)) }
{
    let [worker, thread, steps] = pieces else {
        return Err(LineKind::BadLogLine);
    };
    let worker = field(worker, 0, 7);
    let thread = field(thread, 0, 63);
    let steps = field(steps, 1, 256);
    entry_of(worker, thread, steps)
}

// ---- lines

/// What the pieces of a line say.
#[tactic(auto, unfolding(crate::specs::Schedules::log_line))]
fn line_said(head: Head, pieces: &[Piece]) -> Result<LogLine, LineKind>
    requires { head ≡ head_of (pieces_in pieces.now) }
    ensures { Reads (λ s. s) result (log_line (pieces_in pieces.now)) }
{
    match head {
        Head::Blank => Ok(LogLine::Nothing),
        Head::Directive(Directive::EndSchedule) => {
            end(after_first(after_first(pieces)))?;
            Ok(LogLine::End)
        }
        _ => Ok(LogLine::One(entry(pieces)?)),
    }
}

/// What a line of a schedule says.
fn log_line(alloc: Global, text: &[u8], line: &Line) -> Result<LogLine, LineError>
    requires inside { IsLineInside text.now line.now }
    requires tokens { HasTokens text.now line.now }
    ensures { let l = text_line text.now line.now in GivesLines (λ s. s) result (on_line l.number (log_line l.pieces)) }
{
    let head = head_of(text, line.tokens.items());
    let pieces = read_tokens(alloc, text, line.tokens.items())?;
    match line_said(head, &pieces) {
        Ok(says) => Ok(says),
        Err(kind) => Err(LineError::At {
            line: line.number,
            kind,
        }),
    }
}

fn refusal_behind(head: Head) -> LineKind
    ensures { result ≡ refusal_behind head }
{
    match head {
        Head::Directive(Directive::Schedule) => LineKind::Repeated,
        _ => refusal_of(head),
    }
}

/// The last lines of a text, which may only be passed over. The text ends with this fault, if it has one.
fn nothing_behind(
    text: &[u8],
    lines: &[Line],
    stop: Option<Stop>,
    past: u32,
) -> Result<(), LineError>
    requires { All (IsLineInside text.now) lines.now }
    ensures { GivesLines (λ nothing. []) result (nothing_behind stop past (text_lines text.now lines.now)) }
{
    let fault = match next_line(text, lines, 0) {
        Next::Line { at, head } => Some(Stop {
            line: lines[at].number,
            kind: refusal_behind(head),
        }),
        Next::End => stop,
        Next::Unfinished => Some(stop.unwrap_or(missing_at(past))),
    };
    match fault {
        Some(fault) => Err(as_error(fault)),
        None => Ok(()),
    }
}

/// The entries of these lines, up to the end of the schedule, behind which nothing more may stand.
fn entries(
    alloc: Global,
    text: &[u8],
    lines: &[Line],
    stop: Option<Stop>,
    past: u32,
) -> Result<Vec<Entry>, LineError>
    requires inside { All (IsLineInside text.now) lines.now }
    requires tokens { All (HasTokens text.now) lines.now }
    ensures { GivesLines (λ v. v.items) result (log_from stop past (text_lines text.now lines.now)) }
{
    let mut entries = Vec::new(alloc);
    let mut rest = lines;
    while let [line, behind @ ..] = rest {
        match log_line(alloc, text, line)? {
            LogLine::Nothing => {}
            LogLine::One(entry) => entries.push(entry)?,
            LogLine::End => {
                nothing_behind(text, behind, stop, past)?;
                return Ok(entries);
            }
        }
        rest = behind;
    }
    Err(as_error(stop.unwrap_or(missing_at(past))))
}

/// The schedule that begins with a line, before these. `past` is the number of the line behind the last.
///
/// # Errors
///
/// The first bad line, or want of memory.
pub fn read_schedule(
    alloc: Global,
    text: &[u8],
    first: &Line,
    lines: &[Line],
    stop: Option<Stop>,
    past: u32,
) -> Result<Vec<Entry>, LineError>
    requires inside { IsLineInside text.now first.now }
    requires tokens { HasTokens text.now first.now }
    requires all_inside { All (IsLineInside text.now) lines.now }
    requires all_tokens { All (HasTokens text.now) lines.now }
    ensures { GivesLines (λ v. v.items) result (schedule_from stop past (text_line text.now first.now) (text_lines text.now lines.now)) }
{
    let pieces = read_tokens(alloc, text, first.tokens.items())?;
    ended(first.number, after_first(&pieces))?;
    entries(alloc, text, lines, stop, past)
}

// ---- where it begins

fn begins_schedule(head: Head) -> bool
    ensures { result ≡ begins_schedule head }
{
    matches!(head, Head::Directive(Directive::Schedule))
}

/// The place of the line at which the schedule begins, if there is one.
pub fn schedule_place(text: &[u8], lines: &[Line]) -> Option<usize>
    requires inside { All (IsLineInside text.now) lines.now }
    requires numbered { AreNumbered 1 lines.now }
    ensures { CutsAt text.now lines.now result }
{
    let mut at = 0;
    loop {
        let Next::Line { at: place, head } = next_line(text, lines, at) else {
            return None;
        };
        if begins_schedule(head) {
            return Some(place);
        }
        at = place + 1;
    }
}

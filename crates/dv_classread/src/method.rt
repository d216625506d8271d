// A method, read from its lines.
ghost use Rattle.std.specs.Prelude.{◌≡◌, ◌≤◌, drop, length, nat_lt, if◌then◌else◌};
ghost use Rattle.std.specs.List.{All};
ghost use Rattle.dv_lex.specs.Lines.{HasTokens, IsLineInside};
ghost use Rattle.dv_coderead.specs.Giving.{on_line, GivesLines, Stops};
ghost use Rattle.dv_coderead.specs.Operands.{after_first, ended};
ghost use Rattle.dv_coderead.specs.Kept.{kept, kept_from, open_behind, text_line, text_lines, AreNumbered};
ghost use Rattle.dv_coderead.specs.Bodies.{number_behind, HasNext};
ghost use Rattle.dv_classread.specs.Methods.{begins_raw, is_count_head, is_raw_head, kind_of, method_from};
ghost use Rattle.dv_classread.specs.Texts.{ends_method, leaves_method, left_at, Ends, EndsBefore, EndsWhole, IsWhole, of_signature};

use crate::class_line::Signature;
use crate::lines::{as_error, ended, missing_at};
use crate::program::{BodyDraft, MethodDraft};
use dv_coderead::parts::after_first;
use dv_coderead::{Block, Directive, Head, Next, next_line, read_body, read_raw, read_tokens};
use dv_defs::{Flag, LineError};
use dv_lex::{Line, Stop};
use std::alloc::Global;

/// Of which kind a body is.
#[derive(Clone, Copy, PartialEq, Eq, Debug)]
pub enum BodyKind {
    Absent,
    Raw,
    Drafted,
}

/// Where a method ends: at a line that ends it, at one that leaves it unfinished, or nowhere.
#[derive(Clone, Copy, PartialEq, Eq, Debug)]
pub enum MethodEnd {
    Ended(usize),
    Left(usize),
    CutOff,
}

// ---- bodies

fn is_count_head(head: Head) -> bool
    ensures { result ≡ is_count_head head }
{
    matches!(head, Head::Directive(Directive::Registers))
}

fn is_raw_head(head: Head) -> bool
    ensures { result ≡ is_raw_head head }
{
    matches!(
        head,
        Head::Directive(Directive::Rawref | Directive::Begin(Block::Units))
    )
}

/// Whether a line of a raw body comes next.
fn begins_raw(text: &[u8], lines: &[Line], from: usize) -> bool
    requires inside { All (IsLineInside text.now) lines.now }
    requires place { from ≤ length lines.now }
    ensures { result ≡ begins_raw (kept_from text.now lines.now from) }
{
    match next_line(text, lines, from) {
        Next::Line { head, .. } => is_raw_head(head),
        _ => false,
    }
}

/// Of which kind the body of these lines is.
#[tactic(auto, unfolding(crate::specs::Methods::kind_of))]
fn body_kind(text: &[u8], lines: &[Line]) -> BodyKind
    requires { All (IsLineInside text.now) lines.now }
    ensures { result ≡ kind_of (kept 0 (text_lines text.now lines.now)) }
{
    match next_line(text, lines, 0) {
        Next::Line { at, head } => {
            if is_count_head(head) && begins_raw(text, lines, at + 1) {
                BodyKind::Raw
            } else {
                BodyKind::Drafted
            }
        }
        _ => BodyKind::Absent,
    }
}

/// The body of a method, if it has one. Its lines stand between the first and the last of the method.
fn method_body(
    alloc: Global,
    text: &[u8],
    lines: &[Line],
    signature: &Signature,
) -> Result<Option<BodyDraft>, LineError>
    requires inside { All (IsLineInside text.now) lines.now }
    requires tokens { All (HasTokens text.now) lines.now }
    requires numbers { All HasNext lines.now }
    ensures { let ls = text_lines text.now lines.now in GivesLines (λ b. b) result (method_from signature.now (number_behind ls) (open_behind 0 ls) (kept 0 ls)) }
{
    match body_kind(text, lines) {
        BodyKind::Absent => Ok(None),
        BodyKind::Raw => Ok(Some(BodyDraft::Raw(read_raw(alloc, text, lines)?))),
        BodyKind::Drafted => {
            let is_static = Flag::Static.is_in(signature.flags);
            let draft = read_body(alloc, text, lines, &signature.proto, is_static)?;
            Ok(Some(BodyDraft::Drafted(draft)))
        }
    }
}

// ---- where it ends

fn ends_method(head: Head) -> bool
    ensures { result ≡ ends_method head }
{
    matches!(head, Head::Directive(Directive::EndMethod))
}

fn leaves_method(head: Head) -> bool
    ensures { result ≡ leaves_method head }
{
    matches!(
        head,
        Head::Directive(Directive::Method | Directive::Class | Directive::Schedule)
    )
}

/// Where a method ends whose first line stands before the place `from`.
fn method_end(text: &[u8], lines: &[Line], from: usize) -> MethodEnd
    requires inside { All (IsLineInside text.now) lines.now }
    requires place { from ≤ length lines.now }
    requires numbered { AreNumbered 1 lines.now }
    ensures { Ends text.now lines.now from result }
{
    let mut at = from;
    loop {
        match next_line(text, lines, at) {
            Next::Line { at: place, head } => {
                if ends_method(head) {
                    return MethodEnd::Ended(place);
                }
                if leaves_method(head) {
                    return MethodEnd::Left(place);
                }
                at = place + 1;
            }
            _ => return MethodEnd::CutOff,
        }
    }
}

// ---- methods

/// The earlier of a fault and a bad line.
fn earlier(fault: Stop, bad: Stop) -> Stop
    ensures { result ≡ (if nat_lt bad.line fault.line then bad else fault) }
{
    if bad.line < fault.line { bad } else { fault }
}

/// Why a method with these lines is bad, which is left or cut off with a fault on the line behind them.
fn left(alloc: Global, text: &[u8], lines: &[Line], signature: &Signature, fault: Stop) -> LineError
    requires inside { All (IsLineInside text.now) lines.now }
    requires tokens { All (HasTokens text.now) lines.now }
    requires numbers { All HasNext lines.now }
    requires behind { EndsBefore fault.line (text_lines text.now lines.now) }
    ensures { Stops result (left_at fault signature.now (kept 0 (text_lines text.now lines.now))) }
{
    match method_body(alloc, text, lines, signature) {
        Ok(body) => {
            drop(body);
            as_error(fault)
        }
        Err(LineError::At { line, kind }) => as_error(earlier(fault, Stop { line, kind })),
        Err(LineError::Memory) => LineError::Memory,
    }
}

/// The last line of a method, on which nothing else stands.
fn last_line(alloc: Global, text: &[u8], line: &Line) -> Result<(), LineError>
    requires inside { IsLineInside text.now line.now }
    requires tokens { HasTokens text.now line.now }
    ensures { let l = text_line text.now line.now in GivesLines (λ nothing. record {}) result (on_line l.number (ended (after_first (after_first l.pieces)))) }
{
    let pieces = read_tokens(alloc, text, line.tokens.items())?;
    ended(line.number, after_first(after_first(&pieces)))
}

/// The place of a method's last line, or why the method is left unfinished.
fn whole_end(
    alloc: Global,
    text: &[u8],
    lines: &[Line],
    from: usize,
    signature: &Signature,
    fault: Stop,
) -> Result<usize, LineError>
    requires inside { All (IsLineInside text.now) lines.now }
    requires tokens { All (HasTokens text.now) lines.now }
    requires numbers { All HasNext lines.now }
    requires numbered { AreNumbered 1 lines.now }
    requires place { from ≤ length lines.now }
    requires behind { EndsBefore fault.line (text_lines text.now lines.now) }
    ensures { EndsWhole text.now lines.now from signature.now fault result }
{
    match method_end(text, lines, from) {
        MethodEnd::Ended(at) => Ok(at),
        MethodEnd::Left(at) => {
            let fault = missing_at(lines[at].number);
            Err(left(alloc, text, &lines[from..at], signature, fault))
        }
        MethodEnd::CutOff => Err(left(alloc, text, &lines[from..], signature, fault)),
    }
}

/// The body of a method from the place behind its first line on, with the place behind its last one.
fn whole_body(
    alloc: Global,
    text: &[u8],
    lines: &[Line],
    from: usize,
    signature: &Signature,
    fault: Stop,
) -> Result<(Option<BodyDraft>, usize), LineError>
    requires inside { All (IsLineInside text.now) lines.now }
    requires tokens { All (HasTokens text.now) lines.now }
    requires numbers { All HasNext lines.now }
    requires numbered { AreNumbered 1 lines.now }
    requires place { from ≤ length lines.now }
    requires behind { EndsBefore fault.line (text_lines text.now lines.now) }
    ensures { IsWhole text.now lines.now from signature.now fault (of_signature signature.now result) }
{
    let at = whole_end(alloc, text, lines, from, signature, fault)?;
    let body = method_body(alloc, text, &lines[from..at], signature)?;
    match last_line(alloc, text, &lines[at]) {
        Ok(()) => Ok((body, at + 1)),
        Err(error) => {
            drop(body);
            Err(error)
        }
    }
}

/// A method from the place behind its first line on, with the place behind its last one. Where the text ends within it,
/// this fault is told.
pub fn whole_method(
    alloc: Global,
    text: &[u8],
    lines: &[Line],
    from: usize,
    signature: Signature,
    fault: Stop,
) -> Result<(MethodDraft, usize), LineError>
    requires inside { All (IsLineInside text.now) lines.now }
    requires tokens { All (HasTokens text.now) lines.now }
    requires numbers { All HasNext lines.now }
    requires numbered { AreNumbered 1 lines.now }
    requires place { from ≤ length lines.now }
    requires behind { EndsBefore fault.line (text_lines text.now lines.now) }
    ensures { IsWhole text.now lines.now from signature fault result }
{
    let (body, next) = whole_body(alloc, text, lines, from, &signature, fault)?;
    Ok((MethodDraft { signature, body }, next))
}

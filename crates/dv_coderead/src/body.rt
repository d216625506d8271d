// The draft of a method's body, read from its lines.
ghost use Rattle.std.specs.Prelude.{◌≡◌, ℕ, List, IfOk, IfSome};
ghost use Rattle.std.specs.List.{All};
ghost use Rattle.dv_defs.specs.Types.{words_of};
ghost use Rattle.dv_lex.specs.Lines.{HasTokens, IsLineInside};
ghost use Rattle.dv_coderead.specs.Giving.{on_line, GivesLines};
ghost use Rattle.dv_coderead.specs.Heads.{head_of};
ghost use Rattle.dv_coderead.specs.Kept.{text_line, text_lines};
ghost use Rattle.dv_coderead.specs.BodyLines.{body_line, HasWidth, IsLine, StandsIn};
ghost use Rattle.dv_coderead.specs.Drafting.{IsDrafting, Takes};
ghost use Rattle.dv_coderead.specs.Bodies.{argument_words, body_of, number_behind, HasNext};

use crate::Refusal;
use crate::body_line::{BodyLine, Context, body_line};
use crate::drafting::{Drafting, missing};
use crate::head::Head;
use crate::kept::{Next, next_line};
use crate::pieces::read_tokens;
use dv_defs::{Base, LineError, Proto, Ty};
use dv_draft::Draft;
use dv_lex::Line;
use std::alloc::Global;

/// How many words a value of this type takes.
fn words_of(ty: &Ty) -> u64
    ensures { result ≡ words_of ty.now }
{
    match (ty.dims, &ty.base) {
        (0, Base::J) => 2,
        _ => 1,
    }
}

/// How many words the arguments of a method take, its receiver among them.
pub fn argument_words(proto: &Proto, is_static: bool) -> u64
    ensures { result ≡ argument_words proto.now is_static }
{
    let mut words: u64 = if is_static { 0 } else { 1 };
    for ty in proto.params.items() {
        words += words_of(ty);
    }
    words
}

/// The number of the line behind these.
pub fn number_behind(lines: &[Line]) -> u32
    requires { All HasNext lines.now }
    ensures { (text : List ℕ) → result ≡ number_behind (text_lines text lines.now) }
{
    match lines.last() {
        Some(line) => line.number + 1,
        None => 1,
    }
}

/// What a line of a method says.
fn told(
    alloc: Global,
    text: &[u8],
    arguments: u64,
    before: Context,
    line: &Line,
    head: Head,
) -> Result<BodyLine, LineError>
    requires inside { IsLineInside text.now line.now }
    requires tokens { HasTokens text.now line.now }
    requires head { head ≡ head_of (text_line text.now line.now).pieces }
    requires block { IfSome before.block HasWidth }
    ensures exact { GivesLines (λ s. s) result (on_line line.now.number (body_line arguments before line.now.number (text_line text.now line.now).pieces)) }
    ensures formed { IfOk result IsLine }
    ensures fits { IfOk result (StandsIn before.block) }
{
    let pieces = read_tokens(alloc, text, line.tokens.items())?;
    match body_line(alloc, arguments, before, line.number, head, &pieces) {
        Ok(says) => Ok(says),
        Err(Refusal::Fault(kind)) => Err(LineError::At {
            line: line.number,
            kind,
        }),
        Err(Refusal::Memory) => Err(LineError::Memory),
    }
}

/// Reads a line of a method, and adds what it says.
fn read_line(
    alloc: Global,
    text: &[u8],
    arguments: u64,
    drafting: &mut Drafting,
    line: &Line,
    head: Head,
) -> Result<(), LineError>
    requires drafting { IsDrafting drafting.old }
    requires inside { IsLineInside text.now line.now }
    requires tokens { HasTokens text.now line.now }
    requires head { head ≡ head_of (text_line text.now line.now).pieces }
    ensures { Takes line.now.number drafting.old
        (on_line line.now.number (body_line arguments drafting.old.context line.now.number (text_line text.now line.now).pieces)) result drafting.new }
{
    let says = told(alloc, text, arguments, drafting.context, line, head)?;
    drafting.add(alloc, line.number, says)?;
    Ok(())
}

/// The draft that the lines of a method give: those between its `.method` and its `.end method`.
///
/// # Errors
///
/// The first bad line with its leftmost fault, or `Missing` at the line behind the last, where there is no count of
/// registers, or a block or an annotation is left open. Or want of memory.
pub fn read_body(
    alloc: Global,
    text: &[u8],
    lines: &[Line],
    proto: &Proto,
    is_static: bool,
) -> Result<Draft, LineError>
    requires inside { All (IsLineInside text.now) lines.now }
    requires tokens { All (HasTokens text.now) lines.now }
    requires numbers { All HasNext lines.now }
    ensures { GivesLines (λ d. d) result (body_of (argument_words proto.now is_static) (text_lines text.now lines.now)) }
{
    let arguments = argument_words(proto, is_static);
    let mut drafting = Drafting::new(alloc);
    let mut at = 0;
    loop {
        match next_line(text, lines, at) {
            Next::Line { at: place, head } => {
                match read_line(alloc, text, arguments, &mut drafting, &lines[place], head) {
                    Ok(()) => at = place + 1,
                    Err(error) => {
                        drop(drafting);
                        return Err(error);
                    }
                }
            }
            Next::End => return drafting.finish(number_behind(lines)),
            Next::Unfinished => {
                drop(drafting);
                return Err(missing(number_behind(lines)));
            }
        }
    }
}

// What a line of a method says.
ghost use Rattle.std.specs.Prelude.{◌≡◌, ◌≤◌, ℕ, Option, None, IfOk, IfSome, IsTrue};
ghost use Rattle.dv_defs.specs.Tiling.{is_width};
ghost use Rattle.dv_coderead.specs.Giving.{Gives, Reads};
ghost use Rattle.dv_coderead.specs.Pieces.{piece_in, pieces_in};
ghost use Rattle.dv_coderead.specs.Heads.{head_of};
ghost use Rattle.dv_coderead.specs.Words.{label_in};
ghost use Rattle.dv_coderead.specs.References.{class_in};
ghost use Rattle.dv_coderead.specs.Operands.{after_first, word_at};
ghost use Rattle.dv_coderead.specs.BodyLines.{arrow_at, begin_line, begins_with_number, body_line, case_line, catch_line, count_from, count_in, data_begin, data_line, directive_line, directive_refusal, element_in, elements_in, end_line, frame_line, handler_line, key_in, label_line, method_line, packed_begin, packed_line, refusal_of, registers_line, sparse_begin, sparse_line, width_from, width_in, HasWidth, IsHead, IsLine, StandsIn};

use crate::head::{Block, Directive, Head};
use crate::operands::read_operands;
use crate::parts::{after_first, dots, end, mark};
use crate::pieces::Piece;
use crate::words::{self, Frame};
use crate::{Refusal, references};
use dv_defs::{LineKind, Seq, Text, Ty};
use dv_draft::{Catch, Draftop};
use dv_lex::{is_number, number};
use std::alloc::Global;

/// How a payload begins: a packed switch with its first key, a sparse switch, or an array with the width of its
/// elements in bytes.
#[derive(Clone, Copy)]
pub enum Opening {
    Packed(i32),
    Sparse,
    Data(u16),
}

/// What the lines before a line have told: how many registers there are, and which block is open.
#[derive(Clone, Copy)]
pub struct Context {
    pub frame: Option<Frame>,
    pub block: Option<Opening>,
}

/// What a line of a method says.
#[derive(Drop)]
pub enum BodyLine {
    Registers(Frame),
    Label(Text),
    Op(Draftop),
    Handler(Catch),
    Begin(Opening),
    /// A label in a packed switch.
    Target(Text),
    /// A key and its label in a sparse switch.
    Case(i32, Text),
    /// Elements of an array.
    Elements(Seq<i64>),
    /// The end of a block.
    End,
}

// ---- words

/// So many registers and as many more: 256 at most.
fn count_from(number: i64, more: u64) -> Result<u32, LineKind>
    ensures exact { result ≡ count_from more number }
    ensures few { IfOk result (λ n. n ≤ 256) }
{
    if number < 0 {
        Err(LineKind::NumberRange)
    } else if more <= 256 && number <= 256 - more as i64 {
        Ok(number as u32 + more as u32)
    } else {
        Err(LineKind::TooManyRegisters)
    }
}

/// How many registers a word counts, with so many more.
fn count(word: &[u8], more: u64) -> Result<u32, LineKind>
    ensures exact { result ≡ count_in more word.now }
    ensures few { IfOk result (λ n. n ≤ 256) }
{
    if !is_number(word) {
        return Err(LineKind::Operands);
    }
    match number(word, 48, 0) {
        Ok(number) => count_from(number, more),
        Err(_) if word.starts_with(b"-") => Err(LineKind::NumberRange),
        Err(_) => Err(LineKind::TooManyRegisters),
    }
}

/// The key of a switch, a number of 32 bits.
fn key(word: &[u8]) -> Result<i32, LineKind>
    ensures { result ≡ key_in word.now }
{
    Ok(words::literal(word, 32)? as i32)
}

fn width_from(number: i64) -> Result<u16, LineKind>
    ensures exact { result ≡ width_from number }
    ensures width { IfOk result (λ w. IsTrue (is_width w)) }
{
    match number {
        1 => Ok(1),
        2 => Ok(2),
        4 => Ok(4),
        8 => Ok(8),
        _ => Err(LineKind::NumberRange),
    }
}

/// The width of an array's elements in bytes.
fn width(word: &[u8]) -> Result<u16, LineKind>
    ensures exact { result ≡ width_in word.now }
    ensures width { IfOk result (λ w. IsTrue (is_width w)) }
{
    width_from(words::literal(word, 33)?)
}

// ---- parts of a line: each with the pieces behind it

pub fn count_part<'a, 'b>(
    more: u64,
    pieces: &'b [Piece<'a>],
) -> Result<(u32, &'b [Piece<'a>]), LineKind>
    ensures exact { Reads (λ x. (x.0, pieces_in x.1.now)) result (word_at (count_in more) (pieces_in pieces.now)) }
    ensures few { IfOk result (λ x. x.0 ≤ 256) }
{
    let [first, rest @ ..] = pieces else {
        return Err(LineKind::Operands);
    };
    match first {
        Piece::Word(word) => Ok((count(*word, more)?, rest)),
        _ => Err(LineKind::Operands),
    }
}

fn key_part<'a, 'b>(pieces: &'b [Piece<'a>]) -> Result<(i32, &'b [Piece<'a>]), LineKind>
    ensures { Reads (λ x. (x.0, pieces_in x.1.now)) result (word_at key_in (pieces_in pieces.now)) }
{
    let [first, rest @ ..] = pieces else {
        return Err(LineKind::Operands);
    };
    match first {
        Piece::Word(word) => Ok((key(*word)?, rest)),
        _ => Err(LineKind::Operands),
    }
}

fn label_part<'a, 'b>(
    alloc: Global,
    pieces: &'b [Piece<'a>],
) -> Result<(Text, &'b [Piece<'a>]), Refusal>
    ensures { Gives (λ x. (x.0, pieces_in x.1.now)) result (word_at label_in (pieces_in pieces.now)) }
{
    let [first, rest @ ..] = pieces else {
        return Err(Refusal::Fault(LineKind::Operands));
    };
    match first {
        Piece::Word(word) => Ok((words::label(alloc, *word)?, rest)),
        _ => Err(Refusal::Fault(LineKind::Operands)),
    }
}

fn class_part<'a, 'b>(
    alloc: Global,
    pieces: &'b [Piece<'a>],
) -> Result<(Ty, &'b [Piece<'a>]), Refusal>
    ensures { Gives (λ x. (x.0, pieces_in x.1.now)) result (word_at class_in (pieces_in pieces.now)) }
{
    let [first, rest @ ..] = pieces else {
        return Err(Refusal::Fault(LineKind::Operands));
    };
    match first {
        Piece::Word(word) => Ok((references::class(alloc, *word)?, rest)),
        _ => Err(Refusal::Fault(LineKind::Operands)),
    }
}

/// What stands behind the arrow.
fn arrow<'a, 'b>(pieces: &'b [Piece<'a>]) -> Result<&'b [Piece<'a>], LineKind>
    ensures { Reads (λ rest. pieces_in rest.now) result (arrow_at (pieces_in pieces.now)) }
{
    let [first, rest @ ..] = pieces else {
        return Err(LineKind::Operands);
    };
    match first {
        Piece::Word(word) if *word == b"->".as_slice() => Ok(rest),
        _ => Err(LineKind::Operands),
    }
}

// ---- what stands behind a directive, or is a line whole

/// The count of registers that is `more` than the line's.
#[tactic(auto, unfolding(crate::specs::BodyLines::frame_line))]
fn frame_line(arguments: u64, more: u64, pieces: &[Piece]) -> Result<Frame, LineKind>
    ensures exact { Reads (λ f. f) result (frame_line arguments more (pieces_in pieces.now)) }
    ensures few { IfOk result (λ f. f.registers ≤ 256) }
{
    let (registers, rest) = count_part(more, pieces)?;
    end(rest)?;
    Ok(Frame {
        registers,
        arguments,
    })
}

#[tactic(auto, unfolding(crate::specs::BodyLines::label_line))]
fn label_line(alloc: Global, pieces: &[Piece]) -> Result<Text, Refusal>
    ensures { Gives (λ name. name) result (label_line (pieces_in pieces.now)) }
{
    let (name, rest) = label_part(alloc, pieces)?;
    end(rest)?;
    Ok(name)
}

/// Where the range of a handler in braces begins and ends, and its label.
#[tactic(auto, unfolding(crate::specs::BodyLines::handler_line))]
fn handler_labels(alloc: Global, pieces: &[Piece]) -> Result<(Text, Text, Text), Refusal>
    ensures { (line : ℕ) (kind : Option Ty) → Gives (λ x. record { line = line; kind = kind; from = x.0; to = x.1; at = x.2 }) result (handler_line line kind (pieces_in pieces.now)) }
{
    let inside = mark(b'{', pieces)?;
    let (from, rest) = label_part(alloc, inside)?;
    let rest = dots(rest)?;
    let (to, rest) = label_part(alloc, rest)?;
    let outside = mark(b'}', rest)?;
    let at = label_line(alloc, outside)?;
    Ok((from, to, at))
}

/// The range of a handler in braces, and its label.
fn handler_line(
    alloc: Global,
    line: u32,
    kind: Option<Ty>,
    pieces: &[Piece],
) -> Result<Catch, Refusal>
    ensures { Gives (λ c. c) result (handler_line line kind (pieces_in pieces.now)) }
{
    match handler_labels(alloc, pieces) {
        Ok((from, to, at)) => Ok(Catch {
            line,
            kind,
            from,
            to,
            at,
        }),
        Err(error) => {
            drop(kind);
            Err(error)
        }
    }
}

#[tactic(auto, unfolding(crate::specs::BodyLines::catch_line))]
fn catch_line(alloc: Global, line: u32, pieces: &[Piece]) -> Result<Catch, Refusal>
    ensures { Gives (λ c. c) result (catch_line line (pieces_in pieces.now)) }
{
    let (class, rest) = class_part(alloc, pieces)?;
    handler_line(alloc, line, Some(class), rest)
}

#[tactic(auto, unfolding(crate::specs::BodyLines::packed_begin))]
fn packed_begin(pieces: &[Piece]) -> Result<Opening, LineKind>
    ensures exact { Reads (λ o. o) result (packed_begin (pieces_in pieces.now)) }
    ensures width { IfOk result HasWidth }
{
    let (first, rest) = key_part(pieces)?;
    end(rest)?;
    Ok(Opening::Packed(first))
}

#[tactic(auto, unfolding(crate::specs::BodyLines::sparse_begin))]
fn sparse_begin(pieces: &[Piece]) -> Result<Opening, LineKind>
    ensures exact { Reads (λ o. o) result (sparse_begin (pieces_in pieces.now)) }
    ensures width { IfOk result HasWidth }
{
    end(pieces)?;
    Ok(Opening::Sparse)
}

#[tactic(auto, unfolding(crate::specs::BodyLines::data_begin))]
fn data_begin(pieces: &[Piece]) -> Result<Opening, LineKind>
    ensures exact { Reads (λ o. o) result (data_begin (pieces_in pieces.now)) }
    ensures width { IfOk result HasWidth }
{
    let [first, rest @ ..] = pieces else {
        return Err(LineKind::Operands);
    };
    let Piece::Word(word) = first else {
        return Err(LineKind::Operands);
    };
    let width = width(*word)?;
    end(rest)?;
    Ok(Opening::Data(width))
}

/// The first line of a block, behind its directive.
fn begin_line(block: Block, pieces: &[Piece]) -> Result<Opening, LineKind>
    ensures exact { Reads (λ o. o) result (begin_line block (pieces_in pieces.now)) }
    ensures width { IfOk result HasWidth }
{
    match block {
        Block::Packed => packed_begin(pieces),
        Block::Sparse => sparse_begin(pieces),
        Block::Data => data_begin(pieces),
        Block::Units => Err(LineKind::Misplaced),
    }
}

#[tactic(auto, unfolding(crate::specs::BodyLines::case_line))]
fn case_line(alloc: Global, pieces: &[Piece]) -> Result<(i32, Text), Refusal>
    ensures { Gives (λ c. c) result (case_line (pieces_in pieces.now)) }
{
    let (key, rest) = key_part(pieces)?;
    let rest = arrow(rest)?;
    let name = label_line(alloc, rest)?;
    Ok((key, name))
}

/// An element of an array, of so many bytes.
fn element(width: u16, piece: &Piece) -> Result<i64, LineKind>
    requires { IsTrue (is_width width) }
    ensures { result ≡ element_in width (piece_in piece.now) }
{
    match piece {
        Piece::Word(word) => words::literal(*word, 8 * u32::from(width)),
        _ => Err(LineKind::Operands),
    }
}

/// The elements up to the end of the line, each of so many bytes.
fn elements(alloc: Global, width: u16, pieces: &[Piece]) -> Result<Vec<i64>, Refusal>
    requires { IsTrue (is_width width) }
    ensures { Gives (λ zs. zs.items) result (elements_in width (pieces_in pieces.now)) }
{
    let mut elements = Vec::new(alloc);
    for piece in pieces {
        elements.push(element(width, piece)?)?;
    }
    Ok(elements)
}

// ---- lines that may not stand where they stand

fn directive_refusal(directive: Directive) -> LineKind
    ensures { result ≡ directive_refusal directive }
{
    match directive {
        Directive::EndMethod | Directive::Method | Directive::Class | Directive::Schedule => {
            LineKind::Missing
        }
        Directive::OtherEnd => LineKind::Operands,
        Directive::Other => LineKind::UnknownDirective,
        _ => LineKind::Misplaced,
    }
}

pub fn refusal_of(head: Head) -> LineKind
    ensures { result ≡ refusal_of head }
{
    match head {
        Head::Directive(directive) => directive_refusal(directive),
        Head::Float => LineKind::FloatInsn,
        Head::Other => LineKind::UnknownInsn,
        _ => LineKind::Misplaced,
    }
}

// ---- lines of a method

/// The count of registers, which is told once.
fn registers_line(
    frame: Option<Frame>,
    arguments: u64,
    more: u64,
    pieces: &[Piece],
) -> Result<BodyLine, LineKind>
    ensures exact { Reads (λ l. l) result (registers_line frame arguments more (pieces_in pieces.now)) }
    ensures formed { IfOk result IsLine }
    ensures fits { IfOk result (StandsIn None) }
{
    if frame.is_some() {
        return Err(LineKind::Repeated);
    }
    Ok(BodyLine::Registers(frame_line(arguments, more, pieces)?))
}

fn directive_line(
    alloc: Global,
    arguments: u64,
    frame: Option<Frame>,
    line: u32,
    directive: Directive,
    pieces: &[Piece],
) -> Result<BodyLine, Refusal>
    ensures exact { Gives (λ l. l) result (directive_line arguments frame line directive (pieces_in pieces.now)) }
    ensures formed { IfOk result IsLine }
    ensures fits { IfOk result (StandsIn None) }
{
    match directive {
        Directive::Registers => Ok(registers_line(frame, arguments, 0, pieces)?),
        Directive::Locals => Ok(registers_line(frame, arguments, arguments, pieces)?),
        Directive::Catch => Ok(BodyLine::Handler(catch_line(alloc, line, pieces)?)),
        Directive::Catchall => Ok(BodyLine::Handler(handler_line(alloc, line, None, pieces)?)),
        Directive::Begin(block) => Ok(BodyLine::Begin(begin_line(block, pieces)?)),
        _ => Err(Refusal::Fault(directive_refusal(directive))),
    }
}

/// A line outside blocks. Labels and instructions stand behind the count of registers.
fn method_line(
    alloc: Global,
    arguments: u64,
    frame: Option<Frame>,
    line: u32,
    head: Head,
    pieces: &[Piece],
) -> Result<BodyLine, Refusal>
    requires { IsHead head }
    ensures exact { Gives (λ l. l) result (method_line arguments frame line head (pieces_in pieces.now)) }
    ensures formed { IfOk result IsLine }
    ensures fits { IfOk result (StandsIn None) }
{
    match (head, frame) {
        (Head::Directive(directive), _) => {
            directive_line(
                alloc,
                arguments,
                frame,
                line,
                directive,
                after_first(pieces),
            )
        }
        (Head::Label, Some(_)) => match label_line(alloc, pieces) {
            Ok(name) => Ok(BodyLine::Label(name)),
            Err(error) => Err(error),
        },
        (Head::Opcode(op), Some(frame)) => match read_operands(
            alloc,
            frame,
            op,
            after_first(pieces),
        ) {
            Ok(op) => Ok(BodyLine::Op(op)),
            Err(error) => Err(error),
        },
        _ => Err(Refusal::Fault(refusal_of(head))),
    }
}

/// The last line of a block.
fn end_line(pieces: &[Piece]) -> Result<BodyLine, LineKind>
    ensures { Reads (λ l. l) result (end_line (pieces_in pieces.now)) }
{
    end(after_first(after_first(pieces)))?;
    Ok(BodyLine::End)
}

fn packed_line(alloc: Global, head: Head, pieces: &[Piece]) -> Result<BodyLine, Refusal>
    ensures exact { Gives (λ l. l) result (packed_line head (pieces_in pieces.now)) }
    ensures formed { IfOk result IsLine }
{
    match head {
        Head::Label => match label_line(alloc, pieces) {
            Ok(name) => Ok(BodyLine::Target(name)),
            Err(error) => Err(error),
        },
        Head::Directive(Directive::End(Block::Packed)) => Ok(end_line(pieces)?),
        _ => Err(Refusal::Fault(refusal_of(head))),
    }
}

fn begins_with_number(pieces: &[Piece]) -> bool
    ensures { result ≡ begins_with_number (pieces_in pieces.now) }
{
    let [first, ..] = pieces else {
        return false;
    };
    match first {
        Piece::Word(word) => is_number(*word),
        _ => false,
    }
}

fn sparse_line(alloc: Global, head: Head, pieces: &[Piece]) -> Result<BodyLine, Refusal>
    ensures exact { Gives (λ l. l) result (sparse_line head (pieces_in pieces.now)) }
    ensures formed { IfOk result IsLine }
{
    match head {
        Head::Other if begins_with_number(pieces) => {
            let (key, name) = case_line(alloc, pieces)?;
            Ok(BodyLine::Case(key, name))
        }
        Head::Directive(Directive::End(Block::Sparse)) => Ok(end_line(pieces)?),
        _ => Err(Refusal::Fault(refusal_of(head))),
    }
}

fn data_line(alloc: Global, width: u16, head: Head, pieces: &[Piece]) -> Result<BodyLine, Refusal>
    requires { IsTrue (is_width width) }
    ensures exact { Gives (λ l. l) result (data_line width head (pieces_in pieces.now)) }
    ensures formed { IfOk result IsLine }
{
    match head {
        Head::Other if begins_with_number(pieces) => match elements(alloc, width, pieces) {
            Ok(elements) => Ok(BodyLine::Elements(Seq::of(elements))),
            Err(error) => Err(error),
        },
        Head::Directive(Directive::End(Block::Data)) => Ok(end_line(pieces)?),
        _ => Err(Refusal::Fault(refusal_of(head))),
    }
}

/// What a line of a method says, whose arguments take so many words.
///
/// # Errors
///
/// The line's leftmost fault, where the lines before it told so much; or want of memory.
#[tactic(auto, unfolding(crate::specs::BodyLines::body_line))]
pub fn body_line(
    alloc: Global,
    arguments: u64,
    before: Context,
    line: u32,
    head: Head,
    pieces: &[Piece],
) -> Result<BodyLine, Refusal>
    requires head { head ≡ head_of (pieces_in pieces.now) }
    requires block { IfSome before.block HasWidth }
    ensures exact { Gives (λ l. l) result (body_line arguments before line (pieces_in pieces.now)) }
    ensures formed { IfOk result IsLine }
    ensures fits { IfOk result (StandsIn before.block) }
{
    match before.block {
        None => method_line(alloc, arguments, before.frame, line, head, pieces),
        Some(Opening::Packed(_)) => packed_line(alloc, head, pieces),
        Some(Opening::Sparse) => sparse_line(alloc, head, pieces),
        Some(Opening::Data(width)) => data_line(alloc, width, head, pieces),
    }
}

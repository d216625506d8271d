// What a line of a raw body says.
ghost use Rattle.std.specs.Prelude.{◌≡◌, ◌+◌, ◌≤◌, ◌<◌, length, true, is_some, IfOk, IsTrue};
ghost use Rattle.dv_coderead.specs.declared.raw_line.RawPlace.TheVariants as place;
ghost use Rattle.dv_lex.specs.Bytes.{is_hexadecimal};
ghost use Rattle.dv_lex.specs.Literals.{digit_value};
ghost use Rattle.dv_lex.specs.Numbers.{value_from};
ghost use Rattle.dv_coderead.specs.Giving.{Gives, Reads};
ghost use Rattle.dv_coderead.specs.Pieces.{piece_in, pieces_in};
ghost use Rattle.dv_coderead.specs.Heads.{head_of};
ghost use Rattle.dv_coderead.specs.Operands.{word_at};
ghost use Rattle.dv_coderead.specs.References.{cut_at};
ghost use Rattle.dv_coderead.specs.RawLines.{address_from, address_in, again_or_refused, among_units, begins_with_unit, caught_in, entry_by_shape, entry_line, is_count, is_unit, last_line, member_in, pools_line, raw_handler_line, raw_line, raw_registers_line, start_line, units_in, units_line, AreFew, IsRawLine};
ghost use Rattle.dv_defs.specs.Body.{most_units};

use crate::body_line::{count_part, refusal_of};
use crate::head::{Block, Directive, Head};
use crate::parts::{after_first, end};
use crate::pieces::Piece;
use crate::{Refusal, references, words};
use dv_defs::{LineKind, Seq, Ty};
use dv_draft::PoolRef;
use std::alloc::Global;

/// How many units a method may have.
const MAX_UNITS: usize = 16_384;

/// Where a line of a raw body stands: before the count of registers, among the entries of the pools, among the units,
/// with so many before it, or behind these.
#[derive(Clone, Copy)]
pub enum RawPlace {
    Start,
    Pools,
    Units(u32),
    Behind,
}

/// A handler of a raw body: where its range begins and ends, its address, and the exceptions that it catches, all of
/// them where there is no type.
#[derive(Drop)]
pub struct RawHandler {
    pub start: u32,
    pub end: u32,
    pub at: u32,
    pub kind: Option<Ty>,
}

/// What a line of a raw body says.
#[derive(Drop)]
pub enum RawLine {
    Registers(u32),
    Entry(PoolRef),
    Begin,
    Units(Seq<u16>),
    End,
    Handler(RawHandler),
}

// ---- entries of pools

/// Whether a parenthesis stands behind the arrow.
fn is_method(behind: &[u8]) -> bool
    ensures { result ≡ is_some (cut_at 40 behind.now) }
{
    behind.contains(&b'(')
}

/// The method or the field that a word names, by what stands behind its arrow.
fn member(alloc: Global, word: &[u8], behind: &[u8]) -> Result<PoolRef, Refusal>
    ensures { Gives (λ r. r) result (member_in word.now behind.now) }
{
    if is_method(behind) {
        match references::method(alloc, word) {
            Ok(method) => Ok(PoolRef::Method(method)),
            Err(error) => Err(error),
        }
    } else {
        match references::field(alloc, word) {
            Ok(field) => Ok(PoolRef::Field(field)),
            Err(error) => Err(error),
        }
    }
}

/// The entry of a pool, by its shape.
#[tactic(auto, unfolding(crate::specs::RawLines::entry_by_shape))]
fn entry_by_shape(alloc: Global, piece: &Piece) -> Result<PoolRef, Refusal>
    ensures { Gives (λ r. r) result (entry_by_shape (piece_in piece.now)) }
{
    match piece {
        Piece::Str(units) => match units.clone() {
            Ok(units) => Ok(PoolRef::Str(units)),
            Err(error) => Err(error.into()),
        },
        Piece::Word(word) => match references::cut_at_arrow(*word) {
            Ok((_, behind)) => member(alloc, *word, behind),
            Err(_) => match references::ty(alloc, *word) {
                Ok(ty) => Ok(PoolRef::OfType(ty)),
                Err(error) => Err(error),
            },
        },
        _ => Err(Refusal::Fault(LineKind::Operands)),
    }
}

#[tactic(auto, unfolding(crate::specs::RawLines::entry_line))]
fn entry_line(alloc: Global, pieces: &[Piece]) -> Result<PoolRef, Refusal>
    ensures { Gives (λ r. r) result (entry_line (pieces_in pieces.now)) }
{
    let [first, rest @ ..] = pieces else {
        return Err(Refusal::Fault(LineKind::Operands));
    };
    let entry = entry_by_shape(alloc, first)?;
    match end(rest) {
        Ok(()) => Ok(entry),
        Err(fault) => {
            drop(entry);
            Err(Refusal::Fault(fault))
        }
    }
}

// ---- units

/// Whether the word is a unit: four hexadecimal digits.
fn is_unit(word: &[u8]) -> bool
    ensures { result ≡ is_unit word.now }
{
    word.len() == 4 && word.iter().all(u8::is_ascii_hexdigit)
}

/// What a hexadecimal digit of either case stands for.
fn digit(digit: u8) -> u16
    requires { IsTrue (is_hexadecimal digit) }
    ensures value { result ≡ digit_value digit }
    ensures small { result < 16 }
{
    match digit {
        b'0'..=b'9' => u16::from(digit - b'0'),
        b'A'..=b'F' => u16::from(digit - b'A') + 10,
        _ => u16::from(digit - b'a') + 10,
    }
}

/// The unit that the word is.
fn unit(word: &[u8]) -> u16
    requires { is_unit word.now ≡ true }
    ensures { result ≡ value_from 16 0 word.now }
{
    match word {
        [a, b, c, d] => digit(*a) * 0x1000 + digit(*b) * 0x100 + digit(*c) * 0x10 + digit(*d),
        _ => 0,
    }
}

/// The units up to the end of the line.
fn units(alloc: Global, pieces: &[Piece]) -> Result<Vec<u16>, Refusal>
    ensures { Gives (λ us. us.items) result (units_in (pieces_in pieces.now)) }
{
    let mut units = Vec::new(alloc);
    for piece in pieces {
        match piece {
            Piece::Word(word) if is_unit(*word) => units.push(unit(*word))?,
            _ => return Err(Refusal::Fault(LineKind::Operands)),
        }
    }
    Ok(units)
}

/// A line of units, which has so many before it.
#[tactic(auto, unfolding(crate::specs::RawLines::units_line))]
fn units_line(alloc: Global, before: u32, pieces: &[Piece]) -> Result<Vec<u16>, Refusal>
    requires { before ≤ most_units }
    ensures exact { Gives (λ us. us.items) result (units_line before (pieces_in pieces.now)) }
    ensures few { IfOk result (λ us. before + length us.items ≤ most_units) }
{
    let units = units(alloc, pieces)?;
    if units.len() > MAX_UNITS - before as usize {
        return Err(Refusal::Fault(LineKind::TooLong));
    }
    Ok(units)
}

fn begins_with_unit(pieces: &[Piece]) -> bool
    ensures { result ≡ begins_with_unit (pieces_in pieces.now) }
{
    let [first, ..] = pieces else {
        return false;
    };
    match first {
        Piece::Word(word) => is_unit(*word),
        _ => false,
    }
}

// ---- handlers

/// A number from 0 up, of 32 bits.
fn address_from(number: i64) -> Result<u32, LineKind>
    ensures { result ≡ address_from number }
{
    match u32::try_from(number) {
        Ok(address) => Ok(address),
        Err(_) => Err(LineKind::NumberRange),
    }
}

/// The address that a word is.
fn address(word: &[u8]) -> Result<u32, LineKind>
    ensures { result ≡ address_in word.now }
{
    address_from(words::literal(word, 48)?)
}

fn address_part<'a, 'b>(pieces: &'b [Piece<'a>]) -> Result<(u32, &'b [Piece<'a>]), LineKind>
    ensures { Reads (λ x. (x.0, pieces_in x.1.now)) result (word_at address_in (pieces_in pieces.now)) }
{
    let [first, rest @ ..] = pieces else {
        return Err(LineKind::Operands);
    };
    match first {
        Piece::Word(word) => Ok((address(*word)?, rest)),
        _ => Err(LineKind::Operands),
    }
}

/// `all`, or the type of exceptions that a handler catches.
#[tactic(auto, unfolding(crate::specs::RawLines::caught_in))]
fn caught(alloc: Global, word: &[u8]) -> Result<Option<Ty>, Refusal>
    ensures { Gives (λ t. t) result (caught_in word.now) }
{
    if word == b"all".as_slice() {
        return Ok(None);
    }
    Ok(Some(references::ty(alloc, word)?))
}

fn caught_part<'a, 'b>(
    alloc: Global,
    pieces: &'b [Piece<'a>],
) -> Result<(Option<Ty>, &'b [Piece<'a>]), Refusal>
    ensures { Gives (λ x. (x.0, pieces_in x.1.now)) result (word_at caught_in (pieces_in pieces.now)) }
{
    let [first, rest @ ..] = pieces else {
        return Err(Refusal::Fault(LineKind::Operands));
    };
    match first {
        Piece::Word(word) => match caught(alloc, *word) {
            Ok(kind) => Ok((kind, rest)),
            Err(error) => Err(error),
        },
        _ => Err(Refusal::Fault(LineKind::Operands)),
    }
}

/// A handler: where its range begins and ends, its address, and what it catches.
#[tactic(auto, unfolding(crate::specs::RawLines::raw_handler_line))]
fn handler_line(alloc: Global, pieces: &[Piece]) -> Result<RawHandler, Refusal>
    ensures { Gives (λ h. h) result (raw_handler_line (pieces_in pieces.now)) }
{
    let (start, rest) = address_part(pieces)?;
    let (finish, rest) = address_part(rest)?;
    let (at, rest) = address_part(rest)?;
    let (kind, rest) = caught_part(alloc, rest)?;
    end(rest)?;
    Ok(RawHandler {
        start,
        end: finish,
        at,
        kind,
    })
}

// ---- lines

/// The count of registers.
fn registers_line(pieces: &[Piece]) -> Result<u32, LineKind>
    ensures exact { Reads (λ n. n) result (raw_registers_line (pieces_in pieces.now)) }
    ensures few { IfOk result (λ n. n ≤ 256) }
{
    let (registers, rest) = count_part(0, pieces)?;
    end(rest)?;
    Ok(registers)
}

/// A line before the count of registers.
fn start_line(head: Head, pieces: &[Piece]) -> Result<RawLine, LineKind>
    ensures exact { Reads (λ l. l) result (start_line head (pieces_in pieces.now)) }
    ensures line { IfOk result (IsRawLine place.Start) }
{
    match head {
        Head::Directive(Directive::Registers) => {
            Ok(RawLine::Registers(registers_line(after_first(pieces))?))
        }
        _ => Err(refusal_of(head)),
    }
}

/// Whether a line tells the count of registers.
fn is_count(head: Head) -> bool
    ensures { result ≡ is_count head }
{
    matches!(
        head,
        Head::Directive(Directive::Registers | Directive::Locals)
    )
}

/// Why a line isn't read behind the count of registers.
fn again_or_refused(head: Head) -> LineKind
    ensures { result ≡ again_or_refused head }
{
    if is_count(head) {
        LineKind::Repeated
    } else {
        refusal_of(head)
    }
}

/// A line behind the count of registers and before the units.
fn pools_line(alloc: Global, head: Head, pieces: &[Piece]) -> Result<RawLine, Refusal>
    ensures exact { Gives (λ l. l) result (pools_line head (pieces_in pieces.now)) }
    ensures line { IfOk result (IsRawLine place.Pools) }
{
    match head {
        Head::Directive(Directive::Rawref) => {
            match entry_line(alloc, after_first(pieces)) {
                Ok(entry) => Ok(RawLine::Entry(entry)),
                Err(error) => Err(error),
            }
        }
        Head::Directive(Directive::Begin(Block::Units)) => {
            end(after_first(pieces))?;
            Ok(RawLine::Begin)
        }
        _ => Err(Refusal::Fault(again_or_refused(head))),
    }
}

/// A line among the units, with so many before it.
fn among_units(alloc: Global, before: u32, head: Head, pieces: &[Piece]) -> Result<RawLine, Refusal>
    requires { before ≤ most_units }
    ensures exact { Gives (λ l. l) result (among_units before head (pieces_in pieces.now)) }
    ensures line { IfOk result (IsRawLine (place.Units before)) }
{
    match head {
        Head::Directive(Directive::End(Block::Units)) => {
            end(after_first(after_first(pieces)))?;
            Ok(RawLine::End)
        }
        _ if begins_with_unit(pieces) => match units_line(alloc, before, pieces) {
            Ok(units) => Ok(RawLine::Units(Seq::of(units))),
            Err(error) => Err(error),
        },
        _ => Err(Refusal::Fault(refusal_of(head))),
    }
}

/// A line behind the units.
fn last_line(alloc: Global, head: Head, pieces: &[Piece]) -> Result<RawLine, Refusal>
    ensures exact { Gives (λ l. l) result (last_line head (pieces_in pieces.now)) }
    ensures line { IfOk result (IsRawLine place.Behind) }
{
    match head {
        Head::Directive(Directive::Rawtry) => {
            match handler_line(alloc, after_first(pieces)) {
                Ok(handler) => Ok(RawLine::Handler(handler)),
                Err(error) => Err(error),
            }
        }
        Head::Directive(Directive::Begin(Block::Units)) => {
            Err(Refusal::Fault(LineKind::Repeated))
        }
        _ => Err(Refusal::Fault(again_or_refused(head))),
    }
}

/// What a line of a raw body says that stands there.
///
/// # Errors
///
/// The line's leftmost fault, or want of memory.
#[tactic(auto, unfolding(crate::specs::RawLines::raw_line))]
pub fn raw_line(
    alloc: Global,
    place: RawPlace,
    head: Head,
    pieces: &[Piece],
) -> Result<RawLine, Refusal>
    requires head { head ≡ head_of (pieces_in pieces.now) }
    requires few { AreFew place }
    ensures exact { Gives (λ l. l) result (raw_line place (pieces_in pieces.now)) }
    ensures line { IfOk result (IsRawLine place) }
{
    match place {
        RawPlace::Start => Ok(start_line(head, pieces)?),
        RawPlace::Pools => pools_line(alloc, head, pieces),
        RawPlace::Units(before) => among_units(alloc, before, head, pieces),
        RawPlace::Behind => last_line(alloc, head, pieces),
    }
}

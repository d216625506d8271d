// The operands of an instruction.
ghost use Rattle.std.specs.Prelude.{◌≡◌, IfOk, IfSome, IsSome};
ghost use Rattle.dv_optable.specs.Table.{format_at};
ghost use Rattle.dv_draft.specs.Draft.{IsOp};
ghost use Rattle.dv_coderead.specs.Giving.{Gives, Reads};
ghost use Rattle.dv_coderead.specs.Pieces.{piece_in, pieces_in};
ghost use Rattle.dv_coderead.specs.Operands.{entry_at, entry_in, label_at, literal_at, names_in, operands_in, value_in, IsLiteral};

use crate::parts::{alone, comma, next};
use crate::pieces::Piece;
use crate::registers::read_registers;
use crate::shape::{Literal, Registers, has_label, literal_of, registers_of};
use crate::words::{self, Frame};
use crate::{Refusal, references};
use dv_defs::{Insn, LineKind, PoolKind, Text};
use dv_draft::{Draftop, PoolRef};
use dv_units::pool_of;
use std::alloc::Global;

/// The value of a literal, whose last bits are 0.
fn value(literal: Literal, word: &[u8]) -> Result<i64, LineKind>
    requires { IsLiteral literal }
    ensures { Reads (λ z. z) result (value_in literal word.now) }
{
    let value = words::literal(word, literal.bits)?;
    if value % (1 << literal.zeros) != 0 {
        return Err(LineKind::NumberRange);
    }
    Ok(value)
}

/// The literal of an instruction that has one, behind a comma; else 0.
#[tactic(auto, unfolding(crate::specs::Operands::literal_at))]
fn read_literal<'a, 'b>(
    literal: Option<Literal>,
    pieces: &'b [Piece<'a>],
) -> Result<(i64, &'b [Piece<'a>]), LineKind>
    requires { IfSome literal IsLiteral }
    ensures { Reads (λ x. (x.0, pieces_in x.1.now)) result (literal_at literal (pieces_in pieces.now)) }
{
    let Some(literal) = literal else {
        return Ok((0, pieces));
    };
    let [first, rest @ ..] = comma(pieces)? else {
        return Err(LineKind::Operands);
    };
    match first {
        Piece::Word(word) => Ok((value(literal, *word)?, rest)),
        _ => Err(LineKind::Operands),
    }
}

/// The label of an instruction that has one, behind a comma unless it comes first.
#[tactic(auto, unfolding(crate::specs::Operands::label_at))]
fn read_label<'a, 'b>(
    alloc: Global,
    has: bool,
    first: bool,
    pieces: &'b [Piece<'a>],
) -> Result<(Option<Text>, &'b [Piece<'a>]), Refusal>
    ensures { Gives (λ x. (x.0, pieces_in x.1.now)) result (label_at has first (pieces_in pieces.now)) }
{
    if !has {
        return Ok((None, pieces));
    }
    let [word, rest @ ..] = next(first, pieces)? else {
        return Err(Refusal::Fault(LineKind::Operands));
    };
    match word {
        Piece::Word(word) => Ok((Some(words::label(alloc, *word)?), rest)),
        _ => Err(Refusal::Fault(LineKind::Operands)),
    }
}

/// The entry of a pool that an operand names.
fn entry_of(alloc: Global, kind: PoolKind, piece: &Piece) -> Result<PoolRef, Refusal>
    ensures { Gives (λ x. x) result (entry_in kind (piece_in piece.now)) }
{
    match (kind, piece) {
        (PoolKind::Strings, Piece::Str(units)) => Ok(PoolRef::Str(units.clone()?)),
        (PoolKind::Types, Piece::Word(word)) => Ok(PoolRef::OfType(references::ty(alloc, *word)?)),
        (PoolKind::Fields, Piece::Word(word)) => Ok(PoolRef::Field(references::field(
            alloc, *word,
        )?)),
        (PoolKind::Methods, Piece::Word(word)) => Ok(PoolRef::Method(references::method(
            alloc, *word,
        )?)),
        _ => Err(Refusal::Fault(LineKind::Operands)),
    }
}

/// The entry of an instruction that names one, behind a comma.
#[tactic(auto, unfolding(crate::specs::Operands::entry_at))]
fn read_entry<'a, 'b>(
    alloc: Global,
    kind: Option<PoolKind>,
    pieces: &'b [Piece<'a>],
) -> Result<(PoolRef, &'b [Piece<'a>]), Refusal>
    ensures { Gives (λ x. (x.0, pieces_in x.1.now)) result (entry_at kind (pieces_in pieces.now)) }
{
    let Some(kind) = kind else {
        return Ok((PoolRef::None, pieces));
    };
    match comma(pieces)? {
        [piece, rest @ ..] => Ok((entry_of(alloc, kind, piece)?, rest)),
        [] => Err(Refusal::Fault(LineKind::Operands)),
    }
}

/// An instruction with what it names: a label, which comes first where it has no registers, and an entry of a pool.
fn read_names(alloc: Global, insn: Insn, first: bool, pieces: &[Piece]) -> Result<Draftop, Refusal>
    ensures { Gives (λ x. x) result (names_in insn first (pieces_in pieces.now)) }
{
    let (label, rest) = read_label(alloc, has_label(insn.op), first, pieces)?;
    let (pool, rest) = read_entry(alloc, pool_of(insn.op), rest)?;
    Ok(alone(Draftop { insn, label, pool }, rest)?)
}

/// The instruction of an opcode with the operands that these pieces are: registers, then a literal, a label and an entry
/// of a pool, as its format has them, with commas between. It is in the form of its format, if its opcode has one.
///
/// # Errors
///
/// The leftmost fault: `Operands` where the operands have another form, `RegisterRange`, `NumberRange`, `BadDescriptor`
/// or `FloatType` where one of them isn't read. Or want of memory.
#[tactic(auto, unfolding(crate::specs::Operands::operands_in))]
pub fn read_operands(
    alloc: Global,
    frame: Frame,
    op: u8,
    pieces: &[Piece],
) -> Result<Draftop, Refusal>
    ensures exact { Gives (λ x. x) result (operands_in frame op (pieces_in pieces.now)) }
    ensures formed { IsSome (format_at op) → IfOk result IsOp }
{
    let form = registers_of(op);
    let (regs, rest) = read_registers(alloc, form, frame, pieces)?;
    let (lit, rest) = read_literal(literal_of(op), rest)?;
    let insn = Insn {
        op,
        regs,
        lit,
        off: 0,
        index: 0,
    };
    read_names(alloc, insn, matches!(form, Registers::Each(0)), rest)
}

// The registers of an instruction.
ghost use Rattle.std.specs.Prelude.{◌≡◌, ◌+◌, ◌≤◌, length, IfOk};
ghost use Rattle.dv_defs.specs.Spelling.{few};
ghost use Rattle.dv_coderead.specs.Giving.{Gives, Reads};
ghost use Rattle.dv_coderead.specs.Pieces.{pieces_in};
ghost use Rattle.dv_coderead.specs.Operands.{braces_at, last_at, list_at, more_at, neighbours_at, next_register_at, one_at, range_of, register_at, registers_at, three_at, two_at, with_front};

use crate::Refusal;
use crate::parts::{closed, comma, dots, mark};
use crate::pieces::Piece;
use crate::shape::Registers;
use crate::words::{self, Frame};
use dv_defs::{LineKind, Regs};
use std::alloc::Global;

/// One register.
fn register<'a, 'b>(
    frame: Frame,
    pieces: &'b [Piece<'a>],
) -> Result<(u16, &'b [Piece<'a>]), LineKind>
    ensures { Reads (λ x. (x.0, pieces_in x.1.now)) result (register_at frame (pieces_in pieces.now)) }
{
    let [first, rest @ ..] = pieces else {
        return Err(LineKind::Operands);
    };
    match first {
        Piece::Word(word) => Ok((words::register(frame, *word)?, rest)),
        _ => Err(LineKind::Operands),
    }
}

/// One register more, behind a comma.
#[tactic(auto, unfolding(crate::specs::Operands::next_register_at))]
fn next_register<'a, 'b>(
    frame: Frame,
    pieces: &'b [Piece<'a>],
) -> Result<(u16, &'b [Piece<'a>]), LineKind>
    ensures { Reads (λ x. (x.0, pieces_in x.1.now)) result (next_register_at frame (pieces_in pieces.now)) }
{
    register(frame, comma(pieces)?)
}

#[tactic(auto, unfolding(crate::specs::Operands::one_at))]
fn one<'a, 'b>(frame: Frame, pieces: &'b [Piece<'a>]) -> Result<(Regs, &'b [Piece<'a>]), LineKind>
    ensures { Reads (λ x. (x.0, pieces_in x.1.now)) result (one_at frame (pieces_in pieces.now)) }
{
    let (a, rest) = register(frame, pieces)?;
    let regs = Regs {
        count: 1,
        first: [a, 0, 0, 0, 0],
        range: false,
    };
    Ok((regs, rest))
}

#[tactic(auto, unfolding(crate::specs::Operands::two_at))]
fn two<'a, 'b>(frame: Frame, pieces: &'b [Piece<'a>]) -> Result<(Regs, &'b [Piece<'a>]), LineKind>
    ensures { Reads (λ x. (x.0, pieces_in x.1.now)) result (two_at frame (pieces_in pieces.now)) }
{
    let (a, rest) = register(frame, pieces)?;
    let (b, rest) = next_register(frame, rest)?;
    let regs = Regs {
        count: 2,
        first: [a, b, 0, 0, 0],
        range: false,
    };
    Ok((regs, rest))
}

#[tactic(auto, unfolding(crate::specs::Operands::three_at))]
fn three<'a, 'b>(frame: Frame, pieces: &'b [Piece<'a>]) -> Result<(Regs, &'b [Piece<'a>]), LineKind>
    ensures { Reads (λ x. (x.0, pieces_in x.1.now)) result (three_at frame (pieces_in pieces.now)) }
{
    let (a, rest) = register(frame, pieces)?;
    let (b, rest) = next_register(frame, rest)?;
    let (c, rest) = next_register(frame, rest)?;
    let regs = Regs {
        count: 3,
        first: [a, b, c, 0, 0],
        range: false,
    };
    Ok((regs, rest))
}

/// Whether a comma comes, or the closing brace, and what stands behind it.
fn more<'a, 'b>(pieces: &'b [Piece<'a>]) -> Result<(bool, &'b [Piece<'a>]), LineKind>
    ensures { Reads (λ x. (x.0, pieces_in x.1.now)) result (more_at (pieces_in pieces.now)) }
{
    match closed(pieces) {
        Some(rest) => Ok((false, rest)),
        None => Ok((true, comma(pieces)?)),
    }
}

/// The registers and up to `room` more, with commas between, up to the closing brace.
fn list<'a, 'b>(
    frame: Frame,
    room: u8,
    registers: Vec<u16>,
    pieces: &'b [Piece<'a>],
) -> Result<(Vec<u16>, &'b [Piece<'a>]), Refusal>
    ensures exact { Gives (λ x. (x.0.items, pieces_in x.1.now)) result
        (with_front registers.items (list_at room frame (pieces_in pieces.now))) }
    ensures few { IfOk result (λ x. length x.0.items ≤ length registers.items + room) }
{
    if room == 0 {
        return Err(Refusal::Fault(LineKind::Operands));
    }
    let mut registers = registers;
    let (one, rest) = register(frame, pieces)?;
    registers.push(one)?;
    let (goes_on, rest) = more(rest)?;
    if goes_on {
        list(frame, room - 1, registers, rest)
    } else {
        Ok((registers, rest))
    }
}

/// These registers, each as an operand.
fn few(registers: &[u16]) -> Regs
    requires { length registers.now ≤ 5 }
    ensures { result ≡ few registers.now }
{
    let first = match registers {
        [] => [0; 5],
        [a] => [*a, 0, 0, 0, 0],
        [a, b] => [*a, *b, 0, 0, 0],
        [a, b, c] => [*a, *b, *c, 0, 0],
        [a, b, c, d] => [*a, *b, *c, *d, 0],
        [a, b, c, d, e, ..] => [*a, *b, *c, *d, *e],
    };
    let count = registers.len() as u8;
    Regs {
        count,
        first,
        range: false,
    }
}

/// Braces with up to five registers.
#[tactic(auto, unfolding(crate::specs::Operands::braces_at))]
fn braces<'a, 'b>(
    alloc: Global,
    frame: Frame,
    pieces: &'b [Piece<'a>],
) -> Result<(Regs, &'b [Piece<'a>]), Refusal>
    ensures { Gives (λ x. (x.0, pieces_in x.1.now)) result (braces_at frame (pieces_in pieces.now)) }
{
    let inside = mark(b'{', pieces)?;
    if let Some(rest) = closed(inside) {
        return Ok((few(&[]), rest));
    }
    let (registers, rest) = list(frame, 5, Vec::new(alloc), inside)?;
    Ok((few(registers.as_slice()), rest))
}

/// From the first register to the last, at most 255.
fn range(first: u16, last: u16) -> Result<Regs, LineKind>
    ensures { Reads (λ r. r) result (range_of first last) }
{
    if first > last || last - first >= 255 {
        return Err(LineKind::Operands);
    }
    Ok(Regs {
        count: (last - first + 1) as u8,
        first: [first, 0, 0, 0, 0],
        range: true,
    })
}

/// The last of neighbouring registers, and the closing brace.
#[tactic(auto, unfolding(crate::specs::Operands::last_at))]
fn last<'a, 'b>(
    frame: Frame,
    first: u16,
    pieces: &'b [Piece<'a>],
) -> Result<(Regs, &'b [Piece<'a>]), LineKind>
    ensures { Reads (λ x. (x.0, pieces_in x.1.now)) result (last_at frame first (pieces_in pieces.now)) }
{
    let rest = dots(pieces)?;
    let (last, rest) = register(frame, rest)?;
    let rest = mark(b'}', rest)?;
    Ok((range(first, last)?, rest))
}

/// Braces with no register, one, or the first and the last of neighbours.
#[tactic(auto, unfolding(crate::specs::Operands::neighbours_at))]
fn neighbours<'a, 'b>(
    frame: Frame,
    pieces: &'b [Piece<'a>],
) -> Result<(Regs, &'b [Piece<'a>]), LineKind>
    ensures { Reads (λ x. (x.0, pieces_in x.1.now)) result (neighbours_at frame (pieces_in pieces.now)) }
{
    let inside = mark(b'{', pieces)?;
    if let Some(rest) = closed(inside) {
        let first = [0; 5];
        return Ok((
            Regs {
                count: 0,
                first,
                range: true,
            },
            rest,
        ));
    }
    let (first, behind) = register(frame, inside)?;
    match closed(behind) {
        Some(rest) => Ok((range(first, first)?, rest)),
        None => last(frame, first, behind),
    }
}

/// The registers of an instruction, which are written so.
pub fn read_registers<'a, 'b>(
    alloc: Global,
    form: Registers,
    frame: Frame,
    pieces: &'b [Piece<'a>],
) -> Result<(Regs, &'b [Piece<'a>]), Refusal>
    ensures { Gives (λ x. (x.0, pieces_in x.1.now)) result (registers_at form frame (pieces_in pieces.now)) }
{
    match form {
        Registers::Each(0) => Ok((few(&[]), pieces)),
        Registers::Each(1) => Ok(one(frame, pieces)?),
        Registers::Each(2) => Ok(two(frame, pieces)?),
        Registers::Each(_) => Ok(three(frame, pieces)?),
        Registers::Braces => braces(alloc, frame, pieces),
        Registers::Neighbours => Ok(neighbours(frame, pieces)?),
    }
}

// Parts of a line: what is read, and the pieces behind it.
ghost use Rattle.std.specs.Prelude.{◌≡◌, Ok};
ghost use Rattle.dv_coderead.specs.Giving.{Reads};
ghost use Rattle.dv_coderead.specs.Pieces.{pieces_in};
ghost use Rattle.dv_coderead.specs.Operands.{alone, after_first, comma_at, dots_at, ended, mark_at, next_at, Closes};

use crate::pieces::Piece;
use dv_defs::LineKind;

/// What stands behind this mark.
pub fn mark<'a, 'b>(byte: u8, pieces: &'b [Piece<'a>]) -> Result<&'b [Piece<'a>], LineKind>
    ensures { Reads (λ rest. pieces_in rest.now) result (mark_at byte (pieces_in pieces.now)) }
{
    let [first, rest @ ..] = pieces else {
        return Err(LineKind::Operands);
    };
    match first {
        Piece::Mark(found) if *found == byte => Ok(rest),
        _ => Err(LineKind::Operands),
    }
}

/// What stands behind a comma.
pub fn comma<'a, 'b>(pieces: &'b [Piece<'a>]) -> Result<&'b [Piece<'a>], LineKind>
    ensures { Reads (λ rest. pieces_in rest.now) result (comma_at (pieces_in pieces.now)) }
{
    mark(b',', pieces)
}

/// What stands behind a comma, or all where it is the first operand that comes.
pub fn next<'a, 'b>(first: bool, pieces: &'b [Piece<'a>]) -> Result<&'b [Piece<'a>], LineKind>
    ensures { Reads (λ rest. pieces_in rest.now) result (next_at first (pieces_in pieces.now)) }
{
    if first { Ok(pieces) } else { comma(pieces) }
}

/// What stands behind the closing brace, if it is next.
pub fn closed<'a, 'b>(pieces: &'b [Piece<'a>]) -> Option<&'b [Piece<'a>]>
    ensures { Closes (λ rest. pieces_in rest.now) result (pieces_in pieces.now) }
{
    let [first, rest @ ..] = pieces else {
        return None;
    };
    match first {
        Piece::Mark(b'}') => Some(rest),
        _ => None,
    }
}

/// What stands behind the two dots.
pub fn dots<'a, 'b>(pieces: &'b [Piece<'a>]) -> Result<&'b [Piece<'a>], LineKind>
    ensures { Reads (λ rest. pieces_in rest.now) result (dots_at (pieces_in pieces.now)) }
{
    let [first, rest @ ..] = pieces else {
        return Err(LineKind::Operands);
    };
    match first {
        Piece::Word(word) if *word == b"..".as_slice() => Ok(rest),
        _ => Err(LineKind::Operands),
    }
}

/// Nothing more.
pub fn end(pieces: &[Piece]) -> Result<(), LineKind>
    ensures { Reads (λ x. x) result (ended (pieces_in pieces.now)) }
{
    match pieces {
        [] => Ok(()),
        _ => Err(LineKind::Operands),
    }
}

/// A value behind which nothing more stands.
pub(crate) fn alone<T: Drop>(value: T, pieces: &[Piece]) -> Result<T, LineKind>
    ensures { Reads (λ x. x) result (alone (Ok (value, pieces_in pieces.now))) }
{
    end(pieces)?;
    Ok(value)
}

/// What stands behind the first piece.
pub fn after_first<'a, 'b>(pieces: &'b [Piece<'a>]) -> &'b [Piece<'a>]
    ensures { pieces_in result.now ≡ after_first (pieces_in pieces.now) }
{
    match pieces {
        [_, rest @ ..] => rest,
        [] => pieces,
    }
}

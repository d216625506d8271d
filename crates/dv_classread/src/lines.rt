// What is told of numbered lines.
ghost use Rattle.std.specs.Prelude.{◌≡◌};
ghost use Rattle.dv_coderead.specs.Giving.{on_line, GivesLines};
ghost use Rattle.dv_coderead.specs.Operands.{ended};
ghost use Rattle.dv_coderead.specs.Pieces.{pieces_in};
ghost use Rattle.dv_classread.specs.Texts.{as_error, missing_at};

use dv_coderead::Piece;
use dv_coderead::parts::end;
use dv_defs::{LineError, LineKind};
use dv_lex::Stop;

/// That a part is missing on the line of this number.
pub fn missing_at(line: u32) -> Stop
    ensures { result ≡ missing_at line }
{
    Stop {
        line,
        kind: LineKind::Missing,
    }
}

pub fn as_error(fault: Stop) -> LineError
    ensures { result ≡ as_error fault }
{
    LineError::At {
        line: fault.line,
        kind: fault.kind,
    }
}

/// No piece is left on the line of this number.
pub fn ended(line: u32, rest: &[Piece]) -> Result<(), LineError>
    ensures { GivesLines (λ nothing. record {}) result (on_line line (ended (pieces_in rest.now))) }
{
    match end(rest) {
        Ok(()) => Ok(()),
        Err(kind) => Err(LineError::At { line, kind }),
    }
}

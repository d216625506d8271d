// Why a text gives no image.
ghost use Rattle.std.specs.Prelude.{◌≡◌};
ghost use Rattle.dv_load.specs.declared.errors.ProgramError.TheVariants.{Memory};
ghost use Rattle.dv_load.specs.Errors.{of_line, of_link};

use dv_console::Refusal;
use dv_defs::{LineError, LinkError};
use std::alloc::AllocError;

/// Why a text gives no image.
#[derive(Drop)]
pub enum ProgramError {
    /// Reading, assembling or linking refuses it.
    Refused(Refusal),
    /// Memory is wanting.
    Memory,
}

impl From<AllocError> for ProgramError {
    ghost from_gives = { λ _ e. e ≡ Memory };

    fn from(_: AllocError) -> ProgramError {
        ProgramError::Memory
    }
}

impl From<LineError> for ProgramError {
    ghost from_gives = { λ fault e. e ≡ of_line fault };

    fn from(fault: LineError) -> ProgramError {
        match fault {
            LineError::At { line, kind } => ProgramError::Refused(Refusal::Line(line, kind)),
            LineError::Memory => ProgramError::Memory,
        }
    }
}

impl From<LinkError> for ProgramError {
    ghost from_gives = { λ fault e. e ≡ of_link fault };

    fn from(fault: LinkError) -> ProgramError {
        match fault {
            LinkError::At { class, kind } => ProgramError::Refused(Refusal::Link(class, kind)),
            LinkError::Memory => ProgramError::Memory,
        }
    }
}

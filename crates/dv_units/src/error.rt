ghost use Rattle.dv_units.specs.declared.error.UnitError.TheVariants.{Memory};
ghost use Rattle.std.specs.Prelude.{◌≡◌};

use std::alloc::AllocError;
use thiserror::Error;

/// Why no instruction is read or written. The numbers are opcodes.
#[derive(Error, Debug, Clone, Copy, PartialEq, Eq)]
pub enum UnitError {
    #[error("unused opcode {0:#04x}")]
    Unused(u8),
    #[error("opcode {0:#04x} of a float instruction")]
    Float(u8),
    #[error("the units end inside an instruction")]
    Cut,
    #[error("an operand does not fit its instruction")]
    OperandRange,
    #[error("the units are no payload")]
    BadPayload,
    #[error("out of memory")]
    Memory,
}

impl From<AllocError> for UnitError {
    ghost from_gives = { λ _ e. e ≡ Memory };

    fn from(_: AllocError) -> UnitError {
        UnitError::Memory
    }
}

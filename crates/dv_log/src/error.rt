// The refusal of a schedule's line.
ghost use Rattle.dv_log.specs.declared.error.LogError.TheVariants.{Memory};
ghost use Rattle.std.specs.Prelude.{◌≡◌};

use std::alloc::{AllocError, AllocFailed};

/// The line that isn't an entry of a schedule, by its number, or want of memory.
#[derive(Clone, Copy, PartialEq, Eq, Debug)]
pub enum LogError {
    BadLogLine(u32),
    Memory,
}

impl From<AllocError> for LogError {
    ghost from_gives = { λ _ e. e ≡ Memory };

    fn from(_: AllocError) -> LogError {
        LogError::Memory
    }
}

impl<T: Drop> From<AllocFailed<T>> for LogError {
    ghost from_gives = { λ _ e. e ≡ Memory };

    fn from(_: AllocFailed<T>) -> LogError {
        LogError::Memory
    }
}

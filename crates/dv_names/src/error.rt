// The refusal of a text.
ghost use Rattle.dv_names.specs.declared.error.NameError.TheVariants.{Memory};
ghost use Rattle.std.specs.Prelude.{◌≡◌};

use std::alloc::{AllocError, AllocFailed};
use thiserror::Error;

/// Why a text is no descriptor, with the place of the first byte that fits none: the length of the longest
/// front of the text with which some descriptor begins. Or want of memory.
#[derive(Clone, Copy, PartialEq, Eq, Debug, Error)]
pub enum NameError {
    #[error("bad descriptor at byte {0}")]
    BadDescriptor(usize),
    /// The byte is `F` or `D`, where a primitive type could stand.
    #[error("float type at byte {0}")]
    FloatType(usize),
    #[error("out of memory")]
    Memory,
}

impl From<AllocError> for NameError {
    ghost from_gives = { λ _ e. e ≡ Memory };

    fn from(_: AllocError) -> NameError {
        NameError::Memory
    }
}

impl<T: Drop> From<AllocFailed<T>> for NameError {
    ghost from_gives = { λ _ e. e ≡ Memory };

    fn from(_: AllocFailed<T>) -> NameError {
        NameError::Memory
    }
}

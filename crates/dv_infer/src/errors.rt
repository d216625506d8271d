// Why a method has no typing.
ghost use Rattle.std.specs.Prelude.{◌≡◌};
ghost use Rattle.dv_infer.specs.declared.errors.InferError.TheVariants.{Memory};

use dv_defs::{Fault, Seq};
use std::alloc::{AllocError, AllocFailed};

/// The faults of a method, or want of memory.
#[derive(Drop)]
pub enum InferError {
    Faults(Seq<Fault>),
    Memory,
}

impl From<AllocError> for InferError {
    ghost from_gives = { λ _ e. e ≡ Memory };

    fn from(_: AllocError) -> InferError {
        InferError::Memory
    }
}

impl<T: Drop> From<AllocFailed<T>> for InferError {
    ghost from_gives = { λ _ e. e ≡ Memory };

    fn from(_: AllocFailed<T>) -> InferError {
        InferError::Memory
    }
}

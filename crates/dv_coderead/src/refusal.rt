// Why a part of a line isn't read.
ghost use Rattle.dv_coderead.specs.declared.refusal.Refusal.TheVariants.{Fault, Memory};
ghost use Rattle.std.specs.Prelude.{◌≡◌};

use dv_defs::LineKind;
use std::alloc::{AllocError, AllocFailed};

/// The fault of a part of a line, or want of memory.
#[derive(Clone, Copy, PartialEq, Eq, Debug)]
pub enum Refusal {
    Fault(LineKind),
    Memory,
}

impl From<LineKind> for Refusal {
    ghost from_gives = { λ kind e. e ≡ Fault kind };

    fn from(kind: LineKind) -> Refusal {
        Refusal::Fault(kind)
    }
}

impl From<AllocError> for Refusal {
    ghost from_gives = { λ _ e. e ≡ Memory };

    fn from(_: AllocError) -> Refusal {
        Refusal::Memory
    }
}

impl<T: Drop> From<AllocFailed<T>> for Refusal {
    ghost from_gives = { λ _ e. e ≡ Memory };

    fn from(_: AllocFailed<T>) -> Refusal {
        Refusal::Memory
    }
}

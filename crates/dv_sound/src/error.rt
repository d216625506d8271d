// Why a schedule isn't replayed.
use std::alloc::AllocError;

/// Why a schedule isn't replayed: an entry of it names a thread that isn't runnable at one of its steps, or goes on past the run's end; the
/// schedule stops before it, with so many entries; or memory is wanting. Entries are counted from 0.
#[derive(Debug, PartialEq, Drop)]
pub enum ReplayError {
    NotRunnable(u32),
    Long(u32),
    Short(u32),
    Memory(AllocError),
}

impl From<AllocError> for ReplayError {
    ghost use Rattle.std.specs.Prelude.{◌≡◌};
    ghost use Rattle.dv_sound.specs.declared.error.ReplayError.TheVariants.{Memory};

    ghost from_gives = { λ cause e. e ≡ Memory cause };

    fn from(cause: AllocError) -> ReplayError {
        ReplayError::Memory(cause)
    }
}

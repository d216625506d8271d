// Why an object isn't made.
use std::alloc::AllocError;

/// Why an object isn't made. The heap is as before.
#[derive(Debug, Drop)]
pub enum HeapError {
    /// The heap is full: so many words are used, and so many more were asked for.
    Full { used: u32, needed: u64 },
    /// Memory is wanting.
    Memory(AllocError),
}

impl From<AllocError> for HeapError {
    ghost use Rattle.std.specs.Prelude.{◌≡◌};
    ghost use Rattle.dv_heap.specs.declared.error.HeapError.TheVariants.{Memory};

    ghost from_gives = { λ cause e. e ≡ Memory cause };

    fn from(cause: AllocError) -> HeapError {
        HeapError::Memory(cause)
    }
}

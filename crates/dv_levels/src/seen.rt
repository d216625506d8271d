// Levels that were met.

use crate::effects::Level;
use std::alloc::{AllocError, Global};

/// The levels that were met. No more is promised of it: a search that meets one twice or passes one over is right all the same.
#[derive(Drop)]
pub struct Seen {
    registers: usize,
    flags: Vec<u8>,
}

impl Seen {
    /// No level of so many places and registers.
    pub fn none(alloc: Global, places: usize, registers: usize) -> Result<Seen, AllocError> {
        let flags = vec![in alloc; 0; places.saturating_mul(registers)]?;
        Ok(Seen { registers, flags })
    }

    /// Adds a level, and tells whether it is met for the first time.
    pub fn add(&mut self, level: Level) -> bool {
        let row = level.place.saturating_mul(self.registers);
        let bit = if level.fewer { 2 } else { 1 };
        match self
            .flags
            .get_mut(row.saturating_add(usize::from(level.register)))
        {
            Some(flags) => {
                let first = *flags & bit == 0;
                *flags |= bit;
                first
            }
            None => false,
        }
    }
}

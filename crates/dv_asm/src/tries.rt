// The ranges of handlers.
ghost use Rattle.std.specs.Prelude.{◌≡◌, IfOk};
ghost use Rattle.dv_asm.specs.Refusals.{range_of, ranges_of, is_empty, is_same, overlaps};
ghost use Rattle.dv_asm.specs.Ranges.{range_in};

use crate::short::Short;
use dv_draft::Catch;
use std::alloc::{AllocError, Global};

/// The addresses from `start` up to and without `end`.
#[derive(Clone, Copy, PartialEq, Eq, PartialOrd, Ord)]
pub struct TryRange {
    pub start: u32,
    pub end: u32,
}

impl TryRange {
    /// The range from a start to an end.
    pub fn between(start: &u32, end: &u32) -> TryRange
        ensures { result ≡ range_in (start.now, end.now) }
    {
        TryRange {
            start: *start,
            end: *end,
        }
    }

    pub fn is_empty(self) -> bool
        ensures { result ≡ is_empty self }
    {
        self.end <= self.start
    }

    pub fn is_same(self, other: TryRange) -> bool
        ensures { result ≡ is_same self other }
    {
        self.start == other.start && self.end == other.end
    }

    /// Whether the ranges differ and have an address in common.
    pub fn overlaps(self, other: TryRange) -> bool
        ensures { result ≡ overlaps self other }
    {
        !self.is_same(other) && self.start < other.end && other.start < self.end
    }
}

impl Short<'_> {
    /// The range of a handler.
    pub fn range_of(&self, catch: &Catch) -> TryRange
        ensures { result ≡ range_of self.now catch.now }
    {
        TryRange {
            start: self.label_address(&catch.from),
            end: self.label_address(&catch.to),
        }
    }

    /// The ranges of the handlers.
    pub fn ranges_of(&self, alloc: Global, catches: &[Catch]) -> Result<Vec<TryRange>, AllocError>
        ensures { IfOk result (λ ranges. ranges.items ≡ ranges_of self.now catches.now) }
    {
        let mut ranges = Vec::new(alloc);
        for catch in catches {
            ranges.push(self.range_of(catch))?;
        }
        Ok(ranges)
    }
}

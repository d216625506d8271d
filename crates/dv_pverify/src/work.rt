// How much work methods are: it is shared out by it, and nothing that is proved depends on it.

use dv_defs::{Image, MethodId};
use dv_ops::{coded_at, units_of};
use std::alloc::{AllocError, Global};

/// Sums of work: of the methods before each, and of all.
#[derive(Drop)]
pub struct Work {
    sums: Vec<u64>,
}

impl Work {
    /// The work of an image's first methods, so many.
    pub fn new(alloc: Global, image: &Image, count: u32) -> Result<Work, AllocError> {
        let mut sums = Vec::with_capacity(alloc, count as usize + 1)?;
        let mut sum = 0u64;
        for method in 0..count {
            sums.push(sum)?;
            sum = sum.saturating_add(work_of(image, MethodId(method)));
        }
        sums.push(sum)?;
        Ok(Work { sums })
    }

    /// That of so many methods from one on.
    pub fn of(&self, from: u32, count: u32) -> u64 {
        self.before(from.saturating_add(count))
            .saturating_sub(self.before(from))
    }

    fn before(&self, method: u32) -> u64 {
        self.sums.get(method as usize).copied().unwrap_or(0)
    }
}

/// The cells of a method, which are its registers by its units; and one, for there is something to do for each.
fn work_of(image: &Image, method: MethodId) -> u64 {
    match coded_at(image, method) {
        Some(coded) => {
            let body = coded.body;
            let units = units_of(&coded).len() as u64;
            u64::from(body.registers)
                .saturating_mul(units)
                .saturating_add(1)
        }
        None => 1,
    }
}

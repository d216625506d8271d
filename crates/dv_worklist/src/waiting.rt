// The places that wait, and which of them goes first.
ghost use Rattle.std.specs.Prelude.{◌≡◌, ◌<◌, IfOk, IfSome, true, false, length, replicate, slice_set};
ghost use Rattle.dv_worklist.specs.Waiting.{IsOne, IsOneFrom, Waits, without};

use std::alloc::{AllocError, Global};
use std::marker::Model;

/// A set of places. To a contract it is a flag for each place. Those that were never taken go before those that were, and of each the lowest first:
/// so what brings states for the first time has brought them before a loop is gone round again.
#[derive(Drop)]
pub struct Waiting {
    flags: Vec<bool>,
    taken: Vec<bool>,
    // No place below this one waits that was never taken.
    lowest_new: usize,
    // No place below this one waits that was taken.
    lowest_taken: usize,
}

impl Model for Waiting {
    ghost use Rattle.std.specs.Prelude.{◌≡◌, List, Bool, length};

    ghost Value = { List Bool };

    ghost view = { λ w. w.flags.items };

    ghost invariant = { λ w. length w.taken.items ≡ length w.flags.items };
}

impl Waiting {
    /// No place of so many waits.
    pub fn none(alloc: Global, size: usize) -> Result<Waiting, AllocError>
        ensures { IfOk result (λ waiting. waiting ≡ replicate size false) }
    {
        let flags = vec![in alloc; false; size]?;
        let taken = vec![in alloc; false; size]?;
        Ok(Waiting {
            flags,
            taken,
            lowest_new: size,
            lowest_taken: size,
        })
    }

    /// Adds a place, which may wait already.
    pub fn add(&mut self, place: usize)
        requires place { place < length self.old }
        ensures added { self.new ≡ slice_set self.old place true }
    {
        self.flags[place] = true;
        if self.taken[place] {
            self.lowest_taken = self.lowest_taken.min(place);
        } else {
            self.lowest_new = self.lowest_new.min(place);
        }
    }

    /// Takes out a place that waits.
    pub fn take(&mut self) -> Option<usize>
        ensures one { IsOne self.old result }
        ensures taken { self.new ≡ without self.old result }
    {
        let place = self.first()?;
        self.flags[place] = false;
        self.taken[place] = true;
        Some(place)
    }

    /// The place that goes first.
    fn first(&mut self) -> Option<usize>
        ensures one { IsOne self.old result }
        ensures same { self.new ≡ self.old }
    {
        if let Some(place) = lowest_new(&self.flags, &self.taken, self.lowest_new) {
            self.lowest_new = place;
            return Some(place);
        }
        self.lowest_new = self.flags.len();
        if let Some(place) = lowest_of(&self.flags, self.lowest_taken) {
            self.lowest_taken = place;
            return Some(place);
        }
        self.lowest_taken = 0;
        lowest_of(&self.flags, 0)
    }
}

// The lowest place, from one on, that waits and was never taken.
fn lowest_new(flags: &[bool], taken: &[bool], from: usize) -> Option<usize>
    requires { length taken.now ≡ length flags.now }
    ensures { IfSome result (Waits flags.now) }
{
    for place in from..flags.len() {
        if flags[place] && !taken[place] {
            return Some(place);
        }
    }
    None
}

// The lowest place, from one on, that waits.
fn lowest_of(flags: &[bool], from: usize) -> Option<usize>
    ensures { IsOneFrom from flags.now result }
{
    for place in from..flags.len() {
        if flags[place] {
            return Some(place);
        }
    }
    None
}

// Runs whose turns are picked by the words of a generator.
ghost use Rattle.std.specs.Prelude.{◌≡◌, ◌≢◌, ◌++◌, [], List, Ok, OnErr, OnOk, None as Nothing, slice_index_or, length};
ghost use Rattle.dv_defs.specs.declared.run.Entry.{Entry};
ghost use Rattle.dv_machine.specs.Replaying.{picked, runnable_from};
ghost use Rattle.dv_machine.specs.Running.{ending_of};
ghost use Rattle.dv_machine.specs.Seeds.{log_of_seed};
ghost use Rattle.dv_sound.specs.Runs.{IsSameRun, AtItsState};

use crate::safe::SafeVm;
use rand_core::{Rng, SeedableRng};
use rand_pcg::Pcg32;
use std::alloc::AllocError;

impl<'v> SafeVm<'v> {
    /// How many threads are runnable.
    fn runnable_count(&self) -> u32
        ensures { AtItsState self.now (λ main m. result ≡ length (runnable_from self.now.verified.image m m.threads 0)) }
    {
        let mut count = 0;
        for thread in 0..self.threads() {
            if self.runnable(thread) {
                count += 1;
            }
        }
        count
    }

    /// The runnable thread at a place among those that are.
    fn runnable_at(&self, place: u32) -> u32
        ensures { AtItsState self.now (λ main m. result ≡ slice_index_or (runnable_from self.now.verified.image m m.threads 0) place 0) }
    {
        let mut before = place;
        for thread in 0..self.threads() {
            if self.runnable(thread) {
                if before == 0 {
                    return thread;
                }
                before -= 1;
            }
        }
        0
    }

    /// The thread that a word picks: of those that are runnable, the one at the place (word div 256) mod their number.
    fn picked(&self, word: u32) -> u32
        ensures { AtItsState self.now (λ main m. result ≡ picked (runnable_from self.now.verified.image m m.threads 0) word) }
    {
        let count = self.runnable_count();
        if count == 0 {
            0
        } else {
            self.runnable_at(word / 256 % count)
        }
    }

    /// Turns until the run has ended, as the words of a seed pick them: each of worker 0, of one of the runnable threads, and of 1 to 256 steps.
    ///
    /// # Errors
    ///
    /// Want of memory; the turns that were done before stand then.
    pub fn seeded(&mut self, seed: u64) -> Result<(), AllocError>
        requires home { self.old.lent ≡ [] }
        ensures done { OnOk result (AtItsState self.old (λ main m. self.old.log ≡ [] → log_of_seed self.old.verified.image main self.old.machine.limits seed ≡ Ok self.new.log)) }
        ensures ended { OnOk result (AtItsState self.new (λ main m. ending_of self.new.verified.image m ≢ Nothing)) }
        ensures part { OnErr result (AtItsState self.old (λ main m. self.old.log ≡ [] → (rest : List Entry) × (log_of_seed self.old.verified.image main self.old.machine.limits seed ≡ Ok (self.new.log ++ rest)))) }
        ensures same { IsSameRun self.old self.new }
    {
        let mut words = Pcg32::seed_from_u64(seed);
        while self.ending().is_none() {
            let word = words.next_u32();
            let thread = self.picked(word);
            self.take_turn(0, thread, 1 + word % 256)?;
        }
        Ok(())
    }
}

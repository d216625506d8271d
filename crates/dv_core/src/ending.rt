// How a run stands.
ghost use Rattle.std.specs.Prelude.{◌≡◌, not};
ghost use Rattle.std.specs.List.{list_all};
ghost use Rattle.dv_words.specs.Running as steps;
ghost use Rattle.dv_words.specs.Threads as threads;
ghost use Rattle.dv_threads.specs.Kept.{AreAligned, threads_of};
ghost use Rattle.dv_core.specs.Machines.{machine_of};
ghost use Rattle.dv_core.specs.Watching.{AreWatchable};

use crate::vm::Vm;
use crate::waiting::is_alive;
use dv_defs::{End, Ending, Image};
use dv_threads::Threads;

/// Whether each thread has returned or died.
fn all_ended(threads: &Threads) -> bool
    ensures { AreAligned threads.now → result ≡ steps.all_ended (threads_of threads.now) }
{
    have_ended(&threads.ends)
}

/// Whether each of these threads has returned or died.
fn have_ended(ends: &[End]) -> bool
    ensures { result ≡ list_all (λ end. not (threads.is_alive end)) ends.now }
{
    ends.iter().all(|end| !is_alive(*end))
}

impl Vm {
    /// What the run has come to; none where it goes on. Tested in this order: what stopped it, whether all threads have ended, whether its
    /// steps are spent, and whether no thread is runnable.
    pub fn ending(&self, image: &Image) -> Option<Ending>
        ensures { AreWatchable image.now self.now → result ≡ steps.ending_of image.now (machine_of self.now) }
    {
        match self.stop {
            Some(ending) => Some(ending),
            None => self.ending_without_stop(image),
        }
    }

    /// What a run that nothing stopped has come to.
    fn ending_without_stop(&self, image: &Image) -> Option<Ending>
        ensures { AreWatchable image.now self.now → result ≡ steps.ending_without_stop image.now (machine_of self.now) }
    {
        if all_ended(&self.guest.threads) {
            Some(Ending::Done)
        } else if self.steps == self.limits.budget {
            Some(Ending::Steps)
        } else if self.any_runnable(image) {
            None
        } else {
            Some(Ending::NoRunnable)
        }
    }

    /// Whether some thread is runnable.
    fn any_runnable(&self, image: &Image) -> bool
        ensures { AreWatchable image.now self.now → result ≡ steps.any_runnable image.now (machine_of self.now) (threads_of self.now.guest.threads) 0 }
    {
        let Ok(count) = u32::try_from(self.guest.threads.stacks.len()) else {
            return false;
        };
        for thread in 0..count {
            if self.runnable(image, thread) {
                return true;
            }
        }
        false
    }
}

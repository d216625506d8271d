// Runs whose turns are of the lowest runnable thread.
ghost use Rattle.std.specs.Prelude.{◌≡◌, ◌≢◌, [], OnOk, None as Nothing};
ghost use Rattle.dv_defs.specs.Pools.{Method};
ghost use Rattle.dv_machine.specs.Running.{ending_of};
ghost use Rattle.dv_machine.specs.State.{Machine};
ghost use Rattle.dv_sound.specs.Moves.{FramesStay};
ghost use Rattle.dv_sound.specs.Runs.{HasStopped, IsAt, IsSameRun, RanLowest, AtItsState};

use crate::safe::SafeVm;
use std::alloc::AllocError;

/// The most steps of a turn.
const MOST: u32 = 256;

impl<'v> SafeVm<'v> {
    /// Turns until the run has ended, each of the lowest runnable thread that is at home, by worker 0, and of 256 steps at most. It stops before
    /// where each runnable thread is lent.
    ///
    /// # Errors
    ///
    /// Want of memory; the turns that were done before stand then.
    pub fn run(&mut self) -> Result<(), AllocError>
        ensures ran { AtItsState self.old (λ main m. self.old.lent ≡ [] → RanLowest self.old self.new main m) }
        ensures ended { OnOk result ((main : Method) (m : Machine) → self.old.lent ≡ [] → IsAt self.new main m → ending_of self.new.verified.image m ≢ Nothing) }
        ensures stopped { OnOk result (AtItsState self.new (λ main m. HasStopped self.new m)) }
        ensures same { IsSameRun self.old self.new }
        ensures lent_stay { FramesStay self.old.machine self.new.machine self.old.lent }
    {
        while self.goes_on() {
            let Some(thread) = self.ready() else {
                return Ok(());
            };
            self.take_turn(0, thread, MOST)?;
        }
        Ok(())
    }
}

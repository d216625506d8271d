// A machine led by a given schedule.
ghost use Rattle.std.specs.Prelude.{◌≡◌, [], IfErr, IfOk};
ghost use Rattle.dv_defs.specs.Pools.{Method, method_at};
ghost use Rattle.dv_machine.specs.Replaying.{IsFinished};
ghost use Rattle.dv_sound.specs.Moves.{AreUsable};
ghost use Rattle.dv_sound.specs.Replays.{IsRefused};
ghost use Rattle.dv_machine.specs.Mains.{HasMain};

use crate::error::ReplayError;
use crate::playing::play_to_end;
use crate::safe::{SafeVm, opened};
use dv_defs::{Entry, Limits, MethodId};
use dv_rules::Verified;
use std::alloc::{AllocError, Global};

/// A copy of a schedule.
fn copied(alloc: Global, log: &[Entry]) -> Result<Vec<Entry>, AllocError>
    ensures { IfOk result (λ copy. copy.items ≡ log.now) }
{
    let mut copy = Vec::with_capacity(alloc, log.len())?;
    copy.extend_from_slice(log)?;
    Ok(copy)
}

impl<'v> SafeVm<'v> {
    /// A run of a main method, led by a schedule to an ending.
    ///
    /// # Errors
    ///
    /// The entry at which the schedule is refused, or want of memory.
    pub fn replay(
        alloc: Global,
        verified: &'v Verified,
        main: MethodId,
        limits: Limits,
        log: &[Entry],
    ) -> Result<SafeVm<'v>, ReplayError>
        requires main { HasMain verified.now.image main.0 }
        requires limits { AreUsable limits }
        ensures program { IfOk result (λ r. (r.verified ≡ verified.now) × (r.main ≡ main) × (r.machine.limits ≡ limits)) }
        ensures log { IfOk result (λ r. (r.log ≡ log.now) × (r.lent ≡ [])) }
        ensures finished { IfOk result (λ r. (m : Method) → method_at verified.now.image main.0 ≡ Some m → IsFinished verified.now.image m limits log.now) }
        ensures refused { IfErr result (λ e. (m : Method) → method_at verified.now.image main.0 ≡ Some m → IsRefused e verified.now.image m limits log.now) }
    {
        let copy = copied(alloc, log)?;
        let mut vm = opened(alloc, verified, main, limits)?;
        match play_to_end(&verified.image, &mut vm, log) {
            Ok(()) => Ok(SafeVm::standing(verified, main, vm, copy, Vec::new(alloc))),
            Err(error) => {
                drop(vm);
                Err(error)
            }
        }
    }
}

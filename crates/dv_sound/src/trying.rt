// Turns that are tried: nobody asks first whether the thread can do one, and nothing is taken back.
ghost use Rattle.std.specs.Prelude.{◌≡◌, ◌≢◌, ◌≤◌, ℕ, All, List, false, true};
ghost use Rattle.dv_core.specs.Machines.{machine_of};
ghost use Rattle.dv_defs.specs.declared.names.MethodId.{MethodId as Main};
ghost use Rattle.dv_sound.specs.Lending.{IsDone, logged_some};
ghost use Rattle.dv_sound.specs.Moves as moves;
ghost use Rattle.dv_sound.specs.Moves.{FramesStay, InEachState, IsTurn};
ghost use Rattle.dv_sound.specs.Runs.{IsKept, IsSameRun, IsTurned, MayTurn, TurnedFrom, AtItsState, WhereKept};
ghost use Rattle.dv_sound.specs.Trying.{IsLedBy};

use crate::lending::log_steps;
use crate::moves::{goes_on, last_on, run_on};
use crate::safe::SafeVm;
use dv_core::Vm;
use dv_defs::{Entry, Image};

/// The most steps of a turn.
const MOST: u32 = 256;

/// What a turn came to that was tried: so many steps, and whether memory was wanting for one more.
#[derive(Clone, Copy, PartialEq, Eq, Debug)]
pub struct Tried {
    pub steps: u32,
    pub wants: bool,
}

/// Local steps of a thread while the next one is local, then at most one other, so many in all at most, where the run goes on. Nothing is taken back.
fn try_steps(image: &Image, vm: &mut Vm, thread: u32, most: u32) -> Tried
    ensures few { result.steps ≤ most }
    ensures done { InEachState image.now vm.old (λ T m. moves.goes_on vm.old ≡ true → IsDone image.now T m thread result.steps vm.old vm.new) }
    ensures turned { InEachState image.now vm.old (λ T m. moves.goes_on vm.old ≡ true → result.wants ≡ false → IsTurn image.now T m thread most result.steps vm.new) }
    ensures some { InEachState image.now vm.old (λ T m. moves.may_step image.now m thread ≡ true → 1 ≤ most → result.wants ≡ false → 1 ≤ result.steps) }
{
    let done = run_on(image, vm, thread, most);
    if done == most {
        return Tried {
            steps: done,
            wants: false,
        };
    }
    match last_on(image, vm, thread) {
        Ok(last) => Tried {
            steps: done + last,
            wants: false,
        },
        Err(_) => Tried {
            steps: done,
            wants: true,
        },
    }
}

/// A turn that is tried, from where a log led. Its steps are logged where there are some.
fn tried_turn(image: &Image, vm: &mut Vm, log: &mut Vec<Entry>, worker: u32, thread: u32) -> Tried
    ensures few { result.steps ≤ 256 }
    ensures logs { log.new.items ≡ logged_some log.old.items worker thread result.steps }
    ensures done { (main : Main) (lent : List ℕ) (k : IsKept image.now main vm.old log.old.items lent) → IsDone image.now k.typings k.machine thread result.steps vm.old vm.new }
    ensures turned { (main : Main) (lent : List ℕ) (k : IsKept image.now main vm.old log.old.items lent) → moves.may_step image.now k.machine thread ≡ true → result.wants ≡ false →
        TurnedFrom image.now main vm.old log.old.items lent k worker thread 256 result.steps vm.new log.new.items }
    ensures kept { WhereKept image.now vm.old log.old.items (λ main lent. All (λ t. t ≢ thread) lent → IsKept image.now main vm.new log.new.items lent) }
    ensures limits { WhereKept image.now vm.old log.old.items (λ main lent. vm.new.limits ≡ vm.old.limits) }
    ensures stay { WhereKept image.now vm.old log.old.items (λ main lent. All (λ t. t ≢ thread) lent → FramesStay (machine_of vm.old) (machine_of vm.new) lent) }
    ensures some { (main : Main) (lent : List ℕ) (k : IsKept image.now main vm.old log.old.items lent) → moves.may_step image.now k.machine thread ≡ true →
        result.wants ≡ false → 1 ≤ result.steps }
{
    if log.reserve(1).is_err() {
        return Tried {
            steps: 0,
            wants: true,
        };
    }
    if !goes_on(vm) {
        return Tried {
            steps: 0,
            wants: false,
        };
    }
    let tried = try_steps(image, vm, thread, MOST);
    log_steps(log, worker, thread, tried.steps);
    tried
}

impl<'v> SafeVm<'v> {
    /// A turn of a thread at home by a worker that is tried, of at most 256 steps; its steps are logged where there are some. None is done where the run
    /// has ended or the thread isn't runnable; else it is a whole turn, as `take_turn` does it, unless memory is wanting. Where it is wanting for the last
    /// step, the local ones before it stand, and it is told.
    pub fn try_turn(&mut self, worker: u32, thread: u32) -> Tried
        requires home { All (λ t. t ≢ thread) self.old.lent }
        ensures few { result.steps ≤ 256 }
        ensures logs { self.new.log ≡ logged_some self.old.log worker thread result.steps }
        ensures led { AtItsState self.old (λ main m. IsLedBy self.old self.new main m thread result.steps) }
        ensures turned { AtItsState self.old (λ main m. MayTurn self.old m thread → result.wants ≡ false → IsTurned self.old self.new main m worker thread 256 result.steps) }
        ensures some { AtItsState self.old (λ main m. MayTurn self.old m thread → result.wants ≡ false → 1 ≤ result.steps) }
        ensures same { IsSameRun self.old self.new }
        ensures lent_stay { FramesStay self.old.machine self.new.machine self.old.lent }
    {
        let verified = self.verified();
        let SafeVm { vm, log, .. } = self;
        tried_turn(&verified.image, vm, log, worker, thread)
    }
}

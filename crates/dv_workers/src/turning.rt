// Turns and slices of a machine: what they log, and that what was printed stays printed.
ghost use Rattle.std.specs.Prelude.{◌≡◌, ◌≢◌, ◌<◌, ◌≤◌, ◌+◌, All, IfOk, MatchOption, OnOk, OnErr, false, length, min};
ghost use Rattle.dv_sound.specs.Lending.{IsFitting, IsSameProgram};
ghost use Rattle.dv_sound.specs.Runs.{IsSameRun};
ghost use Rattle.law_output.specs.Laws.{PrintsOn};
ghost use Rattle.dv_workers.specs.Chores.{IsSlice};
ghost use Rattle.dv_workers.specs.Desks.{IsLongerBy, MayGo, printed};
ghost use Rattle.dv_workers.specs.Seats.{names_of};

use crate::pouring::printed;
use dv_local::Slice;
use dv_sound::{Refused, SafeVm, Tried};
use std::alloc::AllocError;

/// A turn of a thread at home that is tried: local steps, and then one other, where it may do them. One entry is logged where it has steps. It has some where
/// the thread may go, unless memory is wanting.
pub fn try_turn(vm: &mut SafeVm, worker: u32, thread: u32) -> Tried
    requires worker { worker < 8 }
    requires home { All (λ t. t ≢ thread) vm.old.lent }
    ensures same { IsSameRun vm.old vm.new }
    ensures logs { IsLongerBy (min 1 result.steps) vm.old.log vm.new.log }
    ensures some { MayGo vm.old thread → result.wants ≡ false → 1 ≤ result.steps }
    ensures prints { PrintsOn (printed vm.old) (printed vm.new) }
{
    let _log = vm.log();
    let _before = printed(vm);
    let tried = vm.try_turn(worker, thread);
    let _after = printed(vm);
    tried
}

/// Brings a slice that fits; gives how many entries were logged.
///
/// # Errors
///
/// Want of memory; all is as before then, and the slice is given back.
pub fn bring(vm: &mut SafeVm, worker: u32, slice: Slice) -> Result<u64, Refused>
    requires worker { worker < 8 }
    requires made { IsSlice vm.old.verified.image 256 slice }
    requires fits { IsFitting vm.old slice }
    ensures same { IsSameProgram vm.old vm.new }
    ensures logs { IfOk result (λ n. IsLongerBy n vm.old.log vm.new.log) }
    ensures prints { PrintsOn (printed vm.old) (printed vm.new) }
    ensures home { OnOk result (length vm.new.lent < length vm.old.lent) }
    ensures refused { OnErr result (vm.new ≡ vm.old) }
{
    let _log = vm.log();
    let _before = printed(vm);
    let steps = vm.commit(worker, slice)?;
    let _after = printed(vm);
    Ok(if steps == 0 { 0 } else { 1 })
}

/// Lends a thread; gives its first slice. None where its next step isn't local.
///
/// # Errors
///
/// Want of memory; all is as before then.
pub fn lend(vm: &mut SafeVm, thread: u32) -> Result<Option<Slice>, AllocError>
    ensures names { names_of vm.new ≡ names_of vm.old }
    ensures log { vm.new.log ≡ vm.old.log }
    ensures prints { printed vm.new ≡ printed vm.old }
    ensures slice { IfOk result (λ o. MatchOption o (vm.new ≡ vm.old) (λ s. IsSlice vm.old.verified.image 0 s × (length vm.new.lent ≡ length vm.old.lent + 1))) }
    ensures refused { OnErr result (vm.new ≡ vm.old) }
{
    vm.lend(thread)
}

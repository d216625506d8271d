// What an engine does that stands at a state of the tagged machine.
ghost use Rattle.std.specs.Prelude.{◌≡◌, ◌≤◌, IfOk, List, None as Nothing, true};
ghost use Rattle.dv_machine.specs.Running as running;
ghost use Rattle.dv_words.specs.declared.state.Frame.{Frame as Activation};
ghost use Rattle.dv_words.specs.declared.state.Level.{Level};
ghost use Rattle.dv_words.specs.State.{WordThread};
ghost use Rattle.dv_core.specs.Advancing.{RunsFrame};
ghost use Rattle.dv_core.specs.Machines.{machine_of};
ghost use Rattle.dv_sound.specs.Moves as moves;
ghost use Rattle.dv_sound.specs.Moves.{HasRun, IsAffordable, IsRun, KeepsOthers, Lasts, Steps, Turns, goes_locally, InEachState};

use dv_core::{Step, Vm};
use dv_defs::Image;
use dv_words::Frame;
use std::alloc::AllocError;

/// Whether nothing stopped the run, and its steps aren't spent.
pub fn goes_on(vm: &Vm) -> bool
    ensures { result ≡ moves.goes_on vm.now }
{
    vm.stop.is_none() && vm.steps < vm.limits.budget
}

/// Whether the run goes on and a thread is runnable.
pub fn may_step(image: &Image, vm: &Vm, thread: u32) -> bool
    ensures { InEachState image.now vm.now (λ T m. result ≡ moves.may_step image.now m thread) }
{
    if goes_on(vm) {
        vm.runnable(image, thread)
    } else {
        false
    }
}

/// A step of a thread, where the run goes on and the thread may do one.
///
/// # Errors
///
/// Want of memory; the engine stands where it stood then.
pub fn step_on(image: &Image, vm: &mut Vm, thread: u32) -> Result<Step, AllocError>
    ensures steps { InEachState image.now vm.old (λ T m. moves.goes_on vm.old ≡ true → Steps result image.now T m thread vm.old vm.new) }
    ensures others { InEachState image.now vm.old (λ T m. moves.goes_on vm.old ≡ true → KeepsOthers thread vm.old vm.new) }
{
    vm.reads_fit(thread);
    vm.step(image, thread)
}

/// So many steps as the budget has room for.
fn affordable(vm: &Vm, most: u32) -> u32
    ensures few { result ≤ most }
    ensures affordable { vm.now.steps ≤ vm.now.limits.budget → IsAffordable vm.now.steps vm.now.limits.budget most result }
{
    let left = vm.limits.budget.saturating_sub(vm.steps);
    if left < u64::from(most) {
        left as u32
    } else {
        most
    }
}

/// Local steps of a thread, so many at most, while the next one is local and the budget has room; gives how many were done.
pub fn run_on(image: &Image, vm: &mut Vm, thread: u32, most: u32) -> u32
    ensures few { result ≤ most }
    ensures ran { InEachState image.now vm.old (λ T m. moves.goes_on vm.old ≡ true → IsRun image.now T m thread most result vm.new) }
    ensures took { InEachState image.now vm.old (λ T m. running.ending_of image.now m ≡ Nothing → (own : WordThread) (f : Activation) (ls : List Level) → RunsFrame (machine_of vm.old) thread own f ls →
        HasRun (machine_of vm.old) (machine_of vm.new) thread result own f ls) }
    ensures others { InEachState image.now vm.old (λ T m. KeepsOthers thread vm.old vm.new) }
{
    vm.reads_fit(thread);
    let most = affordable(vm, most);
    vm.run(image, thread, most)
}

/// The last step of a turn: of any kind, where the thread may do one.
///
/// # Errors
///
/// Want of memory; the engine stands where it stood then.
pub fn last_on(image: &Image, vm: &mut Vm, thread: u32) -> Result<u32, AllocError>
    ensures few { IfOk result (λ n. n ≤ 1) }
    ensures last { InEachState image.now vm.old (λ T m. Lasts result image.now T m thread vm.old vm.new) }
    ensures others { InEachState image.now vm.old (λ T m. KeepsOthers thread vm.old vm.new) }
{
    if !goes_on(vm) {
        return Ok(0);
    }
    let stepped = step_on(image, vm, thread)?;
    match stepped {
        Step::Done => Ok(1),
        Step::Held => Ok(0),
    }
}

/// The rest of a turn that begins with local steps: these, and then at most one other. Where that one finds no memory, they are taken back.
fn turn_locally(
    image: &Image,
    vm: &mut Vm,
    kept: &mut Frame,
    thread: u32,
    most: u32,
) -> Result<u32, AllocError>
    ensures few { IfOk result (λ n. n ≤ most) }
    ensures turned { InEachState image.now vm.old (λ T m. running.ending_of image.now m ≡ Nothing → goes_locally image.now thread m ≡ true →
        Turns result image.now T m thread most vm.old vm.new) }
    ensures others { InEachState image.now vm.old (λ T m. running.ending_of image.now m ≡ Nothing → goes_locally image.now thread m ≡ true → KeepsOthers thread vm.old vm.new) }
{
    let is_kept = vm.keep_top(thread, kept)?;
    if !is_kept {
        return Ok(0);
    }
    let done = run_on(image, vm, thread, most);
    if done == most {
        return Ok(done);
    }
    match last_on(image, vm, thread) {
        Ok(last) => Ok(done + last),
        Err(error) => {
            vm.take_back(thread, kept, done);
            Err(error)
        }
    }
}

/// A turn of a thread that may step: local steps while the next one is local, then at most one other, so many in all at most; gives how many
/// were done. The frame is where the one on top is kept while local steps are done.
///
/// # Errors
///
/// Want of memory; the engine stands where it stood then.
pub fn take_turn(
    image: &Image,
    vm: &mut Vm,
    kept: &mut Frame,
    thread: u32,
    most: u32,
) -> Result<u32, AllocError>
    ensures few { IfOk result (λ n. n ≤ most) }
    ensures turned { InEachState image.now vm.old (λ T m. moves.may_step image.now m thread ≡ true → Turns result image.now T m thread most vm.old vm.new) }
    ensures others { InEachState image.now vm.old (λ T m. moves.may_step image.now m thread ≡ true → KeepsOthers thread vm.old vm.new) }
{
    if most == 0 {
        Ok(0)
    } else if vm.next_is_local(image, thread) {
        turn_locally(image, vm, kept, thread, most)
    } else {
        last_on(image, vm, thread)
    }
}

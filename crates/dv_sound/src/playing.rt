// An engine led by a schedule.
ghost use Rattle.std.specs.Prelude.{◌≡◌, ◌≤◌, ◌<◌, ℕ, IfOk, false, length};
ghost use Rattle.dv_machine.specs.Replaying.{one_step, replay_from, steps_of};
ghost use Rattle.dv_sound.specs.Moves as moves;
ghost use Rattle.dv_sound.specs.Moves.{InEachState};
ghost use Rattle.dv_sound.specs.Replays.{Plays, PlaysSome, PlaysToEnd, Refuses};

use crate::error::ReplayError;
use crate::moves::{goes_on, run_on, step_on};
use dv_core::{Step, Vm};
use dv_defs::{Entry, Image};
use std::alloc::AllocError;

/// Why a step of an entry isn't done: the run has ended, or the thread isn't runnable.
fn refusal(image: &Image, vm: &Vm, entry: u32) -> ReplayError
    ensures { InEachState image.now vm.now (λ T m. (t : ℕ) → moves.may_step image.now m t ≡ false → Refuses result (one_step image.now entry t m)) }
{
    match vm.ending(image) {
        Some(_) => ReplayError::Long(entry),
        None => ReplayError::NotRunnable(entry),
    }
}

/// Some steps of an entry, at least one and so many at most; gives how many were done.
fn play_some(
    image: &Image,
    vm: &mut Vm,
    entry: u32,
    thread: u32,
    left: u32,
) -> Result<u32, ReplayError>
    ensures some { 0 < left → IfOk result (λ n. 0 < n) }
    ensures few { 0 < left → IfOk result (λ n. n ≤ left) }
    ensures plays { InEachState image.now vm.old (λ T m. PlaysSome result image.now T entry thread m vm.new) }
{
    if !goes_on(vm) {
        return Err(refusal(image, vm, entry));
    }
    let done = run_on(image, vm, thread, left);
    if done > 0 {
        return Ok(done);
    }
    let stepped = step_on(image, vm, thread)?;
    match stepped {
        Step::Done => Ok(1),
        Step::Held => Err(refusal(image, vm, entry)),
    }
}

/// The steps of an entry.
fn play(image: &Image, vm: &mut Vm, entry: u32, thread: u32, steps: u32) -> Result<(), ReplayError>
    ensures { InEachState image.now vm.old (λ T m. Plays result image.now T m (steps_of image.now entry thread steps m) vm.new) }
{
    let mut left = steps;
    while left > 0 {
        left -= play_some(image, vm, entry, thread, left)?;
    }
    Ok(())
}

/// The entries of a schedule, one after another.
///
/// # Errors
///
/// The first entry at which the schedule is refused, or want of memory; entries are counted in 32 bits.
pub fn play_all(image: &Image, vm: &mut Vm, log: &[Entry]) -> Result<(), ReplayError>
    ensures { InEachState image.now vm.old (λ T m. Plays result image.now T m (replay_from image.now 0 log.now m) vm.new) }
{
    let count = entries(log)?;
    for number in 0..count {
        let entry = log[number as usize];
        play(image, vm, number, entry.thread, entry.steps)?;
    }
    Ok(())
}

/// How many entries a schedule has.
///
/// # Errors
///
/// Want of memory, where 32 bits don't count them.
pub fn entries(log: &[Entry]) -> Result<u32, AllocError>
    ensures { IfOk result (λ n. n ≡ length log.now) }
{
    u32::try_from(log.len()).map_err(|_| AllocError)
}

/// The entries of a schedule, up to an ending.
///
/// # Errors
///
/// The first entry at which the schedule is refused; that it stops before the run has ended; or want of memory.
pub fn play_to_end(image: &Image, vm: &mut Vm, log: &[Entry]) -> Result<(), ReplayError>
    ensures { InEachState image.now vm.old (λ T m. PlaysToEnd result image.now T log.now m vm.new) }
{
    play_all(image, vm, log)?;
    match vm.ending(image) {
        Some(_) => Ok(()),
        None => Err(ReplayError::Short(entries(log)?)),
    }
}

// Threads that the host schedules itself.
ghost use Rattle.std.specs.Prelude.{◌≡◌, IfOk};
ghost use Rattle.dv_machine.specs.Mains.{HasMain};

use crate::HostError;
use dv_defs::{Entry, Limits, MethodId};
use dv_final::final_lines;
use dv_load::{main_method, read_program};
use dv_local::run_slice;
use dv_pverify::verify_one_by_one;
use dv_rules::Verified;
use dv_sound::SafeVm;
use std::alloc::{AllocError, Global};

const LIMITS: Limits = Limits {
    budget: 10_000_000,
    heap: 1_048_576,
    output: 16_777_216,
    threads: 64,
    levels: 1024,
    words: 16_384,
};

/// The verified program of a text.
pub fn verified(alloc: Global, text: &[u8]) -> Result<Verified, HostError> {
    if text.len() > 8_388_608 {
        return Err(HostError::TooLarge);
    }
    let image = read_program(alloc, text)?;
    Ok(verify_one_by_one(alloc, image)?)
}

/// The main method of `LMain;`.
fn main_of(alloc: Global, verified: &Verified) -> Result<MethodId, HostError>
    ensures { IfOk result (λ main. HasMain verified.now.image main.0) }
{
    match main_method(alloc, &verified.image, b"LMain;") {
        Ok(main) => Ok(main),
        Err(error) => Err(HostError::from(error)),
    }
}

/// Turns of the lowest thread that can go on, until the run has ended.
pub fn finish(run: &mut SafeVm) -> Result<(), AllocError> {
    while run.ending().is_none() {
        let Some(thread) = run.ready() else {
            break;
        };
        // Local steps, and the first step behind them that touches more than the thread's frame.
        if run.turn(0, thread, 256)? == 0 {
            break;
        }
    }
    Ok(())
}

/// What a run has printed, with the lines behind it.
pub fn printed(alloc: Global, run: &SafeVm) -> Result<Vec<u8>, AllocError> {
    let mut text = Vec::from_slice(alloc, run.vm().output())?;
    let lines = final_lines(alloc, &run.verified().image, run.vm())?;
    text.extend_from_slice(lines.bytes())?;
    Ok(text)
}

/// Runs the main method of `LMain;`: gives what is printed, and the schedule.
pub fn run_by_turns(
    alloc: Global,
    verified: &Verified,
) -> Result<(Vec<u8>, Vec<Entry>), HostError> {
    let main = main_of(alloc, verified)?;
    let mut run = SafeVm::open(alloc, verified, main, LIMITS)?;
    let ended = finish(&mut run);
    let text = printed(alloc, &run);
    let schedule = run.into_log();
    ended?;
    Ok((text?, schedule))
}

/// A worker does local steps of a thread, so many at most; gives how many came back into the run.
pub fn lend_once(run: &mut SafeVm, thread: u32, most: u32) -> Result<u32, AllocError> {
    let verified = run.verified();
    let Some(mut slice) = run.lend(thread)? else {
        return Ok(0);
    };
    let _done = run_slice(&verified.image, &mut slice, most);
    match run.commit(1, slice) {
        Ok(done) => Ok(done),
        Err(_) => Err(AllocError),
    }
}

// Programs are read, linked and verified, and then run or replayed.
ghost use Rattle.dv_sound.specs.Moves.{AreUsable};
ghost use Rattle.dv_machine.specs.Mains.{HasMain};

use dv_defs::{Ending, Entry, Limits, MethodId};
use dv_final::final_lines;
use dv_load::{main_method, read_program};
use dv_pverify::verify_one_by_one;
use dv_rules::Verified;
use dv_sound::{ReplayError, SafeVm};
use std::alloc::Global;
use std::process::Abort;
use std::str;

/// A verified program, and the limits within which it is run.
#[derive(Clone, Copy)]
pub struct Player<'v> {
    pub verified: &'v Verified,
    pub limits: Limits,
}

/// Stops the test where a fact of a row doesn't hold, and tells it with the row's turns.
pub fn check<R: Abort>(rt: &R, holds: bool, fact: &str, turns: &[(u32, u32)]) {
    assert!(rt; holds, "{fact}: {turns:?}");
}

/// A text, read, linked and verified.
pub fn verified<R: Abort>(rt: &R, alloc: Global, text: &str) -> Verified {
    assert!(rt; text.len() < 1_000_000, "{text}");
    let image = read_program(alloc, text.as_bytes());
    assert!(rt; image.is_ok(), "refused: {text}");
    let image = image.ok().expect(rt, "an image");
    let verified = verify_one_by_one(alloc, image);
    assert!(rt; verified.is_ok(), "not accepted: {text}");
    verified.ok().expect(rt, "an accepted program")
}

/// The main method of LMain;.
fn main_of<R: Abort>(rt: &R, alloc: Global, verified: &Verified) -> MethodId
    ensures { HasMain verified.now.image result.0 }
{
    match main_method(alloc, &verified.image, b"LMain;") {
        Ok(main) => main,
        Err(_) => panic!(rt; "no main method"),
    }
}

/// A run may be opened within these limits.
fn assert_usable<R: Abort>(rt: &R, limits: &Limits)
    ensures { AreUsable limits.now }
{
    assert!(rt; limits.threads >= 1);
    assert!(rt; limits.levels >= 2);
    assert!(rt; limits.words >= 256);
    assert!(rt; limits.heap < 0x8000_0000);
}

/// A run of main, as it begins.
pub fn opened<'v, R: Abort>(rt: &R, alloc: Global, player: Player<'v>) -> SafeVm<'v> {
    let Player { verified, limits } = player;
    let main = main_of(rt, alloc, verified);
    assert_usable(rt, &limits);
    match SafeVm::open(alloc, verified, main, limits) {
        Ok(run) => run,
        Err(_) => panic!(rt; "memory"),
    }
}

/// So many turns of a thread, each of one step, by worker 0.
fn go_on<R: Abort>(rt: &R, run: &mut SafeVm, thread: u32, steps: u32) {
    for _ in 0..steps {
        let done = run.turn(0, thread, 1).ok();
        check(rt, done == Some(1), "a step", &[(thread, steps)]);
    }
}

/// Steps of threads, so many of each, one after another.
fn go_all_on<R: Abort>(rt: &R, run: &mut SafeVm, turns: &[(u32, u32)]) {
    for (thread, steps) in turns {
        go_on(rt, run, *thread, *steps);
    }
}

/// A run in which so many steps of each thread were done.
pub fn stood<'v, R: Abort>(
    rt: &R,
    alloc: Global,
    player: Player<'v>,
    turns: &[(u32, u32)],
) -> SafeVm<'v> {
    let mut run = opened(rt, alloc, player);
    go_all_on(rt, &mut run, turns);
    run
}

/// A replay of main.
pub fn replayed<'v, R: Abort>(
    rt: &R,
    alloc: Global,
    player: Player<'v>,
    schedule: &[Entry],
) -> Result<SafeVm<'v>, ReplayError> {
    let Player { verified, limits } = player;
    let main = main_of(rt, alloc, verified);
    assert_usable(rt, &limits);
    SafeVm::replay(alloc, verified, main, limits, schedule)
}

/// A text, of printed bytes and of lines.
fn joined<R: Abort>(rt: &R, alloc: Global, printed: &[u8], lines: &[u8]) -> String {
    let printed = str::from_utf8(printed).ok().expect(rt, "printed text");
    let lines = str::from_utf8(lines).ok().expect(rt, "lines");
    let text = format!(in alloc; "{printed}{lines}");
    text.ok().expect(rt, "memory")
}

/// The printed bytes, and the lines behind them.
pub fn final_text<R: Abort>(rt: &R, alloc: Global, run: &SafeVm) -> String {
    let lines = final_lines(alloc, &run.verified().image, run.vm());
    let lines = lines.ok().expect(rt, "memory");
    let text = joined(rt, alloc, run.vm().output(), lines.bytes());
    drop(lines);
    text
}

/// A run has ended, with this final text.
pub fn assert_ended<R: Abort>(rt: &R, alloc: Global, run: &SafeVm, ending: Ending, text: &str) {
    assert_eq!(rt; run.ending(), Some(ending));
    let found = final_text(rt, alloc, run);
    assert_eq!(rt; found.as_str(), text);
    drop(found);
}

/// A log leads to a run that has ended so.
fn assert_log<R: Abort>(
    rt: &R,
    alloc: Global,
    player: Player<'_>,
    log: &[Entry],
    ending: Ending,
    text: &str,
) {
    match replayed(rt, alloc, player, log) {
        Ok(run) => {
            assert_ended(rt, alloc, &run, ending, text);
            drop(run);
        }
        Err(error) => panic!(rt; "{error:?}: {text}"),
    }
}

/// A run that is run on ends so, and its log leads there again.
pub fn assert_end<R: Abort>(
    rt: &R,
    alloc: Global,
    player: Player<'_>,
    run: SafeVm,
    ending: Ending,
    text: &str,
) {
    let mut run = run;
    assert!(rt; run.run().is_ok());
    assert_ended(rt, alloc, &run, ending, text);
    let log = run.into_log();
    assert_log(rt, alloc, player, &log, ending, text);
    drop(log);
}

// Slices of threads' steps: how they are lent, run and brought back, and what is seen of a run.
ghost use Rattle.std.specs.Prelude.{◌≡◌};
ghost use Rattle.dv_sound.specs.Lending.{IsLocalRun};

use crate::playing::final_text;
use dv_defs::{Entry, Image};
use dv_local::{Slice, run_slice};
use dv_sound::SafeVm;
use dv_words::Frame;
use std::alloc::{AllocError, Global};
use std::process::Abort;

/// The worker of a thread: each has one of its own, and no turn is by one of these.
pub fn worker_of(thread: u32) -> u32 {
    thread.saturating_add(4)
}

/// The image of the program that is run.
pub fn image_of<'v>(run: &SafeVm<'v>) -> &'v Image
    ensures { result.now ≡ run.now.verified.image }
{
    let verified = run.verified();
    &verified.image
}

/// A thread's first slice.
#[tactic(auto, using(dv_sound::proofs::Made::made_first))]
pub fn lent<R: Abort>(rt: &R, image: &Image, run: &mut SafeVm, thread: u32) -> Slice
    requires { run.old.verified.image ≡ image.now }
    ensures made { IsLocalRun image.now result }
    ensures same { run.new.verified.image ≡ image.now }
{
    match run.lend(thread) {
        Ok(lent) => {
            let Some(slice) = lent else {
                panic!(rt; "{thread} isn't lent");
            };
            slice
        }
        Err(_) => panic!(rt; "memory"),
    }
}

/// The same frame.
pub fn copy_of<R: Abort>(rt: &R, frame: &Frame) -> Frame
    ensures { result ≡ frame.now }
{
    let copy: Result<Frame, AllocError> = frame.clone();
    match copy {
        Ok(copy) => copy,
        Err(_) => panic!(rt; "memory"),
    }
}

/// A slice with no step that begins at this frame.
#[tactic(auto, using(dv_sound::proofs::Made::made_first))]
pub fn begun<R: Abort>(rt: &R, image: &Image, thread: u32, frame: &Frame) -> Slice
    ensures { IsLocalRun image.now result }
{
    let _ = image;
    let start = copy_of(rt, frame);
    let end = copy_of(rt, frame);
    Slice {
        thread,
        start,
        steps: 0,
        end,
    }
}

/// Local steps of a slice, so many at most; gives how many were done.
#[tactic(auto, using(dv_sound::proofs::Made::made_on))]
pub fn work(image: &Image, slice: &mut Slice, most: u32) -> u32
    requires { IsLocalRun image.now slice.old }
    ensures { IsLocalRun image.now slice.new }
{
    run_slice(image, slice, most)
}

/// A slice comes back; gives how many of its steps were done.
pub fn brought<R: Abort>(rt: &R, image: &Image, run: &mut SafeVm, slice: Slice) -> u32
    requires same { run.old.verified.image ≡ image.now }
    requires made { IsLocalRun image.now slice }
    ensures { run.new.verified.image ≡ image.now }
{
    match run.commit(worker_of(slice.thread), slice) {
        Ok(done) => done,
        Err(_) => panic!(rt; "memory"),
    }
}

/// A turn of so many steps by worker 1, where there is one.
pub fn turn<R: Abort>(rt: &R, image: &Image, run: &mut SafeVm, turn: Option<(u32, u32)>)
    requires { run.old.verified.image ≡ image.now }
    ensures { run.new.verified.image ≡ image.now }
{
    let _ = image;
    if let Some((thread, steps)) = turn {
        let done = run.turn(1, thread, steps).ok();
        assert_eq!(rt; done, Some(steps));
    }
}

/// The frame on top of a thread.
pub fn top<R: Abort>(rt: &R, run: &SafeVm, thread: u32) -> Frame {
    let top = run.vm().copy_top(thread).ok().expect(rt, "memory");
    top.expect(rt, "a frame")
}

/// What is seen of a run: its steps, its schedule, and its final text.
#[derive(Drop)]
pub struct State {
    steps: u64,
    log: Vec<Entry>,
    text: String,
}

pub fn seen<R: Abort>(rt: &R, alloc: Global, run: &SafeVm) -> State {
    State {
        steps: run.vm().steps,
        log: Vec::from_slice(alloc, run.log()).ok().expect(rt, "memory"),
        text: final_text(rt, alloc, run),
    }
}

/// What is seen of a run is what was seen.
pub fn is_seen<R: Abort>(rt: &R, alloc: Global, run: &SafeVm, was: &State) -> bool {
    let text = final_text(rt, alloc, run);
    let is_same = run.vm().steps == was.steps
        && run.log() == was.log.as_slice()
        && text.as_str() == was.text.as_str();
    drop(text);
    is_same
}

/// A thread has the same frame on top in two runs.
fn assert_same_top<R: Abort>(rt: &R, one: &SafeVm, other: &SafeVm, thread: u32) {
    let one = one.vm().copy_top(thread).ok().expect(rt, "memory");
    let other = other.vm().copy_top(thread).ok().expect(rt, "memory");
    assert!(rt; one == other);
    drop(one);
    drop(other);
}

/// The printed bytes of two runs and the lines behind them are the same.
fn assert_same_text<R: Abort>(rt: &R, alloc: Global, one: &SafeVm, other: &SafeVm) {
    let one = final_text(rt, alloc, one);
    let other = final_text(rt, alloc, other);
    assert_eq!(rt; one.as_str(), other.as_str());
    drop(one);
    drop(other);
}

/// Two runs stand alike.
pub fn assert_alike<R: Abort>(rt: &R, alloc: Global, one: &SafeVm, other: &SafeVm) {
    assert_eq!(rt; one.vm().steps, other.vm().steps);
    assert_eq!(rt; one.log(), other.log());
    assert_same_text(rt, alloc, one, other);
    assert_eq!(rt; one.ending(), other.ending());
    assert_eq!(rt; one.ready(), other.ready());
    assert_eq!(rt; one.threads(), other.threads());
    for thread in 0..one.threads() {
        assert_same_top(rt, one, other, thread);
    }
}

// Threads lent to workers, which do local steps of them outside of the machine.
ghost use Rattle.std.specs.Prelude.{◌≡◌, ◌≤◌, ◌<◌, ◌&&◌, ◌+◌, ◌↔◌, IfErr, IfOk, IfSome, IsSome, IsTrue, MatchOption, OnErr, None as Nothing, Some as Just, slice_get, vec_capacity, vec_len};
ghost use Rattle.dv_machine.specs.Replaying.{next_is_local};
ghost use Rattle.dv_machine.specs.Running.{ending_of};
ghost use Rattle.dv_words.specs.Stacks.{top_regs};
ghost use Rattle.dv_frames.specs.Heads.{head_in};
ghost use Rattle.dv_threads.specs.Kept.{threads_of};
ghost use Rattle.dv_core.specs.Advancing.{running_frame, runs_in, top_frame};
ghost use Rattle.dv_core.specs.Guests.{IsOrdered};
ghost use Rattle.dv_core.specs.Machines.{machine_of};
ghost use Rattle.dv_sound.specs.Moves as moves;
ghost use Rattle.dv_sound.specs.Moves.{FramesStay, InEachState};
ghost use Rattle.dv_sound.specs.Lending.{IsCommitted, IsDone, IsFirstOf, IsFitting, IsLent, IsLocalRun, IsSameProgram, MayLend, committed, logged_some, without};
ghost use Rattle.dv_sound.specs.Runs.{AtItsState};

use crate::moves::may_step;
use crate::safe::SafeVm;
use dv_core::Vm;
use dv_defs::{End, Entry, Image};
use dv_frames::{Head, Stack, base_of};
use dv_local::Slice;
use dv_words::Frame;
use std::alloc::AllocError;

/// A slice that is given back, for want of memory.
#[derive(Drop)]
pub struct Refused {
    pub slice: Slice,
}

/// A frame without its registers.
fn head_of(frame: &Frame) -> Head
    ensures { result ≡ head_in frame.now }
{
    Head {
        method: frame.method,
        at: frame.at,
        result: frame.result,
        caught: frame.caught,
    }
}

/// The registers of the frame on top, none where the level on top isn't code.
fn registers(stack: &Stack) -> &[u32]
    ensures { result.now ≡ top_regs stack.now.levels }
{
    let base = base_of(stack.levels.as_slice(), stack.words.len());
    &stack.words[base..]
}

/// Whether heads are the same.
fn same_head(one: Head, other: Head) -> bool
    ensures { IsTrue result ↔ (one ≡ other) }
{
    one == other
}

/// Whether words are the same.
fn same_words(one: &[u32], other: &[u32]) -> bool
    ensures { IsTrue result ↔ (one.now ≡ other.now) }
{
    one == other
}

/// Whether this frame is on top.
fn is_on_top(stack: &Stack, frame: &Frame) -> bool
    ensures { IsTrue result ↔ (top_frame stack.now.levels ≡ Just frame.now) }
{
    let Some(head) = stack.head() else {
        return false;
    };
    same_head(head, head_of(frame)) && same_words(registers(stack), frame.regs.items())
}

/// Whether a thread is living, with nothing in flight.
fn is_running(ends: &[End], thread: u32) -> bool
    ensures { result ≡ runs_in (slice_get ends.now thread) }
{
    matches!(ends.get(thread as usize), Some(End::Living))
}

/// Whether a thread goes on at this frame.
fn is_at(vm: &Vm, thread: u32, frame: &Frame) -> bool
    ensures { IsOrdered vm.now.limits vm.now.guest → (IsTrue result ↔ (running_frame (slice_get (threads_of vm.now.guest.threads) thread) ≡ Just frame.now)) }
{
    if !is_running(&vm.guest.threads.ends, thread) {
        return false;
    }
    match vm.guest.threads.stacks.get(thread as usize) {
        Some(stack) => is_on_top(stack, frame),
        None => false,
    }
}

/// Whether a thread may step, and its next step touches its frame alone.
fn may_lend(image: &Image, vm: &Vm, thread: u32) -> bool
    ensures { InEachState image.now vm.now (λ T m. result ≡ (moves.may_step image.now m thread && next_is_local image.now m thread)) }
{
    if may_step(image, vm, thread) {
        vm.next_is_local(image, thread)
    } else {
        false
    }
}

/// The first slice of a thread that may step, and whose next step is local; none of another.
///
/// # Errors
///
/// Want of memory.
fn first_slice(image: &Image, vm: &Vm, thread: u32) -> Result<Option<Slice>, AllocError>
    ensures { InEachState image.now vm.now (λ T m. IfOk result (λ o. IsFirstOf o image.now m vm.now thread)) }
{
    if !may_lend(image, vm, thread) {
        return Ok(None);
    }
    let Some(start) = vm.copy_top(thread)? else {
        return Ok(None);
    };
    match start.clone() {
        Ok(end) => Ok(Some(Slice {
            thread,
            start,
            steps: 0,
            end,
        })),
        Err(error) => {
            drop(start);
            Err(error)
        }
    }
}

/// So many of these steps are done: none where the run has ended, and no more than its budget has room for.
fn affordable(image: &Image, vm: &Vm, steps: u32) -> u32
    ensures few { result ≤ steps }
    ensures exact { InEachState image.now vm.now (λ T m. result ≡ committed image.now m steps) }
{
    if vm.ending(image).is_some() {
        return 0;
    }
    let left = vm.limits.budget.saturating_sub(vm.steps);
    if left < u64::from(steps) {
        left as u32
    } else {
        steps
    }
}

/// So many steps of a slice, all of them or fewer.
fn do_steps(image: &Image, vm: &mut Vm, slice: &Slice, steps: u32)
    ensures { InEachState image.now vm.old (λ T m. ending_of image.now m ≡ Nothing → IsLocalRun image.now slice.now → running_frame (slice_get (machine_of vm.old).threads slice.now.thread) ≡ Just slice.now.start →
        steps ≤ slice.now.steps → vm.old.steps + steps ≤ vm.old.limits.budget → IsDone image.now T m slice.now.thread steps vm.old vm.new) }
{
    vm.reads_fit(slice.thread);
    if steps == slice.steps {
        vm.advance(slice.thread, &slice.end, steps);
    } else {
        let _done = vm.run(image, slice.thread, steps);
    }
}

/// The steps of a slice that may be done; gives how many there were.
fn take_steps(image: &Image, vm: &mut Vm, slice: &Slice) -> u32
    ensures few { result ≤ slice.now.steps }
    ensures count { InEachState image.now vm.old (λ T m. result ≡ committed image.now m slice.now.steps) }
    ensures done { InEachState image.now vm.old (λ T m. IsLocalRun image.now slice.now → running_frame (slice_get (machine_of vm.old).threads slice.now.thread) ≡ Just slice.now.start →
        IsDone image.now T m slice.now.thread result vm.old vm.new) }
{
    let steps = affordable(image, vm, slice.steps);
    if steps > 0 {
        do_steps(image, vm, slice, steps);
    }
    steps
}

/// An entry of so many steps, none of no steps, in the room that a log has.
pub fn log_steps(log: &mut Vec<Entry>, worker: u32, thread: u32, steps: u32)
    requires { vec_len log.old < vec_capacity log.old }
    ensures { log.new.items ≡ logged_some log.old.items worker thread steps }
{
    if steps > 0 {
        log.push_reserved(Entry {
            worker,
            thread,
            steps,
        });
    }
}

/// A thread is at home again.
fn bring_home(lent: &mut Vec<u32>, thread: u32)
    ensures { lent.new.items ≡ without lent.old.items thread }
{
    lent.retain(|other| *other != thread);
}

impl<'v> SafeVm<'v> {
    /// Whether the next step of a thread touches its frame alone.
    pub fn next_is_local(&self, thread: u32) -> bool
        ensures { AtItsState self.now (λ main m. result ≡ next_is_local self.now.verified.image m thread) }
    {
        let verified = self.verified();
        self.engine().next_is_local(&verified.image, thread)
    }

    /// Lends a thread to a worker, which does local steps of it and brings them by `commit`: gives its first slice, with no step, which `commit`
    /// takes as more local steps make it longer. None where
    /// the run has ended, the thread isn't runnable, its next step isn't local, or it is lent.
    ///
    /// # Errors
    ///
    /// Want of memory; all is as before then.
    pub fn lend(&mut self, thread: u32) -> Result<Option<Slice>, AllocError>
        ensures exact { IfOk result (λ o. AtItsState self.old (λ main m. (IsSome o ↔ MayLend self.old m thread))) }
        ensures lent { IfOk result (λ o. MatchOption o (self.new ≡ self.old) (λ s. IsLent self.old self.new thread s)) }
        ensures made { IfOk result (λ o. IfSome o (λ s. IsLocalRun self.old.verified.image s)) }
        ensures refused { OnErr result (self.new ≡ self.old) }
    {
        if self.is_lent(thread) {
            return Ok(None);
        }
        let verified = self.verified();
        let SafeVm { vm, lent, .. } = self;
        let Some(slice) = first_slice(&verified.image, vm, thread)? else {
            return Ok(None);
        };
        if let Err(error) = lent.push(thread) {
            drop(slice);
            return Err(error.into());
        }
        Ok(Some(slice))
    }

    /// Whether the thread of a slice is lent, and stands where the slice begins.
    pub fn fits(&self, slice: &Slice) -> bool
        ensures { IsTrue result ↔ IsFitting self.now slice.now }
    {
        self.is_lent(slice.thread) && is_at(self.engine(), slice.thread, &slice.start)
    }

    /// Brings the steps of a slice that a worker did: as many are done as the budget has room for, and none where the run has ended; they are
    /// logged, and the thread is at home again. Gives how many these are. A slice that doesn't fit is put away, and nothing is done.
    ///
    /// # Errors
    ///
    /// Want of memory; all is as before then, and the slice is given back.
    pub fn commit(&mut self, worker: u32, slice: Slice) -> Result<u32, Refused>
        requires made { IsLocalRun self.old.verified.image slice }
        ensures committed { IfOk result (λ n. AtItsState self.old (λ main m. IsFitting self.old slice → IsCommitted self.old self.new main m worker slice n)) }
        ensures put_away { IfOk result (λ n. (IsFitting self.old slice → ⊥) → (n ≡ 0) × (self.new ≡ self.old)) }
        ensures few { IfOk result (λ n. n ≤ slice.steps) }
        ensures same { IsSameProgram self.old self.new }
        ensures lent_stay { FramesStay self.old.machine self.new.machine (without self.old.lent slice.thread) }
        ensures refused { IfErr result (λ e. (e.slice ≡ slice) × (self.new ≡ self.old)) }
    {
        match self.commit_steps(worker, &slice) {
            Ok(steps) => {
                drop(slice);
                Ok(steps)
            }
            Err(_) => Err(Refused { slice }),
        }
    }

    /// The steps of a slice as `commit` does them.
    ///
    /// # Errors
    ///
    /// Want of memory; all is as before then.
    fn commit_steps(&mut self, worker: u32, slice: &Slice) -> Result<u32, AllocError>
        requires made { IsLocalRun self.old.verified.image slice.now }
        ensures committed { IfOk result (λ n. AtItsState self.old (λ main m. IsFitting self.old slice.now → IsCommitted self.old self.new main m worker slice.now n)) }
        ensures put_away { IfOk result (λ n. (IsFitting self.old slice.now → ⊥) → (n ≡ 0) × (self.new ≡ self.old)) }
        ensures few { IfOk result (λ n. n ≤ slice.now.steps) }
        ensures same { IsSameProgram self.old self.new }
        ensures lent_stay { FramesStay self.old.machine self.new.machine (without self.old.lent slice.now.thread) }
        ensures refused { OnErr result (self.new ≡ self.old) }
    {
        if !self.fits(slice) {
            return Ok(0);
        }
        let verified = self.verified();
        let SafeVm { vm, log, lent, .. } = self;
        log.reserve(1)?;
        let steps = take_steps(&verified.image, vm, slice);
        log_steps(log, worker, slice.thread, steps);
        bring_home(lent, slice.thread);
        Ok(steps)
    }
}

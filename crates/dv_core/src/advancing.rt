// Many steps of a thread at once, each of which touches its frame alone.
ghost use Rattle.std.specs.Prelude.{◌≡◌, ◌≤◌, ◌<◌, ◌+◌, ◌^◌, ◌∷◌, IfOk, List, OnOk, None as Nothing, Some as Just, false, length, map, slice_get, slice_set, true};
ghost use Rattle.dv_words.specs.declared.state.Frame.{Frame as Activation};
ghost use Rattle.dv_words.specs.declared.state.Level.{Level};
ghost use Rattle.dv_words.specs.declared.state.Level.TheVariants as level;
ghost use Rattle.dv_words.specs.Stacks.{changed, top_regs};
ghost use Rattle.dv_words.specs.Standing.{HeapFits, IsSmall};
ghost use Rattle.dv_words.specs.State.{WordMachine, WordStack, WordThread};
ghost use Rattle.law_words.specs.StepLaws.{ReadsFit, with_top};
ghost use Rattle.dv_frames.specs.Heads.{frame as framed};
ghost use Rattle.dv_threads.specs.Kept.{bounds, threads_of};
ghost use Rattle.dv_core.specs.Advancing.{RanAt, RanNone, RanSteps, RunsFrame, runs_in, takes, top_frame, with_frame, running_at};
ghost use Rattle.law_engine.specs.KeepLaws.{is_local_level_of, next_is_local_of};
ghost use Rattle.dv_core.specs.Machines.{machine_of, IsInOrder, thread_at};
ghost use Rattle.dv_core.specs.Watching.{AreWatchable, IsTopWatched};

use crate::vm::Vm;
use crate::waiting::end_at;
use dv_defs::{End, Image, Seq};
use dv_fetch::opcode_of;
use dv_frames::{Head, Stack, base_of};
use dv_local::{opcode_is_local, steps_top};
use dv_words::Frame;
use std::alloc::{AllocError, Global};
use std::mem;

/// The registers of the frame on top, none where the level on top isn't code.
fn registers(stack: &Stack) -> &[u32]
    ensures { result.now ≡ top_regs stack.now.levels }
{
    let base = base_of(stack.levels.as_slice(), stack.words.len());
    &stack.words[base..]
}

/// The frame on top becomes this one, where there is one with as many registers; says whether it did.
fn put_on(stack: &mut Stack, frame: &Frame) -> bool
    ensures takes { result ≡ takes (top_frame stack.old.levels) frame.now }
    ensures put { result ≡ true → stack.new ≡ changed (λ f. frame.now) stack.old }
    ensures stays { result ≡ false → stack.new ≡ stack.old }
    ensures bounds { bounds stack.new ≡ bounds stack.old }
{
    let Some(_head) = stack.head() else {
        return false;
    };
    if registers(stack).len() != frame.regs.items().len() {
        return false;
    }
    stack.set_top(frame);
    true
}

/// The same of a thread's stack.
fn put_top(stacks: &mut Vec<Stack>, thread: u32, frame: &Frame) -> bool
    ensures takes { (s : WordStack) → slice_get stacks.old.items thread ≡ Just s → result ≡ takes (top_frame s.levels) frame.now }
    ensures put { (s : WordStack) → slice_get stacks.old.items thread ≡ Just s → result ≡ true → stacks.new.items ≡ slice_set stacks.old.items thread (changed (λ f. frame.now) s) }
    ensures stays { result ≡ false → stacks.new.items ≡ stacks.old.items }
    ensures bounds { map bounds stacks.new.items ≡ map bounds stacks.old.items }
{
    let place = thread as usize;
    if place >= stacks.len() {
        return false;
    }
    put_on(&mut stacks[place], frame)
}

/// Does local instructions of the frame on top of a thread's stack, so many at most; gives how many were done.
fn run_top(image: &Image, stacks: &mut Vec<Stack>, thread: u32, most: u32) -> u32
    ensures few { result ≤ most }
    ensures ran { (s : WordStack) → slice_get stacks.old.items thread ≡ Just s → RanAt image.now most result stacks.old.items stacks.new.items thread s }
    ensures bounds { map bounds stacks.new.items ≡ map bounds stacks.old.items }
{
    let place = thread as usize;
    if place >= stacks.len() {
        return 0;
    }
    steps_top(image, &mut stacks[place], most)
}

/// So many steps, but no more than can be counted on from there.
fn countable(steps: u64, most: u32) -> u32
    ensures few { result ≤ most }
    ensures counted { steps + result < 2 ^ 64 }
    ensures all { steps + most < 2 ^ 64 → result ≡ most }
{
    let room = u64::MAX - steps;
    if u64::from(most) <= room {
        most
    } else {
        room as u32
    }
}

/// Whether a frame goes on at a local instruction.
fn is_at_local(image: &Image, stack: &Stack) -> bool
    ensures { IsTopWatched image.now stack.now.levels → result ≡ is_local_level_of image.now stack.now.levels }
{
    match opcode_of(image, stack) {
        Some(opcode) => opcode_is_local(opcode),
        None => false,
    }
}

/// A copy of the frame on top, none where the level on top isn't code.
fn copy_of(stack: &Stack) -> Result<Option<Frame>, AllocError>
    ensures { IfOk result (λ q. q ≡ top_frame stack.now.levels) }
{
    let Some(_head) = stack.head() else {
        return Ok(None);
    };
    Ok(Some(stack.copy_top()?))
}

/// Words become a frame's registers, in the room that these have where it is enough.
fn keep_words(kept: &mut Frame, alloc: Global, words: &[u32]) -> Result<(), AllocError>
    ensures { OnOk result (kept.new.regs ≡ words.now) }
{
    let before = mem::replace(&mut kept.regs, Seq::of(Vec::new(alloc)));
    let mut room = before.into_vec();
    room.clear();
    room.extend_from_slice(words)?;
    kept.regs = Seq::of(room);
    Ok(())
}

/// A frame's head.
fn keep_head(kept: &mut Frame, head: Head)
    ensures { kept.new ≡ framed head kept.old.regs }
{
    kept.method = head.method;
    kept.at = head.at;
    kept.result = head.result;
    kept.caught = head.caught;
}

/// Copies the frame on top into this one; says whether there is one.
fn keep_of(stack: &Stack, kept: &mut Frame) -> Result<bool, AllocError>
    ensures some { IfOk result (λ is. is ≡ true → top_frame stack.now.levels ≡ Just kept.new) }
    ensures none { IfOk result (λ is. is ≡ false → top_frame stack.now.levels ≡ Nothing) }
{
    let Some(head) = stack.head() else {
        return Ok(false);
    };
    keep_words(kept, *stack.words.allocator(), registers(stack))?;
    keep_head(kept, head);
    Ok(true)
}

impl Vm {
    /// Whether a thread is living, with nothing in flight.
    fn is_running(&self, thread: u32) -> bool
        ensures { result ≡ runs_in (slice_get self.now.guest.threads.ends.items thread) }
    {
        matches!(end_at(&self.guest.threads.ends, thread), Some(End::Living))
    }

    /// Does local instructions of a thread's frame on top, up to the first that isn't one, so many at most and no more than can be counted;
    /// each is a step. Gives how many were done: none where there is no such thread, it isn't living, or its top level isn't code.
    pub fn run(&mut self, image: &Image, thread: u32, most: u32) -> u32
        ensures few { result ≤ most }
        ensures ran { (own : WordThread) (f : Activation) (ls : List Level) → IsInOrder self.old → RunsFrame (machine_of self.old) thread own f ls →
            self.old.steps + most < 2 ^ 64 → RanSteps image.now most result (machine_of self.old) (machine_of self.new) thread own f ls }
        ensures none { IsInOrder self.old → running_at self.old thread ≡ Nothing → RanNone result (machine_of self.old) (machine_of self.new) }
        ensures ordered { IsInOrder self.old → IsInOrder self.new }
        ensures limits { self.new.limits ≡ self.old.limits }
    {
        if !self.is_running(thread) {
            return 0;
        }
        let most = countable(self.steps, most);
        let done = run_top(image, &mut self.guest.threads.stacks, thread, most);
        self.steps += u64::from(done);
        done
    }

    /// The frame on top of a living thread becomes this one, where there is one with as many registers; says whether it did.
    fn put_frame(&mut self, thread: u32, frame: &Frame) -> bool
        ensures takes { IsInOrder self.old → result ≡ takes (running_at self.old thread) frame.now }
        ensures put { (own : WordThread) (f : Activation) (ls : List Level) → RunsFrame (machine_of self.old) thread own f ls → result ≡ true →
            machine_of self.new ≡ record (machine_of self.old) { threads = with_frame (threads_of self.old.guest.threads) thread own frame.now ls } }
        ensures stays { result ≡ false → machine_of self.new ≡ machine_of self.old }
        ensures ordered { IsInOrder self.old → IsInOrder self.new }
        ensures limits { self.new.limits ≡ self.old.limits }
    {
        self.is_running(thread) && put_top(&mut self.guest.threads.stacks, thread, frame)
    }

    /// So many steps of a thread that were done elsewhere: its frame on top becomes this one, and they are counted. Nothing is done where
    /// there is no such thread, it isn't living, or its top level isn't code with as many registers.
    pub fn advance(&mut self, thread: u32, frame: &Frame, steps: u32)
        ensures advanced { (own : WordThread) (f : Activation) (ls : List Level) → IsInOrder self.old → RunsFrame (machine_of self.old) thread own f ls →
            length frame.now.regs ≡ length f.regs → self.old.steps + steps < 2 ^ 64 → machine_of self.new ≡ with_top (machine_of self.old) thread own frame.now ls steps }
        ensures stays { IsInOrder self.old → takes (running_at self.old thread) frame.now ≡ false → machine_of self.new ≡ machine_of self.old }
        ensures ordered { IsInOrder self.old → IsInOrder self.new }
        ensures limits { self.new.limits ≡ self.old.limits }
    {
        if self.put_frame(thread, frame) {
            self.steps = self.steps.saturating_add(u64::from(steps));
        }
    }

    /// Undoes so many steps of a thread, each of which touched its frame alone: its frame on top becomes again this one, from which they
    /// were done. Nothing is done where there is no such thread, it isn't living, or its top level isn't code with as many registers.
    pub fn take_back(&mut self, thread: u32, frame: &Frame, steps: u32)
        ensures undone { (m : WordMachine) (own : WordThread) (u : Activation) (ls : List Level) → IsInOrder self.old → RunsFrame m thread own frame.now ls →
            length u.regs ≡ length frame.now.regs → machine_of self.old ≡ with_top m thread own u ls steps → machine_of self.new ≡ m }
        ensures stays { IsInOrder self.old → takes (running_at self.old thread) frame.now ≡ false → machine_of self.new ≡ machine_of self.old }
        ensures ordered { IsInOrder self.old → IsInOrder self.new }
        ensures limits { self.new.limits ≡ self.old.limits }
    {
        if self.put_frame(thread, frame) {
            self.steps = self.steps.saturating_sub(u64::from(steps));
        }
    }

    /// The words that a step of a thread reads are `u32`s: does nothing. The laws of steps take it.
    pub fn reads_fit(&self, thread: u32)
        ensures heap { HeapFits (machine_of self.now).shared.heap }
        ensures top { (own : WordThread) (f : Activation) (ls : List Level) → thread_at self.now thread ≡ Just own → own.levels ≡ level.Code f ∷ ls → IsSmall f }
        ensures fits { ReadsFit (machine_of self.now) thread }
    {
        self.guest.heap.words_fit();
        let Some(stack) = self.guest.threads.stacks.get(thread as usize) else {
            return;
        };
        stack.top_fits();
    }

    /// A copy of the frame on top of a living thread; none where there is no such thread, it isn't living, or its top level isn't code.
    ///
    /// # Errors
    ///
    /// Want of memory.
    pub fn copy_top(&self, thread: u32) -> Result<Option<Frame>, AllocError>
        ensures { IsInOrder self.now → IfOk result (λ q. q ≡ running_at self.now thread) }
    {
        if !self.is_running(thread) {
            return Ok(None);
        }
        match self.guest.threads.stacks.get(thread as usize) {
            Some(stack) => copy_of(stack),
            None => Ok(None),
        }
    }

    /// Copies the frame on top of a living thread into this one, whose room is taken over; says whether there is one. There is none where
    /// there is no such thread, it isn't living, or its top level isn't code.
    ///
    /// # Errors
    ///
    /// Want of memory.
    pub fn keep_top(&self, thread: u32, kept: &mut Frame) -> Result<bool, AllocError>
        ensures some { IsInOrder self.now → IfOk result (λ is. is ≡ true → running_at self.now thread ≡ Just kept.new) }
        ensures none { IsInOrder self.now → IfOk result (λ is. is ≡ false → running_at self.now thread ≡ Nothing) }
    {
        if !self.is_running(thread) {
            return Ok(false);
        }
        match self.guest.threads.stacks.get(thread as usize) {
            Some(stack) => keep_of(stack, kept),
            None => Ok(false),
        }
    }

    /// Whether the next step of a thread touches its frame alone: it is living, and the frame on top goes on at a local instruction.
    pub fn next_is_local(&self, image: &Image, thread: u32) -> bool
        ensures { AreWatchable image.now self.now → result ≡ next_is_local_of image.now (machine_of self.now) thread }
    {
        if !self.is_running(thread) {
            return false;
        }
        match self.guest.threads.stacks.get(thread as usize) {
            Some(stack) => is_at_local(image, stack),
            None => false,
        }
    }
}

// A machine whose state is the replay of its log.
ghost use Rattle.std.specs.Prelude.{◌≡◌, ◌≤◌, ◌+◌, [], IfOk, MatchOption, OnErr, is_none, All, List, ℕ, ◌≢◌, ◌↔◌, false, true, length};
ghost use Rattle.dv_machine.specs.Running as running;
ghost use Rattle.dv_core.specs.Machines.{machine_of};
ghost use Rattle.dv_core.specs.Watching.{AreWatchable};
ghost use Rattle.dv_machine.specs.WellTyped.{Typings};
ghost use Rattle.dv_words.specs.Erasure.{erased_machine};
ghost use Rattle.dv_sound.specs.Moves.{AreUsable, FramesStay, IsGood, StandsFor};
ghost use Rattle.dv_machine.specs.Mains.{HasMain};
ghost use Rattle.dv_sound.specs.Runs.{IsAtSome, IsKept, IsOpened, IsReady, IsSameRun, IsTurned, MayStepThere, MayTurn, NoneIsReady, TurnedFrom, AtItsState, WhereKept};

use crate::moves::{goes_on, take_turn};
use crate::premises::{are_numbers, inits_fit, is_accepted, keys_rise, strings_fit};
use crate::words::machine_fits;
use dv_core::Vm;
use dv_defs::{Ending, Entry, Limits, MethodId, Seq};
use dv_rules::Verified;
use dv_words::{Frame, Kept};
use std::alloc::{AllocError, Global};
use std::marker::Model;

/// A run of a verified program: the engine, the schedule that was done so far, and the threads that are lent to workers. The engine's state is
/// the one to which the schedule leads.
#[derive(Drop)]
pub struct SafeVm<'v> {
    verified: &'v Verified,
    main: MethodId,
    pub(crate) vm: Vm,
    pub(crate) log: Vec<Entry>,
    pub(crate) lent: Vec<u32>,
    /// Where the frame of a turn is kept, so that its local steps can be taken back.
    kept: Frame,
}

impl<'v> Model for SafeVm<'v> {
    ghost use Rattle.dv_core.specs.Machines.{machine_of};
    ghost use Rattle.dv_sound.specs.Runs.{IsKept, Run};

    ghost Value = { Run };

    ghost view = { λ s. record { verified = s.verified.now; main = s.main; machine = machine_of s.vm; log = s.log.items; lent = s.lent.items } };

    ghost invariant = { λ s. IsKept s.verified.now.image s.main s.vm s.log.items s.lent.items };
}

/// The engine as a run of a main method begins.
///
/// # Errors
///
/// Want of memory.
pub fn opened(
    alloc: Global,
    verified: &Verified,
    main: MethodId,
    limits: Limits,
) -> Result<Vm, AllocError>
    ensures { HasMain verified.now.image main.0 → AreUsable limits → IfOk result (λ v. IsOpened verified.now.image main limits v) }
{
    is_accepted(verified);
    are_numbers(&limits);
    let image = &verified.image;
    strings_fit(image);
    keys_rise(verified);
    inits_fit(image)?;
    Vm::open(alloc, image, main, limits)
}

/// A frame without registers, which takes no memory.
fn no_frame(alloc: Global) -> Frame {
    Frame {
        method: MethodId(0),
        at: 0,
        regs: Seq::of(Vec::new(alloc)),
        result: Kept::None,
        caught: None,
    }
}

/// A turn, from where a log led, of a thread that may step; it is logged.
///
/// # Errors
///
/// Want of memory; the engine stands where it stood, and the log is as before.
fn granted_turn(
    program: &Verified,
    vm: &mut Vm,
    kept: &mut Frame,
    log: &mut Vec<Entry>,
    worker: u32,
    thread: u32,
    most: u32,
) -> Result<u32, AllocError>
    requires may { MayStepThere program.now.image vm.old log.old.items thread }
    requires some { 1 ≤ most }
    ensures kept { WhereKept program.now.image vm.old log.old.items (λ main lent. All (λ t. t ≢ thread) lent → IsKept program.now.image main vm.new log.new.items lent) }
    ensures turned { IfOk result (λ n. (main : MethodId) (lent : List ℕ) (k : IsKept program.now.image main vm.old log.old.items lent) →
        TurnedFrom program.now.image main vm.old log.old.items lent k worker thread most n vm.new log.new.items) }
    ensures limits { WhereKept program.now.image vm.old log.old.items (λ main lent. vm.new.limits ≡ vm.old.limits) }
    ensures few { IfOk result (λ n. n ≤ most) }
    ensures counted { IfOk result (λ n. WhereKept program.now.image vm.old log.old.items (λ main lent. vm.new.steps ≡ vm.old.steps + n)) }
    ensures within { WhereKept program.now.image vm.old log.old.items (λ main lent. vm.new.steps ≤ vm.new.limits.budget) }
    ensures stay { WhereKept program.now.image vm.old log.old.items (λ main lent. All (λ t. t ≢ thread) lent → FramesStay (machine_of vm.old) (machine_of vm.new) lent) }
    ensures refused { OnErr result (WhereKept program.now.image vm.old log.old.items (λ main lent. (machine_of vm.new ≡ machine_of vm.old) × (log.new.items ≡ log.old.items))) }
{
    let image = &program.image;
    log.reserve(1)?;
    let steps = take_turn(image, vm, kept, thread, most)?;
    log.push(Entry {
        worker,
        thread,
        steps,
    })?;
    Ok(steps)
}

impl<'v> SafeVm<'v> {
    /// A run of a main method, as it begins, with an empty log.
    ///
    /// # Errors
    ///
    /// Want of memory.
    pub fn open(
        alloc: Global,
        verified: &'v Verified,
        main: MethodId,
        limits: Limits,
    ) -> Result<SafeVm<'v>, AllocError>
        requires main { HasMain verified.now.image main.0 }
        requires limits { AreUsable limits }
        ensures program { IfOk result (λ r. (r.verified ≡ verified.now) × (r.main ≡ main) × (r.machine.limits ≡ limits)) }
        ensures empty { IfOk result (λ r. (r.log ≡ []) × (r.lent ≡ [])) }
    {
        Ok(SafeVm {
            verified,
            main,
            vm: opened(alloc, verified, main, limits)?,
            log: Vec::new(alloc),
            lent: Vec::new(alloc),
            kept: no_frame(alloc),
        })
    }

    /// An engine that a schedule led to where it stands, with these threads lent.
    pub(crate) fn standing(
        verified: &'v Verified,
        main: MethodId,
        vm: Vm,
        log: Vec<Entry>,
        lent: Vec<u32>,
    ) -> SafeVm<'v>
        requires kept { IsKept verified.now.image main vm log.items lent.items }
        ensures { result ≡ record { verified = verified.now; main = main; machine = machine_of vm; log = log.items; lent = lent.items } }
    {
        let kept = no_frame(*log.allocator());
        SafeVm {
            verified,
            main,
            vm,
            log,
            lent,
            kept,
        }
    }

    /// The program that is run.
    pub fn verified(&self) -> &'v Verified
        ensures { result.now ≡ self.now.verified }
    {
        self.verified
    }

    /// The schedule that was done so far. It leads to a state: no step of it is stuck.
    pub fn log(&self) -> &[Entry]
        ensures log { result.now ≡ self.now.log }
        ensures leads { IsAtSome self.now }
    {
        &self.log
    }

    /// The schedule that was done, given away.
    pub fn into_log(self) -> Vec<Entry>
        ensures { result.items ≡ self.entry.log }
    {
        let SafeVm { vm, log, lent, .. } = self;
        drop(vm);
        drop(lent);
        log
    }

    /// The engine.
    pub(crate) fn engine(&self) -> &Vm
        ensures machine { machine_of result.now ≡ self.now.machine }
        ensures watchable { AreWatchable self.now.verified.image result.now }
        ensures stands { AtItsState self.now (λ main m. (T : Typings) × IsGood self.now.verified.image T × StandsFor self.now.verified.image T result.now m) }
    {
        &self.vm
    }

    /// The engine: its words are the erasure of the state to which the log leads.
    pub fn vm(&self) -> &Vm
        ensures machine { machine_of result.now ≡ self.now.machine }
        ensures watchable { AreWatchable self.now.verified.image result.now }
        ensures erased { AtItsState self.now (λ main m. machine_of result.now ≡ erased_machine m) }
        ensures stands { AtItsState self.now (λ main m. (T : Typings) × IsGood self.now.verified.image T × StandsFor self.now.verified.image T result.now m) }
    {
        let vm = self.engine();
        machine_fits(vm);
        vm
    }

    /// What was printed so far. It takes no look at the stacks, as `vm` does.
    pub fn output(&self) -> &[u8]
        ensures words { result.now ≡ self.now.machine.shared.output }
        ensures tagged { AtItsState self.now (λ main m. result.now ≡ m.shared.output) }
    {
        self.engine().output()
    }

    /// How the run stands: none where it goes on.
    pub fn ending(&self) -> Option<Ending>
        ensures ending { AtItsState self.now (λ main m. result ≡ running.ending_of self.now.verified.image m) }
        ensures leads { IsAtSome self.now }
    {
        let verified = self.verified;
        self.vm.ending(&verified.image)
    }

    /// Whether a thread is lent.
    pub(crate) fn is_lent(&self, thread: u32) -> bool
        ensures { result ≡ false ↔ All (λ t. t ≢ thread) self.now.lent }
    {
        self.lent.contains(&thread)
    }

    /// A turn of a thread by a worker, which is logged: local steps while the next one is local, then at most one other, so many in all at most.
    /// Gives how many were done: none, with no entry, where the run has ended or the thread isn't runnable and at home.
    ///
    /// # Errors
    ///
    /// Want of memory; all is as before then.
    pub fn turn(&mut self, worker: u32, thread: u32, most: u32) -> Result<u32, AllocError>
        ensures turned { IfOk result (λ n. AtItsState self.old (λ main m. MayTurn self.old m thread → 1 ≤ most → IsTurned self.old self.new main m worker thread most n)) }
        ensures held { IfOk result (λ n. AtItsState self.old (λ main m. (MayTurn self.old m thread → ⊥) → (n ≡ 0) × (self.new ≡ self.old))) }
        ensures none { most ≡ 0 → IfOk result (λ n. (n ≡ 0) × (self.new ≡ self.old)) }
        ensures few { IfOk result (λ n. n ≤ most) }
        ensures counted { IfOk result (λ n. self.new.machine.steps ≡ self.old.machine.steps + n) }
        ensures within { IfOk result (λ n. 1 ≤ n → self.new.machine.steps ≤ self.new.machine.limits.budget) }
        ensures same { IsSameRun self.old self.new }
        ensures lent_stay { FramesStay self.old.machine self.new.machine self.old.lent }
        ensures refused { OnErr result (self.new ≡ self.old) }
    {
        if most == 0 || !self.may_turn(thread) {
            return Ok(0);
        }
        self.take_turn(worker, thread, most)
    }

    /// A turn of a thread that may do one, as `ready` gives it where the run goes on: it isn't asked again. It is logged, and at least one step is
    /// done. Gives how many.
    ///
    /// # Errors
    ///
    /// Want of memory; all is as before then.
    pub fn take_turn(&mut self, worker: u32, thread: u32, most: u32) -> Result<u32, AllocError>
        requires may { AtItsState self.old (λ main m. MayTurn self.old m thread) }
        requires some { 1 ≤ most }
        ensures turned { IfOk result (λ n. AtItsState self.old (λ main m. IsTurned self.old self.new main m worker thread most n)) }
        ensures some { IfOk result (λ n. 1 ≤ n) }
        ensures few { IfOk result (λ n. n ≤ most) }
        ensures counted { IfOk result (λ n. self.new.machine.steps ≡ self.old.machine.steps + n) }
        ensures within { IfOk result (λ n. 1 ≤ n → self.new.machine.steps ≤ self.new.machine.limits.budget) }
        ensures same { IsSameRun self.old self.new }
        ensures lent_stay { FramesStay self.old.machine self.new.machine self.old.lent }
        ensures refused { OnErr result (self.new ≡ self.old) }
    {
        let SafeVm {
            verified,
            vm,
            log,
            kept,
            ..
        } = self;
        granted_turn(verified, vm, kept, log, worker, thread, most)
    }

    /// Whether a thread is runnable.
    pub fn runnable(&self, thread: u32) -> bool
        ensures { AtItsState self.now (λ main m. result ≡ running.runnable self.now.verified.image m thread) }
    {
        let verified = self.verified;
        self.vm.runnable(&verified.image, thread)
    }

    /// Whether nothing stopped the run, and its steps aren't spent: it goes on where a thread is runnable.
    pub fn goes_on(&self) -> bool
        ensures goes_on { AtItsState self.now (λ main m. (t : ℕ) → running.runnable self.now.verified.image m t ≡ true → result ≡ is_none (running.ending_of self.now.verified.image m)) }
        ensures leads { IsAtSome self.now }
    {
        goes_on(&self.vm)
    }

    /// Whether a thread is runnable and at home.
    fn is_ready(&self, thread: u32) -> bool
        ensures ready { AtItsState self.now (λ main m. result ≡ true → (running.runnable self.now.verified.image m thread ≡ true) × All (λ t. t ≢ thread) self.now.lent) }
        ensures held { AtItsState self.now (λ main m. result ≡ false → running.runnable self.now.verified.image m thread ≡ true → All (λ t. t ≢ thread) self.now.lent → ⊥) }
    {
        if self.is_lent(thread) {
            false
        } else {
            self.runnable(thread)
        }
    }

    /// Whether a thread may do a turn: the run goes on, and the thread is runnable and at home.
    fn may_turn(&self, thread: u32) -> bool
        ensures may { AtItsState self.now (λ main m. result ≡ true → MayTurn self.now m thread) }
        ensures held { AtItsState self.now (λ main m. result ≡ false → MayTurn self.now m thread → ⊥) }
    {
        if self.goes_on() {
            self.is_ready(thread)
        } else {
            false
        }
    }

    /// The lowest thread that is runnable and at home; none where none is.
    #[tactic(auto, using(crate::proofs::Ready::none_ready))]
    pub fn ready(&self) -> Option<u32>
        ensures { AtItsState self.now (λ main m. MatchOption result (NoneIsReady self.now m) (λ t. IsReady self.now m t)) }
    {
        for thread in 0..self.threads() {
            if self.is_ready(thread) {
                return Some(thread);
            }
        }
        None
    }

    /// How many threads there are.
    pub fn threads(&self) -> u32
        ensures { AtItsState self.now (λ main m. result ≡ length m.threads) }
    {
        self.vm.guest.threads.stacks.len() as u32
    }
}

// What lies in the place that the workers share: the machine, the sink with what it took, and the book of the turns.
ghost use Rattle.std.specs.Prelude.{◌≡◌, ◌≢◌, ◌<◌, ◌≤◌, ◌+◌, ◌^◌, ◌⊎◌, ◌||◌, [], All, IfSome, MatchOption, true, false, length, min};
ghost use Rattle.dv_io.specs.Io.{HasRisen};
ghost use Rattle.dv_workers.specs.Chores.{IsChore, IsSlice, ran};
ghost use Rattle.dv_workers.specs.Desks.{FewWait, GoesOn, IsDone, IsOver, IsWritten, MayGo, NoneIsNext, printed};
ghost use Rattle.dv_workers.specs.Entries.{IsOfWorker};
ghost use Rattle.dv_workers.specs.Seats.{names_of};

use crate::began::Began;
use crate::chore::Chore;
use crate::pouring::{pour_all, pour_some, printed};
use crate::turning::{bring, lend, try_turn};
use dv_io::{Gate, Sink};
use dv_local::Slice;
use dv_sound::{SafeVm, Tried};
use std::sync::Wait;
use std::sync::atomic::{AtomicU64, Ordering};
use std::sync::ledger::{Book, Share};

/// How many slices may be out: as many as there are workers at most.
const SLICES: u32 = 8;

/// How many turns a worker does at most before it puts the machine back.
const TURNS: u32 = 256;

/// How many it does though another worker wants the machine.
const FEW_TURNS: u32 = 32;

/// A slice of fewer steps costs more to lend than to do in place.
const SHORT: u32 = 16;

/// How many turns a worker does in place after a short slice.
const IN_PLACE: u32 = 64;

/// How many turns a worker does after a slice before it lends the next one: their local steps are done in place where lending doesn't pay.
fn turns_in_place(slice: &Option<Slice>) -> u32 {
    match slice {
        Some(slice) if slice.steps < SHORT => IN_PLACE,
        _ => 0,
    }
}

/// How many turns of a thread an only worker does at most before it asks which thread is next. The lowest thread is that one as long as it can go on; behind
/// a turn of another one a lower one may be.
fn turns_at_once(thread: u32) -> u32
    ensures { result ≤ 256 }
{
    if thread == 0 { TURNS } else { 1 }
}

#[derive(Drop)]
pub struct Desk<'v, K: Sink, L: Began> {
    pub vm: SafeVm<'v>,
    pub sink: K,
    /// How many of the printed bytes the sink took.
    pub written: usize,
    /// Whether a write failed.
    pub fault: bool,
    /// Whether memory was wanting.
    pub memory: bool,
    /// How many slices are out.
    pub out: u32,
    pub book: Book<L>,
    ghost counted: { length vm.log ≡ book.total },
    ghost entries: { All IsOfWorker vm.log },
    ghost taken: { IsWritten L.taken (K.taken sink) (printed vm) written },
    ghost few: { FewWait fault (printed vm) written },
    ghost count: { L.faults ≤ K.faults sink },
    ghost risen: { fault ≡ true → HasRisen L.faults (K.faults sink) },
    ghost away: { length vm.lent ≤ out },
}

impl<'v, K: Sink, L: Began> Desk<'v, K, L> {
    /// Where nothing was logged, nothing was printed.
    pub fn new(vm: SafeVm<'v>, book: Book<L>, sink: K) -> Desk<'v, K, L>
        requires empty { (vm.log ≡ []) × (vm.lent ≡ []) × (book.total ≡ 0) }
        requires began { (K.taken sink ≡ L.taken) × (K.faults sink ≡ L.faults) }
        ensures { (result.vm ≡ vm.entry) × (result.sink ≡ sink) × (result.fault ≡ false) }
    {
        let _log = vm.log();
        let _none = printed(&vm);
        Desk {
            vm,
            sink,
            written: 0,
            fault: false,
            memory: false,
            out: 0,
            book,
        }
    }

    /// Whether the workers are to stop.
    pub fn is_over(&self) -> bool
        ensures over { result ≡ true → IsOver self.now.memory self.now.fault self.now.vm }
        ensures goes_on { result ≡ false → GoesOn self.now.vm }
    {
        self.memory || self.fault || self.vm.ending().is_some()
    }

    /// Whether the call may return.
    pub fn is_done(&self) -> bool
        ensures { result ≡ true → IsDone self.now.memory self.now.fault self.now.vm }
    {
        self.memory || (self.out == 0 && self.is_over())
    }

    /// No share has more turns than the log has.
    pub fn audit(&mut self, share: &mut Share<L>)
        ensures same { (self.new.vm ≡ self.old.vm) × (self.new.sink ≡ self.old.sink) × (self.new.memory ≡ self.old.memory) × (self.new.fault ≡ self.old.fault) }
        ensures share { (share.new.parts ≡ share.old.parts) × (share.new.amount ≡ share.old.amount) }
        ensures fits { share.new.amount < 2 ^ 64 }
        ensures whole { share.old.parts ≡ L.parts → share.old.amount ≡ length self.old.vm.log }
    {
        let _turns = self.vm.log().len();
        self.book.audit(share);
    }

    /// Turns one after another, up to a thread that is lent, and after the first ones `in_place` each thread is whose next step is local; or up to where
    /// none can be done, the workers are to stop, or another worker wants the machine. Gives how many turns there were.
    fn advance(
        &mut self,
        share: &mut Share<L>,
        worker: u32,
        in_place: u32,
        wanted: &AtomicU64,
    ) -> (Chore, u64)
        requires worker { (worker < 8) × (0 < share.old.parts) }
        ensures names { names_of self.new.vm ≡ names_of self.old.vm }
        ensures chore { IsChore self.old.vm.verified.image result.0 }
        ensures parts { share.new.parts ≡ share.old.parts }
        ensures amount { share.new.amount ≡ share.old.amount + result.1 }
    {
        let mut turns = 0;
        for done in 0..TURNS {
            match self.act(share, worker, in_place <= done) {
                Chore::Ran => turns += 1,
                chore => return (chore, turns),
            }
            if done >= FEW_TURNS && wanted.load(Ordering::SeqCst) > 0 {
                break;
            }
        }
        (Chore::Ran, turns)
    }

    /// The thread whose turn is next; none where the workers are to stop, or no thread at home can go on.
    fn next_thread(&self) -> Option<u32>
        ensures { MatchOption result (NoneIsNext self.now.memory self.now.fault self.now.vm) (λ thread. MayGo self.now.vm thread) }
    {
        if self.memory || self.fault {
            return None;
        }
        if self.vm.goes_on() {
            self.vm.ready()
        } else {
            None
        }
    }

    /// What a worker does next with the machine.
    fn act(&mut self, share: &mut Share<L>, worker: u32, lends: bool) -> Chore
        requires worker { (worker < 8) × (0 < share.old.parts) }
        ensures names { names_of self.new.vm ≡ names_of self.old.vm }
        ensures chore { IsChore self.old.vm.verified.image result }
        ensures parts { share.new.parts ≡ share.old.parts }
        ensures amount { share.new.amount ≡ share.old.amount + ran result }
    {
        match self.next_thread() {
            Some(thread) if lends => self.go(share, worker, thread),
            Some(thread) => self.turn(share, worker, thread),
            None if self.is_over() => Chore::Stop,
            None => Chore::Rest,
        }
    }

    /// A slice of a thread, where its next step is local, else a turn of it.
    fn go(&mut self, share: &mut Share<L>, worker: u32, thread: u32) -> Chore
        requires worker { (worker < 8) × (0 < share.old.parts) }
        requires may { MayGo self.old.vm thread }
        ensures names { names_of self.new.vm ≡ names_of self.old.vm }
        ensures chore { IsChore self.old.vm.verified.image result }
        ensures parts { share.new.parts ≡ share.old.parts }
        ensures amount { share.new.amount ≡ share.old.amount + ran result }
    {
        match self.lend(thread) {
            Some(chore) => chore,
            None => self.turn(share, worker, thread),
        }
    }

    /// A slice of a thread. None where its next step isn't local.
    fn lend(&mut self, thread: u32) -> Option<Chore>
        ensures names { names_of self.new.vm ≡ names_of self.old.vm }
        ensures chore { MatchOption result (self.new.vm ≡ self.old.vm) (λ c. IsChore self.old.vm.verified.image c × (ran c ≡ 0)) }
    {
        if self.out >= SLICES {
            return Some(Chore::Rest);
        }
        let Desk {
            vm,
            memory,
            out,
            ..
        } = self;
        match lend(vm, thread) {
            Ok(Some(slice)) => {
                *out += 1;
                Some(Chore::Lent(slice))
            }
            Ok(None) => None,
            Err(_) => {
                *memory = true;
                Some(Chore::Stop)
            }
        }
    }

    /// A turn: local steps, and then one other. Where memory is wanting the workers are to stop, and steps that were done before stand.
    fn turn(&mut self, share: &mut Share<L>, worker: u32, thread: u32) -> Chore
        requires worker { (worker < 8) × (0 < share.old.parts) }
        requires may { MayGo self.old.vm thread }
        ensures names { names_of self.new.vm ≡ names_of self.old.vm }
        ensures home { self.new.vm.lent ≡ self.old.vm.lent }
        ensures chore { IsChore self.old.vm.verified.image result }
        ensures stop { result ≡ Chore.Stop → self.new.memory ≡ true }
        ensures parts { share.new.parts ≡ share.old.parts }
        ensures amount { share.new.amount ≡ share.old.amount + ran result }
    {
        let _log = self.vm.log();
        let tried = self.try_turn(share, worker, thread);
        if tried.steps > 0 {
            Chore::Ran
        } else {
            Chore::Stop
        }
    }

    /// A turn of a thread at home that is tried. Where it has steps it is counted; where memory was wanting the desk tells it.
    fn try_turn(&mut self, share: &mut Share<L>, worker: u32, thread: u32) -> Tried
        requires worker { (worker < 8) × (0 < share.old.parts) }
        requires home { All (λ t. t ≢ thread) self.old.vm.lent }
        ensures names { names_of self.new.vm ≡ names_of self.old.vm }
        ensures home { self.new.vm.lent ≡ self.old.vm.lent }
        ensures some { MayGo self.old.vm thread → result.wants ≡ false → 1 ≤ result.steps }
        ensures memory { self.new.memory ≡ (self.old.memory || result.wants) }
        ensures parts { share.new.parts ≡ share.old.parts }
        ensures amount { share.new.amount ≡ share.old.amount + min 1 result.steps }
    {
        let Desk {
            vm,
            sink,
            written,
            fault,
            memory,
            book,
            ..
        } = self;
        let tried = try_turn(vm, worker, thread);
        book.add(share, u64::from(tried.steps.min(1)));
        pour_some(sink, vm, written, fault);
        *memory |= tried.wants;
        tried
    }

    /// What a worker does with the machine when it has it: it brings its slice, if it has one, and goes on. Gives how many entries were logged.
    pub fn work(
        &mut self,
        share: &mut Share<L>,
        worker: u32,
        slice: Option<Slice>,
        wanted: &AtomicU64,
    ) -> (Chore, u64)
        requires worker { (worker < 8) × (0 < share.old.parts) }
        requires slice { IfSome slice (λ s. IsSlice self.old.vm.verified.image 256 s) }
        ensures names { names_of self.new.vm ≡ names_of self.old.vm }
        ensures chore { IsChore self.old.vm.verified.image result.0 }
        ensures parts { share.new.parts ≡ share.old.parts }
        ensures amount { share.new.amount ≡ share.old.amount + result.1 }
        ensures fits { share.new.amount < 2 ^ 64 }
    {
        let in_place = turns_in_place(&slice);
        let brought = self.bring(share, worker, slice);
        let (chore, turns) = self.advance(share, worker, in_place, wanted);
        self.audit(share);
        (chore, brought + turns)
    }

    /// Takes a slice back, if there is one; gives how many entries were logged.
    fn bring(&mut self, share: &mut Share<L>, worker: u32, slice: Option<Slice>) -> u64
        requires worker { (worker < 8) × (0 < share.old.parts) }
        requires slice { IfSome slice (λ s. IsSlice self.old.vm.verified.image 256 s) }
        ensures names { names_of self.new.vm ≡ names_of self.old.vm }
        ensures parts { share.new.parts ≡ share.old.parts }
        ensures amount { share.new.amount ≡ share.old.amount + result }
    {
        match slice {
            Some(slice) => self.settle(share, worker, slice),
            None => 0,
        }
    }

    /// Whether a thread can go on that no worker has: besides those that are lent, and one that this worker goes on with.
    pub fn has_more(&self, chore: &Chore) -> bool {
        let mut busy = match chore {
            Chore::Ran => u64::from(self.out) + 1,
            _ => u64::from(self.out),
        };
        for thread in 0..self.vm.threads() {
            if self.vm.runnable(thread) {
                if busy == 0 {
                    return true;
                }
                busy -= 1;
            }
        }
        false
    }

    /// An only worker has the machine in hand all the time, and does each turn in place. Gives how many turns there were.
    pub fn run_alone<R: Wait, G: Gate>(&mut self, rt: &R, gate: &G, share: &mut Share<L>) -> u64
        requires share { (0 < share.old.parts) × (share.old.amount ≡ 0) }
        requires home { self.old.vm.lent ≡ [] }
        ensures names { names_of self.new.vm ≡ names_of self.old.vm }
        ensures parts { share.new.parts ≡ share.old.parts }
        ensures turns { share.new.amount ≡ result }
        ensures over { IsDone self.new.memory self.new.fault self.new.vm }
    {
        let mut turns = 0;
        for _ in rt.forever() {
            match self.next_thread() {
                Some(thread) => turns += self.turns_in_place(gate, share, thread),
                None if self.is_over() => return turns,
                None => {}
            }
        }
        unreachable!()
    }

    /// Turns of an only worker, of one thread, as long as it can go on, up to the end or to where another thread may be next. One of more than one
    /// step begins with local ones, so it is a slice as well, which the gate is told of. Gives how many there were.
    fn turns_in_place<G: Gate>(&mut self, gate: &G, share: &mut Share<L>, thread: u32) -> u64
        requires share { 0 < share.old.parts }
        requires home { self.old.vm.lent ≡ [] }
        ensures names { names_of self.new.vm ≡ names_of self.old.vm }
        ensures home { self.new.vm.lent ≡ self.old.vm.lent }
        ensures parts { share.new.parts ≡ share.old.parts }
        ensures amount { share.new.amount ≡ share.old.amount + result }
        ensures fits { share.new.amount < 2 ^ 64 }
    {
        let most = turns_at_once(thread);
        for turns in 0..most {
            let steps = self.try_turn(share, 0, thread).steps;
            if steps > 1 {
                gate.arrive(0, thread);
            }
            if steps == 0 || self.memory || self.fault {
                self.audit(share);
                return u64::from(turns + steps.min(1));
            }
        }
        self.audit(share);
        u64::from(most)
    }

    /// Takes a slice back; gives how many entries were logged.
    fn settle(&mut self, share: &mut Share<L>, worker: u32, slice: Slice) -> u64
        requires worker { (worker < 8) × (0 < share.old.parts) }
        requires made { IsSlice self.old.vm.verified.image 256 slice }
        ensures names { names_of self.new.vm ≡ names_of self.old.vm }
        ensures parts { share.new.parts ≡ share.old.parts }
        ensures amount { share.new.amount ≡ share.old.amount + result }
    {
        if !self.vm.fits(&slice) {
            drop(slice);
            return 0;
        }
        let Desk {
            vm,
            sink,
            written,
            fault,
            memory,
            out,
            book,
        } = self;
        match bring(vm, worker, slice) {
            Ok(entries) => {
                *out -= 1;
                book.add(share, entries);
                pour_some(sink, vm, written, fault);
                entries
            }
            Err(refused) => {
                drop(refused);
                *memory = true;
                0
            }
        }
    }

    /// Writes all that isn't written, until a write fails; nothing where memory was wanting.
    pub fn pour_rest(&mut self)
        ensures same { (self.new.vm ≡ self.old.vm) × (self.new.memory ≡ self.old.memory) }
        ensures all { self.new.fault ≡ false → self.new.memory ≡ false → self.new.written ≡ length (printed self.new.vm) }
        ensures fault { self.old.fault ≡ true → self.new.fault ≡ true }
    {
        let Desk {
            vm,
            sink,
            written,
            fault,
            memory,
            ..
        } = self;
        if !*memory {
            pour_all(sink, vm, written, fault);
        }
    }
}

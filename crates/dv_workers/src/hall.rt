// The place in which the machine lies, with a lock over nothing: who has the lock takes the machine out and puts it back.
ghost use Rattle.std.specs.Prelude.{◌≡◌, ◌<◌, ◌≤◌, ◌+◌, ◌^◌, IfOk, IfErr, IfSome, MatchOption, IsNone};
ghost use Rattle.dv_workers.specs.Chores.{IsChore, IsSlice};
ghost use Rattle.dv_workers.specs.Desks.{IsDone};
ghost use Rattle.dv_workers.specs.Seats.{IsAside, IsHolding, names_of};

use crate::began::Began;
use crate::chore::Chore;
use crate::desk::Desk;
use crate::rule::{Cut, Held, Key, Law, Put, Take};
use crate::view::View;
use atomic_table::{Refused, Seat, Table};
use dv_defs::Image;
use dv_io::{Gate, Sink};
use dv_local::{Slice, run_slice};
use std::alloc::Global;
use std::hint::spin_loop;
use std::snapshot::Snapshot;
use std::sync::atomic::{AtomicU64, Ordering};
use std::sync::ledger::Share;
use std::sync::{Condvar, Mutex, MutexGuard, Wait};

/// The most steps of a slice.
const MOST: u32 = 256;

/// How often a worker looks for the lock before it sleeps.
const LOOKS: u32 = 200;

/// How long it looks away in between.
const PAUSE: u32 = 20;

/// A seat by which the machine is taken and put back.
pub type Place<'v, K, L> = Seat<Option<Held<'v, K, L>>, View>;

#[derive(Drop)]
pub struct Hall<'v, K: Sink + Drop, L: Began> {
    table: Table<Option<Held<'v, K, L>>, View, Key<'v>, Law, Global>,
    door: Mutex<()>,
    /// How many workers want the machine that another one has.
    wanted: AtomicU64,
    /// How many workers rest until there is something to do.
    resting: AtomicU64,
    /// Is told where a machine is put back on which a resting worker can go on, and where the workers are to stop.
    moved: Condvar,
    ghost sized: { (table.shared.table_id.words ≡ 1) × (table.shared.table_id.slots ≡ 1) },
}

impl<'v, K: Sink + Drop, L: Began> Hall<'v, K, L> {
    /// The place of a desk, and a first seat, which doesn't hold it. Where memory is wanting the desk comes back.
    pub fn new(
        alloc: Global,
        desk: Desk<'v, K, L>,
    ) -> Result<(Hall<'v, K, L>, Place<'v, K, L>), Desk<'v, K, L>>
        ensures ok { IfOk result (λ r. (r.1.table_id ≡ r.0.table.shared.table_id) × (r.0.table.shared.key.value ≡ desk.entry.vm) × IsAside (names_of desk.entry.vm) r.1.me) }
        ensures err { IfErr result (λ d. d ≡ desk.entry) }
    {
        let key = Snapshot::of(&desk.vm);
        let held = match Box::new(alloc, desk) {
            Ok(held) => held,
            Err(failed) => return Err(failed.value),
        };
        let mut slots = Vec::new(alloc);
        if let Err(failed) = slots.push(Some(held)) {
            return Err(Box::into_inner(failed.value.unwrap()));
        }
        match Table::new(alloc, &[1], slots, &key) {
            Ok((table, seat)) => {
                let hall = Hall {
                    table,
                    door: Mutex::new(()),
                    wanted: AtomicU64::new(0),
                    resting: AtomicU64::new(0),
                    moved: Condvar::new(),
                };
                Ok((hall, seat))
            }
            Err(Refused { mut slots }) => Err(Box::into_inner(slots.pop().unwrap().unwrap())),
        }
    }

    /// A second seat.
    pub fn seat(&self, seat: &mut Place<'v, K, L>) -> Place<'v, K, L>
        requires { (seat.old.table_id ≡ self.now.table.shared.table_id) × IsAside (names_of self.now.table.shared.key.value) seat.old.me }
        ensures new { (result.table_id ≡ self.now.table.shared.table_id) × (result.me ≡ seat.old.me) }
        ensures same { (seat.new.table_id ≡ seat.old.table_id) × (seat.new.me ≡ seat.old.me) }
    {
        self.table.shared.split_seat::<Cut>(seat)
    }

    /// Takes the desk out. None where it is out.
    fn take(&self, seat: &mut Place<'v, K, L>) -> Option<Held<'v, K, L>>
        requires { (seat.old.table_id ≡ self.now.table.shared.table_id) × IsAside (names_of self.now.table.shared.key.value) seat.old.me }
        ensures same { seat.new.table_id ≡ seat.old.table_id }
        ensures taken { MatchOption result (seat.new.me ≡ seat.old.me) (λ d. IsHolding (names_of self.now.table.shared.key.value) seat.new.me × (names_of d.value.vm ≡ names_of self.now.table.shared.key.value)) }
    {
        let shared = &self.table.shared;
        if shared.swap::<Take>(seat, 0, 0) == 1 {
            shared.exchange(seat, 0, None)
        } else {
            None
        }
    }

    /// Puts the desk back.
    fn put(&self, seat: &mut Place<'v, K, L>, desk: Held<'v, K, L>)
        requires seat { (seat.old.table_id ≡ self.now.table.shared.table_id) × IsHolding (names_of self.now.table.shared.key.value) seat.old.me }
        requires names { names_of desk.value.vm ≡ names_of self.now.table.shared.key.value }
        ensures { (seat.new.table_id ≡ seat.old.table_id) × IsAside (names_of self.now.table.shared.key.value) seat.new.me }
    {
        let shared = &self.table.shared;
        match shared.exchange(seat, 0, Some(desk)) {
            None => {}
            Some(_) => unreachable!(),
        }
        shared.store::<Put>(seat, 0, 1);
    }

    /// Wakes who rests: all where the workers are to stop, one where a thread can go on that nobody has.
    fn wake(&self, desk: &Desk<'v, K, L>, chore: &Chore) {
        if let Chore::Stop = chore {
            self.moved.notify_all();
        } else if self.resting.load(Ordering::SeqCst) > 0 && desk.has_more(chore) {
            self.moved.notify_one();
        }
    }

    /// What a worker does with the desk in hand, which it puts back then. Gives how many entries were logged.
    fn work(
        &self,
        seat: &mut Place<'v, K, L>,
        mut desk: Held<'v, K, L>,
        share: &mut Share<L>,
        worker: u32,
        slice: Option<Slice>,
    ) -> (Chore, u64)
        requires seat { (seat.old.table_id ≡ self.now.table.shared.table_id) × IsHolding (names_of self.now.table.shared.key.value) seat.old.me }
        requires names { names_of desk.value.vm ≡ names_of self.now.table.shared.key.value }
        requires worker { (worker < 8) × (0 < share.old.parts) }
        requires slice { IfSome slice (λ s. IsSlice self.now.table.shared.key.value.verified.image 256 s) }
        ensures seat { (seat.new.table_id ≡ seat.old.table_id) × IsAside (names_of self.now.table.shared.key.value) seat.new.me }
        ensures chore { IsChore self.now.table.shared.key.value.verified.image result.0 }
        ensures parts { share.new.parts ≡ share.old.parts }
        ensures amount { share.new.amount ≡ share.old.amount + result.1 }
        ensures fits { share.new.amount < 2 ^ 64 }
    {
        let (chore, entries) = desk.work(share, worker, slice, &self.wanted);
        self.wake(&desk, &chore);
        self.put(seat, desk);
        (chore, entries)
    }

    /// A worker takes the lock. It says that it wants the machine where another one has it.
    fn enter<R: Wait>(&self, rt: &R) -> MutexGuard<'_, ()> {
        if let Some(guard) = self.door.try_lock() {
            return guard;
        }
        self.wanted.fetch_add(1, Ordering::SeqCst);
        let guard = self.wait_to_enter(rt);
        self.wanted.fetch_sub(1, Ordering::SeqCst);
        guard
    }

    /// A worker looks for the lock some times before it sleeps: a visit takes less time than to be woken.
    fn wait_to_enter<R: Wait>(&self, rt: &R) -> MutexGuard<'_, ()> {
        for _ in 0..LOOKS {
            pause();
            if let Some(guard) = self.door.try_lock() {
                return guard;
            }
        }
        self.door.lock(rt)
    }

    /// A worker rests until it is woken.
    fn rest<R: Wait>(&self, rt: &R, guard: MutexGuard<'_, ()>) {
        self.resting.fetch_add(1, Ordering::SeqCst);
        drop(self.moved.wait(rt, guard));
        self.resting.fetch_sub(1, Ordering::SeqCst);
    }

    /// A worker takes the machine, brings its slice, if it has one, and goes on; it may wait. Gives what is to be done beside the machine, and how many
    /// entries were logged.
    fn visit<R: Wait>(
        &self,
        rt: &R,
        seat: &mut Place<'v, K, L>,
        share: &mut Share<L>,
        worker: u32,
        slice: Option<Slice>,
    ) -> (Chore, u64)
        requires seat { (seat.old.table_id ≡ self.now.table.shared.table_id) × IsAside (names_of self.now.table.shared.key.value) seat.old.me }
        requires worker { (worker < 8) × (0 < share.old.parts) }
        requires slice { IfSome slice (λ s. IsSlice self.now.table.shared.key.value.verified.image 256 s) }
        ensures seat { (seat.new.table_id ≡ seat.old.table_id) × IsAside (names_of self.now.table.shared.key.value) seat.new.me }
        ensures chore { IsChore self.now.table.shared.key.value.verified.image result.0 }
        ensures parts { share.new.parts ≡ share.old.parts }
        ensures amount { share.new.amount ≡ share.old.amount + result.1 }
        ensures fits { share.new.amount < 2 ^ 64 }
    {
        let guard = self.enter(rt);
        for _ in rt.forever() {
            if let Some(desk) = self.take(seat) {
                let (chore, entries) = self.work(seat, desk, share, worker, slice);
                if let Chore::Rest = chore {
                    self.rest(rt, guard);
                }
                return (chore, entries);
            }
        }
        unreachable!()
    }

    /// A worker goes on until the workers are to stop; gives how many entries of the log are its own.
    pub fn work_through<R: Wait, G: Gate>(
        &self,
        rt: &R,
        gate: &G,
        image: &Image,
        seat: &mut Place<'v, K, L>,
        share: &mut Share<L>,
        worker: u32,
    ) -> u64
        requires seat { (seat.old.table_id ≡ self.now.table.shared.table_id) × IsAside (names_of self.now.table.shared.key.value) seat.old.me }
        requires image { image.now ≡ self.now.table.shared.key.value.verified.image }
        requires worker { (worker < 8) × (0 < share.old.parts) }
        ensures seat { (seat.new.table_id ≡ seat.old.table_id) × IsAside (names_of self.now.table.shared.key.value) seat.new.me }
        ensures parts { share.new.parts ≡ share.old.parts }
        ensures turns { share.new.amount ≡ share.old.amount + result }
        ensures fits { share.new.amount < 2 ^ 64 }
    {
        let mut turns = 0;
        let mut slice = None;
        for _ in rt.forever() {
            let (chore, entries) = self.visit(rt, seat, share, worker, slice);
            turns += entries;
            slice = match chore {
                Chore::Stop => return turns,
                Chore::Lent(lent) => Some(carried_out(gate, image, worker, lent)),
                Chore::Ran | Chore::Rest => None,
            };
        }
        unreachable!()
    }

    /// The desk, where the call may return.
    fn leave<R: Wait>(&self, rt: &R, seat: &mut Place<'v, K, L>) -> Option<Held<'v, K, L>>
        requires seat { (seat.old.table_id ≡ self.now.table.shared.table_id) × IsAside (names_of self.now.table.shared.key.value) seat.old.me }
        ensures seat { (seat.new.table_id ≡ seat.old.table_id) × (IsNone result → IsAside (names_of self.now.table.shared.key.value) seat.new.me) }
        ensures names { IfSome result (λ d. names_of d.value.vm ≡ names_of self.now.table.shared.key.value) }
        ensures over { IfSome result (λ d. IsDone d.value.memory d.value.fault d.value.vm) }
    {
        let _guard = self.door.lock(rt);
        let desk = self.take(seat)?;
        if desk.is_done() {
            return Some(desk);
        }
        self.put(seat, desk);
        None
    }

    /// The caller goes on as a worker, and leaves with the desk in hand.
    pub fn finish<R: Wait, G: Gate>(
        &self,
        rt: &R,
        gate: &G,
        image: &Image,
        seat: &mut Place<'v, K, L>,
        share: &mut Share<L>,
        worker: u32,
    ) -> (Held<'v, K, L>, u64)
        requires seat { (seat.old.table_id ≡ self.now.table.shared.table_id) × IsAside (names_of self.now.table.shared.key.value) seat.old.me }
        requires image { image.now ≡ self.now.table.shared.key.value.verified.image }
        requires worker { (worker < 8) × (0 < share.old.parts) }
        ensures parts { share.new.parts ≡ share.old.parts }
        ensures turns { share.new.amount ≡ share.old.amount + result.1 }
        ensures names { names_of result.0.value.vm ≡ names_of self.now.table.shared.key.value }
        ensures over { IsDone result.0.value.memory result.0.value.fault result.0.value.vm }
    {
        let mut turns = 0;
        for _ in rt.forever() {
            if let Some(desk) = self.leave(rt, seat) {
                return (desk, turns);
            }
            turns += self.work_through(rt, gate, image, seat, share, worker);
        }
        unreachable!()
    }
}

/// Local steps of a thread that is lent, beside the machine.
fn carried_out<G: Gate>(gate: &G, image: &Image, worker: u32, mut slice: Slice) -> Slice
    requires made { IsSlice image.now 0 slice }
    ensures { IsSlice image.now 256 result }
{
    let _done = run_slice(image, &mut slice, MOST);
    gate.arrive(worker, slice.thread);
    slice
}

/// Some hundred cycles of the processor.
fn pause() {
    for _ in 0..PAUSE {
        spin_loop();
    }
}

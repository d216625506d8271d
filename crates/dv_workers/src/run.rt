// A run by several workers.
ghost use Rattle.std.specs.Prelude.{◌≡◌, ◌≢◌, ◌<◌, ◌≤◌, ◌+◌, ◌^◌, ◌⊎◌, [], All, length, sum, vec_capacity, vec_len, true, false, None as Nothing};
ghost use Rattle.dv_io.specs.Io.{HasRisen, TookPart, after_write};
ghost use Rattle.dv_machine.specs.Running.{ending_of};
ghost use Rattle.dv_sound.specs.Lending.{IsSameProgram};
ghost use Rattle.dv_sound.specs.Runs.{AtItsState, IsAtSome};
ghost use Rattle.dv_workers.specs.Desks.{IsDone, IsLeft, IsRunBy, printed};
ghost use Rattle.dv_workers.specs.Entries.{IsOfWorker};
ghost use Rattle.dv_workers.specs.Seats.{IsAside, names_of};

use crate::began::Began;
use crate::crew::{Crew, Post, run_crew};
use crate::desk::Desk;
use crate::hall::{Hall, Place};
use dv_defs::Image;
use dv_io::{Gate, Sink};
use dv_sound::SafeVm;
use std::alloc::Global;
use std::marker::Brand;
use std::sync::Wait;
use std::sync::ledger::{Blank, Share};
use std::thread::Threads;

/// What a run by workers leaves: the machine, the sink, by worker how many entries of the log are its own, whether a write failed, and whether
/// memory was wanting.
#[derive(Drop)]
pub struct Ran<'v, K: Sink> {
    pub vm: SafeVm<'v>,
    pub sink: K,
    pub turns: Vec<u64>,
    pub fault: bool,
    pub memory: bool,
}

/// What is left of a desk.
fn cleared<'v, K: Sink + Drop, L: Began>(
    desk: Desk<'v, K, L>,
    turns: Vec<u64>,
    memory: bool,
) -> Ran<'v, K>
    requires memory { desk.memory ≡ true → memory ≡ true }
    requires all { desk.fault ≡ false → memory ≡ false → desk.written ≡ length (printed desk.vm) }
    ensures same { (result.vm ≡ desk.entry.vm) × (result.turns ≡ turns) × (result.fault ≡ desk.entry.fault) × (result.memory ≡ memory) }
    ensures left { IsLeft L.taken (K.taken result.sink) L.faults (K.faults result.sink) result.fault result.memory (printed result.vm) }
    ensures entries { All IsOfWorker result.vm.log }
{
    let Desk {
        vm,
        sink,
        fault,
        book,
        ..
    } = desk;
    drop(book);
    Ran {
        vm,
        sink,
        turns,
        fault,
        memory,
    }
}

/// What is left at the end: of what was printed all is written, unless a write fails or memory is wanting.
fn left<'v, K: Sink + Drop, L: Began>(mut desk: Desk<'v, K, L>, turns: Vec<u64>) -> Ran<'v, K>
    requires over { IsDone desk.memory desk.fault desk.vm }
    ensures same { (result.vm ≡ desk.entry.vm) × (result.turns ≡ turns) }
    ensures over { IsDone result.memory result.fault result.vm }
    ensures left { IsLeft L.taken (K.taken result.sink) L.faults (K.faults result.sink) result.fault result.memory (printed result.vm) }
    ensures entries { All IsOfWorker result.vm.log }
{
    desk.pour_rest();
    let memory = desk.memory;
    cleared(desk, turns, memory)
}

/// All workers, and then the caller's own loop; gives the machine with the turns.
fn run_hall<
    'v,
    K: Sink + Send + Drop,
    L: Began + Send + Sync,
    R: Threads + Wait + Sync,
    G: Gate + Sync,
>(
    rt: &R,
    gate: &G,
    hall: &Hall<'v, K, L>,
    image: &'v Image,
    mut mine: Place<'v, K, L>,
    share: Share<L>,
    workers: u32,
    room: Vec<u64>,
) -> (Desk<'v, K, L>, Vec<u64>)
    requires seat { (mine.table_id ≡ hall.now.table.shared.table_id) × IsAside (names_of hall.now.table.shared.key.value) mine.me }
    requires image { image.now ≡ hall.now.table.shared.key.value.verified.image }
    requires share { (share.parts ≡ workers) × (share.parts ≡ L.parts) × (share.amount ≡ 0) }
    requires workers { (1 ≤ workers) × (workers ≤ 8) }
    requires room { (room.items ≡ []) × (8 ≤ vec_capacity room) }
    ensures names { names_of result.0.vm ≡ names_of hall.now.table.shared.key.value }
    ensures turns { sum result.1.items ≡ length result.0.vm.log }
    ensures each { vec_len result.1 ≡ workers }
    ensures over { IsDone result.0.memory result.0.fault result.0.vm }
{
    let seat = hall.seat(&mut mine);
    let post = Post {
        hall,
        image,
        seat,
        share,
    };
    let Crew {
        mut share,
        mut turns,
        ..
    } = run_crew(rt, gate, post, workers, room);
    let (held, more) = hall.finish(rt, gate, image, &mut mine, &mut share, 0);
    let mut desk = Box::into_inner(held);
    desk.audit(&mut share);
    add_first(&mut turns, more);
    (desk, turns)
}

/// The run of an only worker, which is the caller.
fn run_by_one<'v, K: Sink + Drop, L: Began, R: Wait, G: Gate>(
    rt: &R,
    gate: &G,
    mut desk: Desk<'v, K, L>,
    mut share: Share<L>,
    mut room: Vec<u64>,
) -> Ran<'v, K>
    requires empty { (desk.vm.log ≡ []) × (desk.vm.lent ≡ []) }
    requires share { (share.parts ≡ 1) × (share.parts ≡ L.parts) × (share.amount ≡ 0) }
    requires room { (room.items ≡ []) × (8 ≤ vec_capacity room) }
    ensures run { IsRunBy 1 desk.entry.vm result.vm result.turns.items result.fault result.memory }
    ensures left { IsLeft L.taken (K.taken result.sink) L.faults (K.faults result.sink) result.fault result.memory (printed result.vm) }
{
    let turns = desk.run_alone(rt, gate, &mut share);
    desk.audit(&mut share);
    drop(share);
    room.push_reserved(turns);
    left(desk, room)
}

/// The run of a desk.
fn run_desk<
    'v,
    K: Sink + Send + Drop,
    L: Began + Send + Sync,
    R: Threads + Wait + Sync,
    G: Gate + Sync,
>(
    rt: &R,
    alloc: Global,
    gate: &G,
    desk: Desk<'v, K, L>,
    share: Share<L>,
    workers: u32,
) -> Ran<'v, K>
    requires empty { (desk.vm.log ≡ []) × (desk.vm.lent ≡ []) }
    requires share { (share.parts ≡ workers) × (share.parts ≡ L.parts) × (share.amount ≡ 0) }
    requires workers { (1 ≤ workers) × (workers ≤ 8) }
    ensures run { IsRunBy workers desk.entry.vm result.vm result.turns.items result.fault result.memory }
    ensures left { IsLeft L.taken (K.taken result.sink) L.faults (K.faults result.sink) result.fault result.memory (printed result.vm) }
{
    let image = &desk.vm.verified().image;
    let Ok(room) = Vec::with_capacity(alloc, 8) else {
        drop(share);
        return cleared(desk, Vec::new(alloc), true);
    };
    if workers == 1 {
        return run_by_one(rt, gate, desk, share, room);
    }
    match Hall::new(alloc, desk) {
        Ok((hall, mine)) => {
            let (desk, turns) = run_hall(rt, gate, &hall, image, mine, share, workers, room);
            drop(hall);
            left(desk, turns)
        }
        Err(desk) => {
            drop(share);
            drop(room);
            cleared(desk, Vec::new(alloc), true)
        }
    }
}

/// The run, with a ledger that is named.
fn run_in<
    'v,
    K: Sink + Send + Drop,
    L: Began + Send + Sync,
    R: Threads + Wait + Sync,
    G: Gate + Sync,
>(
    rt: &R,
    alloc: Global,
    vm: SafeVm<'v>,
    workers: u32,
    gate: &G,
    sink: K,
    blank: Blank,
) -> Ran<'v, K>
    requires ledger { (blank.name ≡ L.name) × (blank.parts ≡ L.parts) × (blank.parts ≡ workers) }
    requires began { (K.taken sink ≡ L.taken) × (K.faults sink ≡ L.faults) }
    requires workers { (1 ≤ workers) × (workers ≤ 8) }
    requires empty { (vm.log ≡ []) × (vm.lent ≡ []) }
    ensures run { IsRunBy workers vm.entry result.vm result.turns.items result.fault result.memory }
    ensures left { IsLeft (K.taken sink) (K.taken result.sink) (K.faults sink) (K.faults result.sink) result.fault result.memory (printed result.vm) }
{
    let (book, share) = blank.open::<L>();
    let desk = Desk::new(vm, book, sink);
    run_desk(rt, alloc, gate, desk, share, workers)
}

/// More turns of worker 0.
fn add_first(turns: &mut Vec<u64>, more: u64)
    requires { (0 < vec_len turns.old) × (sum turns.old.items + more < 2 ^ 64) }
    ensures sum { sum turns.new.items ≡ sum turns.old.items + more }
    ensures len { vec_len turns.new ≡ vec_len turns.old }
{
    turns[0] += more;
}

/// Runs a machine by so many workers, each in a thread of its own where one can be started, until the run has ended, a write has failed or
/// memory is wanting. What the program prints is written meanwhile, but for less than 4,096 bytes, and the rest at the end.
///
/// The state of the machine that comes back is the one to which its log leads, as always. It isn't said that the call returns.
pub fn run_workers<'v, K: Sink + Send + Drop, G: Gate + Sync, R: Threads + Wait + Sync>(
    rt: &R,
    alloc: Global,
    vm: SafeVm<'v>,
    workers: u32,
    gate: &G,
    sink: K,
) -> Ran<'v, K>
    requires workers { (1 ≤ workers) × (workers ≤ 8) }
    requires empty { vm.log ≡ [] }
    requires home { vm.lent ≡ [] }
    ensures same { IsSameProgram vm.entry result.vm }
    ensures leads { IsAtSome result.vm }
    ensures turns { sum result.turns.items ≡ length result.vm.log }
    ensures each { (vec_len result.turns ≡ workers) ⊎ ((result.turns.items ≡ []) × (result.memory ≡ true)) }
    ensures entries { All IsOfWorker result.vm.log }
    ensures part { TookPart (K.taken sink) (K.taken result.sink) result.vm.machine.shared.output }
    ensures all { result.fault ≡ false → result.memory ≡ false → K.taken result.sink ≡ after_write result.vm.machine.shared.output (K.taken sink) }
    ensures ended { result.fault ≡ false → result.memory ≡ false → AtItsState result.vm (λ main m. ending_of result.vm.verified.image m ≢ Nothing) }
    ensures at_home { result.memory ≡ false → result.vm.lent ≡ [] }
    ensures count { K.faults sink ≤ K.faults result.sink }
    ensures fault { result.fault ≡ true → HasRisen (K.faults sink) (K.faults result.sink) }
{
    let ran = run_in::<K, Brand, R, G>(
        rt,
        alloc,
        vm,
        workers,
        gate,
        sink,
        Blank::new(u64::from(workers)),
    );
    let _log = ran.vm.log();
    ran
}

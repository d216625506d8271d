// What the steps of guest threads change.

use dv_clinit::ClassStates;
use dv_heap::Heap;
use dv_threads::Threads;

/// What the steps of guest threads change: the threads with their monitors, the heap, how far classes are initialised, and what was printed.
#[derive(Drop)]
pub struct Guest {
    pub threads: Threads,
    pub heap: Heap,
    pub classes: ClassStates,
    pub output: Vec<u8>,
}

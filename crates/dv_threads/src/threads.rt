// Guest threads by number.
ghost use Rattle.std.specs.Prelude.{◌<◌, ◌↔◌, IsTrue, length};

use dv_defs::End;
use dv_frames::Stack;
use dv_monitor::Monitors;

/// The guest threads by number: their stacks, how each stands, their Thread objects, and the monitors. The three lists are equally long.
#[derive(Drop)]
pub struct Threads {
    pub stacks: Vec<Stack>,
    pub ends: Vec<End>,
    pub objects: Vec<u32>,
    pub monitors: Monitors,
}

/// Whether there is a thread of this number.
pub fn is_there(threads: &Threads, thread: u32) -> bool
    ensures { IsTrue result ↔ (thread < length threads.now.stacks.items) }
{
    (thread as usize) < threads.stacks.len()
}

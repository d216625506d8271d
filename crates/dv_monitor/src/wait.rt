// A thread that waits.

/// A thread that waits for an object: how often it owned the monitor when it gave it up, and whether it was notified.
#[derive(Clone, Copy, PartialEq, Eq, Debug)]
pub struct Wait {
    pub thread: u32,
    pub object: u32,
    pub kept: u64,
    pub notified: bool,
}

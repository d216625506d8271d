// A monitor that a thread owns.

/// A monitor that a thread owns, and how often it has entered it.
#[derive(Clone, Copy, PartialEq, Eq, Debug)]
pub struct Holding {
    pub object: u32,
    pub thread: u32,
    pub count: u64,
}

// How an entering goes that is tried.

/// How an entering goes that is tried.
#[derive(Clone, Copy, PartialEq, Eq, Debug)]
pub enum Entry {
    /// The monitor was free or the thread's own, and is entered.
    Entered,
    /// Another thread owns it.
    Taken,
    /// It is the thread's own, and was entered 2^64 - 1 times.
    Full,
}

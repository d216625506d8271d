// How threads stand.
use crate::ClassId;

/// How a thread stands: living, living with this exception object in flight, returned, or died of this exception object.
#[derive(Clone, Copy, PartialEq, Eq)]
pub enum End {
    Living,
    Flying(u32),
    Returned,
    Died(u32),
}

/// What a thread that needs a class initialised does (JLS 12.4.2): go on, begin to initialise it,
/// wait for the thread that does, or throw as it is erroneous.
#[derive(Clone, Copy, PartialEq, Eq, Debug)]
pub enum Ask {
    Go,
    Begin,
    Wait(u32),
    Bad,
}

/// What a living thread that isn't runnable waits for: a monitor, a notification, a class that another thread
/// initialises, or the end of a thread.
#[derive(Clone, Copy, PartialEq, Eq)]
pub enum Blocked {
    Monitor,
    Wait,
    Class(ClassId),
    Join(u32),
}

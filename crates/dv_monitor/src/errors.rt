// Why a thread may not do what it asks of a monitor.
ghost use Rattle.std.specs.Prelude.{◌≡◌};
ghost use Rattle.dv_monitor.specs.declared.errors.MonitorError.TheVariants as variant;

use std::alloc::AllocError;

/// The thread doesn't own the monitor. `owner` is the thread that does, if any does.
#[derive(Clone, Copy, PartialEq, Eq, Debug)]
pub struct NotOwner {
    pub owner: Option<u32>,
}

/// Why a thread can't wait for an object.
#[derive(Clone, Copy, PartialEq, Eq, Debug)]
pub enum MonitorError {
    NotOwner(NotOwner),
    Memory(AllocError),
}

impl From<NotOwner> for MonitorError {
    ghost from_gives = { λ refused e. e ≡ variant.NotOwner refused };

    fn from(refused: NotOwner) -> MonitorError {
        MonitorError::NotOwner(refused)
    }
}

impl From<AllocError> for MonitorError {
    ghost from_gives = { λ refused e. e ≡ variant.Memory refused };

    fn from(refused: AllocError) -> MonitorError {
        MonitorError::Memory(refused)
    }
}

//! Guest threads on plain words, and the steps with monitors, waiting, starting and joining (JLS 17.1, 17.2). Nothing here blocks: the step of a
//! thread that has to wait leaves all as it is.
#![tactic(auto)]

mod monitors;
mod natives;
mod running;
mod stacks;
mod starting;
mod step;
mod threads;
mod waiting;

pub use monitors::{monitor_enter, monitor_exit, try_monitor_enter};
pub use natives::native_step;
pub use step::thread_step;
pub use threads::Threads;

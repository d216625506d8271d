//! Who owns the monitors of objects and how often, and which threads wait for them (JLS 17.1, 17.2). Objects and threads go by their numbers.
//! Nothing here blocks: a thread that has to wait stands in a list, and whoever runs the threads asks for it.
#![tactic(auto)]

mod entry;
mod errors;
mod holding;
mod holdings;
mod slots;
mod table;
mod wait;
mod waits;

pub use entry::Entry;
pub use errors::{MonitorError, NotOwner};
pub use table::Monitors;
pub use wait::Wait;

//! The typing rules: the state on entry to a method, what each instruction makes of a state, and the edges along which states flow (AOSP,
//! "Dalvik bytecode constraints").
#![tactic(auto)]

mod calls;
mod catchers;
mod changes;
mod entry;
mod flow;
mod numbered;
mod receiver;
mod registers;
mod switches;
mod transfer;
mod verified;

pub use catchers::catcher_edges;
pub use entry::entry_of;
pub use flow::{Edge, can_throw, edges_from, targets_from, thrown_at};
pub use numbered::{edges, entry_state, ok, out};
pub use receiver::{made_by, receiver_of};
pub use transfer::{caught_with, out_of};
pub use verified::{Map, Verified};

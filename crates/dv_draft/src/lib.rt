//! The draft of a method's body: what stands on its lines, with labels in place of addresses and names in place of indices; and the pools
//! of what it names.
#![tactic(auto)]

mod draft;
mod pools;

pub use draft::{Catch, Draft, Draftop, Item, PoolRef, What};
pub use pools::{Pools, index};

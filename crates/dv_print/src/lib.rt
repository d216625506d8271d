//! The listing of a class as smali text.
#![tactic(auto)]

mod catches;
mod class;
mod drafting;
mod flags;
mod formats;
mod handlers;
mod items;
mod laws;
mod members;
mod named;
mod numbers;
mod operands;
mod pieces;
mod pool_entries;
mod raw;
mod references;
mod switches;

pub use class::print_class;
pub use laws::{
    draft_is_assembled, draft_is_kept, draft_keeps_addresses, draft_keeps_entries,
    labels_are_distinct, labels_lead, layout_is_tiled, ranges_are_sorted,
};

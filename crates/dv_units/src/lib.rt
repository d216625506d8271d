//! Dalvik instructions as 16-bit units: `encode` writes the units that spell an instruction, and `decode` reads the
//! instruction that they spell. The formats are those of AOSP's page "Dalvik executable instruction formats".
#![tactic(auto)]

mod error;
mod fields;
mod format;
mod header;
mod laws;
mod payload_readers;
mod payload_writers;
mod payloads;
mod read;
mod readers;
mod shape;
mod sizes;
mod spelled;
mod write;
mod writers;

pub use error::UnitError;
pub use laws::{
    decode_of_encode, encode_of_decode, items_are_apart, spellings_are_apart, tables_agree,
    tiling_is_unique, units_spell_items,
};
pub use payloads::{decode_payload, encode_payload, payload_size};
pub use read::decode;
pub use sizes::{has_offset, has_spelling, insn_size, offset_bits, pool_of};
pub use write::encode;

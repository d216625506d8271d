//! The table of Dalvik's opcodes: the name, format and family of each, whether its instruction can
//! throw and whether it is local; which opcodes are those of floats; and the opcode of a name. Source:
//! the pages "Dalvik bytecode" and "Dalvik executable instruction formats" of the Android documents.
//! No function allocates.
#![tactic(auto)]

mod family;
mod format;
mod row;
mod table;

pub use family::{Bin, Call, Family, Suffix, Test, Unary, Width};
pub use format::Format;
pub use row::{Row, is_float, kind_of, name_to_opcode, row_of};
pub use table::{local_rows_are_plain, names_are_distinct, table_rises};

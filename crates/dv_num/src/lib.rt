//! Dalvik's arithmetic on whole numbers: what Rust's operators would refuse or do otherwise, that is
//! division, remainder, shifts by any distance, the narrowing conversions and cmp-long. Source: the
//! page "Dalvik bytecode" of the Android documents. No function allocates. Addition, subtraction,
//! multiplication and the bit operations are std's `wrapping_add` and so on.
#![tactic(auto)]

mod int;
mod long;

pub use int::{div_i32, rem_i32, shl_i32, shr_i32, to_byte, to_char, to_short, ushr_i32};
pub use long::{cmp_long, div_i64, rem_i64, shl_i64, shr_i64, ushr_i64};

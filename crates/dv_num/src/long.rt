//! The instructions on longs.
ghost use Rattle.std.specs.Prelude.{◌≡◌, ◌↔◌, IsNone, IfSome, pos};
ghost use Rattle.dv_defs.specs.Numbers.{operate64, compare_long};
ghost use Rattle.dv_defs.specs.Parts.{Bin};

use std::cmp::Ordering;

/// div-long, as [`crate::div_i32`].
pub fn div_i64(a: i64, b: i64) -> Option<i64>
    ensures by_zero { IsNone result ↔ (b ≡ pos 0) }
    ensures quotient { IfSome result (λ q. q ≡ operate64 Bin.Div a b) }
{
    (b != 0).then(|| a.wrapping_div(b))
}

/// rem-long, as [`crate::rem_i32`].
pub fn rem_i64(a: i64, b: i64) -> Option<i64>
    ensures by_zero { IsNone result ↔ (b ≡ pos 0) }
    ensures remainder { IfSome result (λ r. r ≡ operate64 Bin.Rem a b) }
{
    (b != 0).then(|| a.wrapping_rem(b))
}

/// shl-long: the distance, an int, is the low six bits of `by`.
pub fn shl_i64(a: i64, by: i32) -> i64
    ensures { result ≡ operate64 Bin.Shl a by }
{
    a.wrapping_shl(by.cast_unsigned())
}

/// shr-long: an arithmetic shift by the low six bits of `by`.
pub fn shr_i64(a: i64, by: i32) -> i64
    ensures { result ≡ operate64 Bin.Shr a by }
{
    a.wrapping_shr(by.cast_unsigned())
}

/// ushr-long: a logical shift by the low six bits of `by`.
pub fn ushr_i64(a: i64, by: i32) -> i64
    ensures { result ≡ operate64 Bin.Ushr a by }
{
    let shifted = a.cast_unsigned().wrapping_shr(by.cast_unsigned());
    shifted.cast_signed()
}

/// cmp-long: -1 where `a` is below `b`, 0 where they are equal, 1 where it is above.
pub fn cmp_long(a: i64, b: i64) -> i32
    ensures sign { result ≡ compare_long a b }
    ensures equal { (result ≡ pos 0) ↔ (a ≡ b) }
{
    match a.cmp(&b) {
        Ordering::Less => -1,
        Ordering::Equal => 0,
        Ordering::Greater => 1,
    }
}

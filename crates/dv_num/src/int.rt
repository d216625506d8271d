//! The instructions on ints.
ghost use Rattle.std.specs.Prelude.{◌≡◌, ◌↔◌, IsNone, IfSome, pos};
ghost use Rattle.dv_defs.specs.Numbers.{operate32, to_byte, to_char, to_short};
ghost use Rattle.dv_defs.specs.Parts.{Bin};

/// div-int: rounded toward zero; the least value by -1 gives the least value. `None` is an
/// ArithmeticException.
pub fn div_i32(a: i32, b: i32) -> Option<i32>
    ensures by_zero { IsNone result ↔ (b ≡ pos 0) }
    ensures quotient { IfSome result (λ q. q ≡ operate32 Bin.Div a b) }
{
    (b != 0).then(|| a.wrapping_div(b))
}

/// rem-int: of the sign of `a`; the least value by -1 gives 0. `None` is an ArithmeticException.
pub fn rem_i32(a: i32, b: i32) -> Option<i32>
    ensures by_zero { IsNone result ↔ (b ≡ pos 0) }
    ensures remainder { IfSome result (λ r. r ≡ operate32 Bin.Rem a b) }
{
    (b != 0).then(|| a.wrapping_rem(b))
}

/// shl-int: the distance is the low five bits of `by`.
pub fn shl_i32(a: i32, by: i32) -> i32
    ensures { result ≡ operate32 Bin.Shl a by }
{
    a.wrapping_shl(by.cast_unsigned())
}

/// shr-int: an arithmetic shift by the low five bits of `by`.
pub fn shr_i32(a: i32, by: i32) -> i32
    ensures { result ≡ operate32 Bin.Shr a by }
{
    a.wrapping_shr(by.cast_unsigned())
}

/// ushr-int: a logical shift by the low five bits of `by`.
pub fn ushr_i32(a: i32, by: i32) -> i32
    ensures { result ≡ operate32 Bin.Ushr a by }
{
    let shifted = a.cast_unsigned().wrapping_shr(by.cast_unsigned());
    shifted.cast_signed()
}

/// int-to-byte: the low 8 bits, sign-extended.
pub fn to_byte(a: i32) -> i32
    ensures { result ≡ to_byte a }
{
    let low = (a.cast_unsigned() % 256) as u8;
    low.cast_signed() as i32
}

/// int-to-char: the low 16 bits, zero-extended.
pub fn to_char(a: i32) -> i32
    ensures { result ≡ to_char a }
{
    (a.cast_unsigned() % 65536) as i32
}

/// int-to-short: the low 16 bits, sign-extended.
pub fn to_short(a: i32) -> i32
    ensures { result ≡ to_short a }
{
    let low = (a.cast_unsigned() % 65536) as u16;
    low.cast_signed() as i32
}

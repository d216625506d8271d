// The fields of units: bytes, nibbles and signed numbers.
ghost use Rattle.std.specs.Prelude.{◌≡◌, ◌+◌, ◌-◌, ◌*◌, ◌/◌, ◌%◌, ◌^◌, ◌<◌, ◌≤◌, IsTrue, [], ◌∷◌, drop, length};
ghost use Rattle.dv_defs.specs.Spelling.{all_fit, all_zero, byte, unit, complement, fits_signed, two_units, four_units};

/// The high and the low byte of a unit.
pub fn bytes(unit: u16) -> (u8, u8)
    ensures high { result.0 ≡ unit / 256 }
    ensures low { result.1 ≡ unit % 256 }
{
    ((unit / 256) as u8, (unit % 256) as u8)
}

/// The high and the low nibble of a byte.
pub fn nibbles(byte: u8) -> (u16, u16)
    ensures high { result.0 ≡ byte / 16 }
    ensures low { result.1 ≡ byte % 16 }
{
    (u16::from(byte / 16), u16::from(byte % 16))
}

/// A byte of two nibbles.
pub fn byte(high: u16, low: u16) -> u16
    requires high { high < 16 }
    requires low { low < 16 }
    ensures value { result ≡ byte high low }
    ensures fits { result < 256 }
{
    high * 16 + low
}

/// A unit of two bytes.
pub fn unit(high: u16, low: u16) -> u16
    requires high { high < 256 }
    requires low { low < 256 }
    ensures { result ≡ unit high low }
{
    high * 256 + low
}

fn are_zero(words: &[u16]) -> bool
    ensures { result ≡ all_zero words.now }
{
    words.iter().all(|word| *word == 0)
}

/// Whether the words from `start` on are 0.
pub fn are_zero_from(words: &[u16], start: u8) -> bool
    requires { start ≤ length words.now }
    ensures { result ≡ all_zero (drop start words.now) }
{
    are_zero(&words[usize::from(start)..])
}

/// Whether all are nibbles.
pub fn are_nibbles(words: &[u16]) -> bool
    ensures { result ≡ all_fit 4 words.now }
{
    words.iter().all(|word| *word < 16)
}

/// Whether a field of `bits` bits holds a signed number.
pub fn fits_signed(value: i64, bits: u32) -> bool
    requires above { 1 ≤ bits }
    requires below { bits ≤ 32 }
    ensures { result ≡ fits_signed bits value }
{
    let half = 1i64 << (bits - 1);
    -half <= value && value < half
}

/// A signed number as the `bits` bits of its two's complement.
pub fn complement(value: i64, bits: u32) -> u32
    requires above { 1 ≤ bits }
    requires below { bits ≤ 32 }
    requires fits { IsTrue (fits_signed bits value) }
    ensures value { result ≡ complement bits value }
    ensures fits { result < 2 ^ bits }
{
    if value < 0 {
        (value + (1i64 << bits)) as u32
    } else {
        value as u32
    }
}

/// The signed number of which these are the `bits` bits of the two's complement.
pub fn signed(value: u32, bits: u32) -> i64
    requires above { 1 ≤ bits }
    requires below { bits ≤ 32 }
    requires fits { value < 2 ^ bits }
    ensures fits { IsTrue (fits_signed bits result) }
    ensures value { complement bits result ≡ value }
{
    if value < 1u32 << (bits - 1) {
        i64::from(value)
    } else {
        i64::from(value) - (1i64 << bits)
    }
}

/// The same, for an offset.
pub fn signed_offset(value: u32, bits: u32) -> i32
    requires above { 1 ≤ bits }
    requires below { bits ≤ 32 }
    requires fits { value < 2 ^ bits }
    ensures fits { IsTrue (fits_signed bits result) }
    ensures value { complement bits result ≡ value }
{
    signed(value, bits) as i32
}

/// A signed number as the 64 bits of its two's complement.
pub fn complement_64(value: i64) -> u64
    ensures value { result ≡ complement 64 value }
    ensures fits { IsTrue (fits_signed 64 value) }
{
    value.cast_unsigned()
}

/// The same, for a number of 32 bits.
pub fn complement_32(value: i32) -> u32
    ensures value { result ≡ complement 32 value }
    ensures fits { IsTrue (fits_signed 32 value) }
{
    value.cast_unsigned()
}

/// The signed number of which these are the 64 bits of the two's complement.
pub fn signed_64(value: u64) -> i64
    ensures fits { IsTrue (fits_signed 64 result) }
    ensures value { complement 64 result ≡ value }
{
    value.cast_signed()
}

/// A number of 32 bits in units, the low one first.
pub fn two_units(value: u32) -> (u16, u16)
    ensures { two_units value ≡ result.0 ∷ result.1 ∷ [] }
{
    ((value % 0x1_0000) as u16, (value / 0x1_0000) as u16)
}

/// The number of 32 bits in two units, the low one first.
pub fn of_two_units(low: u16, high: u16) -> u32
    ensures { two_units result ≡ low ∷ high ∷ [] }
{
    u32::from(high) * 0x1_0000 + u32::from(low)
}

/// A number of 64 bits in units, the lowest first.
pub fn four_units(value: u64) -> [u16; 4]
    ensures { result ≡ four_units value }
{
    [
        (value % 0x1_0000) as u16,
        (value / 0x1_0000 % 0x1_0000) as u16,
        (value / 0x1_0000_0000 % 0x1_0000) as u16,
        (value / 0x1_0000_0000_0000) as u16,
    ]
}

/// The number of 64 bits in four units, the lowest first.
pub fn of_four_units(a: u16, b: u16, c: u16, d: u16) -> u64
    ensures { four_units result ≡ a ∷ b ∷ c ∷ d ∷ [] }
{
    let high = u64::from(d) * 0x1_0000 + u64::from(c);
    let low = u64::from(b) * 0x1_0000 + u64::from(a);
    high * 0x1_0000_0000 + low
}

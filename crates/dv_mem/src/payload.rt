// The elements of fill-array-data, read where they stand (AOSP, "Dalvik bytecode format", fill-array-data-payload format).
ghost use Rattle.std.specs.Prelude.{◌≡◌, ◌*◌, ◌<◌, ◌≤◌, ◌^◌, true, Option, drop, slice_index, nat_eq, length, IfSome, IsSomeAnd};
ghost use Rattle.dv_defs.specs.declared.code.Payload.{Payload};
ghost use Rattle.dv_defs.specs.Tiling.{bytes_in, is_width, payload_at, tiles_in, tiling};
ghost use Rattle.dv_ops.specs.Meaning.{is_data};
ghost use Rattle.dv_mem.specs.Payloads.{AreElements, HasData, element_at, number_at, words_of_number};
ghost use Rattle.dv_mem.specs.Values.{listed};

use crate::words::Words;

/// So many elements of so many bytes each, the low byte of a unit first.
#[derive(Clone, Copy)]
pub struct Data<'a> {
    pub width: u16,
    pub count: u32,
    pub units: &'a [u16],
}

/// The units from an address on.
fn units_from(units: &[u16], at: usize) -> &[u16]
    requires { at ≤ length units.now }
    ensures { result.now ≡ drop at units.now }
{
    &units[at..]
}

/// The data that begin units behind their mark: the size of an element, the number of elements, and the elements.
fn data_in(units: &[u16]) -> Option<Data<'_>>
    ensures found { (p : Option Payload) → HasData units.now p → IsSomeAnd result (λ d. AreElements d.width d.count d.units.now p) }
    ensures whole { IfSome result (λ d. d.count * d.width ≤ 2 * length d.units.now) }
{
    if units.len() < 4 {
        return None;
    }
    let width = units[1];
    let count = u32::from(units[2]) + u32::from(units[3]) * 0x1_0000;
    let rest = units_from(units, 4);
    let bytes = u64::from(count) * u64::from(width);
    if (bytes + 1) / 2 > rest.len() as u64 {
        return None;
    }
    Some(Data {
        width,
        count,
        units: rest,
    })
}

/// The payload of fill-array-data at an address.
pub fn data_at(units: &[u16], at: u32) -> Option<Data<'_>>
    ensures found { is_data (payload_at (tiles_in (tiling units.now)) at) ≡ true →
        IsSomeAnd result (λ d. AreElements d.width d.count d.units.now (payload_at (tiles_in (tiling units.now)) at)) }
    ensures whole { IfSome result (λ d. d.count * d.width ≤ 2 * length d.units.now) }
{
    let at = at as usize;
    if units.len() < at {
        return None;
    }
    data_in(units_from(units, at))
}

/// A unit, 0 past the end.
fn unit(units: &[u16], place: usize) -> u16
    ensures { result ≡ slice_index units.now place }
{
    match units.get(place) {
        Some(unit) => *unit,
        None => 0,
    }
}

/// A byte in units, the low one of a unit first; 0 past the end.
#[tactic(auto, using(crate::proofs::Bytes::even_byte, crate::proofs::Bytes::odd_byte))]
fn byte(units: &[u16], place: usize) -> u32
    ensures byte { result ≡ slice_index (bytes_in units.now) place }
    ensures few { result < 256 }
{
    let unit = u32::from(unit(units, place / 2));
    if place % 2 == 0 {
        unit % 256
    } else {
        unit / 256
    }
}

/// The number of two bytes, the low one first.
fn two_bytes(units: &[u16], place: usize) -> u32
    requires { place < 2 ^ 60 }
    ensures number { result ≡ number_at (bytes_in units.now) place 2 }
    ensures few { result < 65536 }
{
    byte(units, place) + 256 * byte(units, place + 1)
}

/// The number of four bytes, the low one first.
fn four_bytes(units: &[u16], place: usize) -> u32
    requires { place < 2 ^ 59 }
    ensures { result ≡ number_at (bytes_in units.now) place 4 }
{
    two_bytes(units, place) + 65536 * two_bytes(units, place + 2)
}

/// An element by its place: a long's two words, or the word of a number of fewer bytes, sign-extended.
pub fn element(width: u16, units: &[u16], place: u32) -> Words
    ensures { is_width width ≡ true → listed result ≡ words_of_number (nat_eq width 8) (element_at width units.now place) }
{
    let at = place as usize * usize::from(width);
    match width {
        1 => {
            let byte = byte(units, at) as u8;
            Words::One(i32::from(byte.cast_signed()).cast_unsigned())
        }
        2 => {
            let short = two_bytes(units, at) as u16;
            Words::One(i32::from(short.cast_signed()).cast_unsigned())
        }
        4 => Words::One(four_bytes(units, at)),
        _ => Words::Two(four_bytes(units, at), four_bytes(units, at + 4)),
    }
}

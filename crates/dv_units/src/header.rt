// The header of a payload: its kind, and how much it holds.
ghost use Rattle.std.specs.Prelude.{◌≡◌, ◌+◌, ◌*◌, ◌/◌, ◌≤◌, true, false, length, take, drop, slice_index, None, MatchOption};
ghost use Rattle.std.specs.List.{list_all};
ghost use Rattle.dv_defs.specs.Decoding.{is_zero};
ghost use Rattle.dv_defs.specs.Payloads.{payload_here};
ghost use Rattle.dv_defs.specs.Tiling.{is_width, bytes_in};
ghost use Rattle.dv_units.specs.Payloads.{IsHeader, header_size};

use crate::fields::of_two_units;

/// The kind of a payload with its number of targets, or with its elements' width and the number of its bytes.
#[derive(Clone, Copy)]
pub enum Header {
    Packed { size: u16 },
    Sparse { size: u16 },
    Data { width: u16, bytes: usize },
}

impl Header {
    /// The number of units of the payload.
    pub fn units(self) -> usize
        ensures { result ≡ header_size self }
    {
        match self {
            Header::Packed { size } => usize::from(size) * 2 + 4,
            Header::Sparse { size } => usize::from(size) * 4 + 2,
            Header::Data { bytes, .. } => bytes / 2 + bytes % 2 + 4,
        }
    }
}

fn packed(units: &[u16]) -> Option<Header>
    requires mark { slice_index units.now 0 ≡ 0x0100 }
    requires some { 2 ≤ length units.now }
    ensures { MatchOption result (payload_here units.now ≡ None) (λ h. IsHeader h units.now) }
{
    let size = units[1];
    if units.len() < usize::from(size) * 2 + 4 {
        return None;
    }
    Some(Header::Packed { size })
}

fn sparse(units: &[u16]) -> Option<Header>
    requires mark { slice_index units.now 0 ≡ 0x0200 }
    requires some { 2 ≤ length units.now }
    ensures { MatchOption result (payload_here units.now ≡ None) (λ h. IsHeader h units.now) }
{
    let size = units[1];
    if units.len() < usize::from(size) * 4 + 2 {
        return None;
    }
    Some(Header::Sparse { size })
}

/// The number of bytes of so many elements; none where no element has that width.
fn byte_count(count: u32, width: u16) -> Option<usize>
    ensures { MatchOption result (is_width width ≡ false) (λ m. (is_width width ≡ true) × (m ≡ count * width)) }
{
    let count = count as usize;
    match width {
        1 => Some(count),
        2 => Some(count * 2),
        4 => Some(count * 4),
        8 => Some(count * 8),
        _ => None,
    }
}

/// Whether the last byte of the units, where it isn't used, is 0.
fn has_clear_tail(units: &[u16], bytes: usize) -> bool
    requires { (bytes + 1) / 2 + 4 ≤ length units.now }
    ensures { result ≡ list_all is_zero (drop bytes (bytes_in (take ((bytes + 1) / 2) (drop 4 units.now)))) }
{
    bytes % 2 == 0 || units[bytes / 2 + 4] < 256
}

fn data(units: &[u16]) -> Option<Header>
    requires mark { slice_index units.now 0 ≡ 0x0300 }
    ensures { MatchOption result (payload_here units.now ≡ None) (λ h. IsHeader h units.now) }
{
    if units.len() < 4 {
        return None;
    }
    let width = units[1];
    let bytes = byte_count(of_two_units(units[2], units[3]), width)?;
    if units.len() < bytes / 2 + bytes % 2 + 4 || !has_clear_tail(units, bytes) {
        return None;
    }
    Some(Header::Data { width, bytes })
}

/// The header of the payload that stands at the beginning of units.
pub fn read_header(units: &[u16]) -> Option<Header>
    ensures { MatchOption result (payload_here units.now ≡ None) (λ h. IsHeader h units.now) }
{
    if units.len() < 2 {
        return None;
    }
    match units[0] {
        0x0100 => packed(units),
        0x0200 => sparse(units),
        0x0300 => data(units),
        _ => None,
    }
}

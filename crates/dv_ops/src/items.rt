// The items of units.
ghost use Rattle.std.specs.Prelude.{◌≡◌, ◌≤◌, ◌<◌, drop, length, option_map};
ghost use Rattle.dv_defs.specs.Decoding.{insn_here};
ghost use Rattle.dv_defs.specs.Payloads.{payload_here};
ghost use Rattle.dv_defs.specs.Tiling.{begins_payload, piece_here};
ghost use Rattle.dv_ops.specs.Places.{begins_as_insn};
ghost use Rattle.dv_defs.specs.Body.{most_units};

use crate::Coded;
use dv_units::{decode, payload_size};

/// The units of a body.
pub fn units_of<'a>(code: &Coded<'a>) -> &'a [u16]
    ensures units { result.now ≡ code.now.body.now.units }
    ensures short { length result.now ≤ most_units }
{
    let body = code.body;
    body.units.items()
}

/// Whether a unit begins a payload.
fn begins_payload(unit: u16) -> bool
    ensures { result ≡ begins_payload unit }
{
    unit % 256 == 0 && 0 < unit / 256 && unit / 256 < 4
}

/// Whether the units from an address on are there and begin as no payload does.
pub fn begins_as_insn(units: &[u16], at: usize) -> bool
    ensures { result ≡ begins_as_insn (drop at units.now) }
{
    at < units.len() && !begins_payload(units[at])
}

/// The number of units of the instruction at an address.
fn insn_units(units: &[u16], at: usize) -> Option<usize>
    requires { at < length units.now }
    ensures { result ≡ option_map (λ x. x.size) (insn_here (drop at units.now)) }
{
    match decode(units, at) {
        Ok((_, size)) => Some(size as usize),
        Err(_) => None,
    }
}

/// The number of units of the payload at an address.
fn payload_units(units: &[u16], at: usize) -> Option<usize>
    requires { length units.now ≤ most_units }
    ensures { result ≡ option_map (λ x. x.size) (payload_here (drop at units.now)) }
{
    match payload_size(units, at) {
        Some(size) => Some(size as usize),
        None => None,
    }
}

/// The number of units of the item at an address; none where no item begins.
pub fn item_units(units: &[u16], at: usize) -> Option<usize>
    requires { length units.now ≤ most_units }
    ensures { result ≡ option_map (λ p. p.size) (piece_here (drop at units.now)) }
{
    if at >= units.len() {
        return None;
    }
    if begins_payload(units[at]) {
        payload_units(units, at)
    } else {
        insn_units(units, at)
    }
}

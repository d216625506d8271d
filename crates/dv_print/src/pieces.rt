// The instructions and payloads of a body, each at its address.
ghost use Rattle.std.specs.Prelude.{◌≡◌, ◌<◌, ◌≤◌, ◌+◌, ◌^◌, length, drop, option_map, IfOk, IfSome};
ghost use Rattle.dv_defs.specs.Decoding.{insn_here};
ghost use Rattle.dv_defs.specs.Payloads.{payload_here};
ghost use Rattle.dv_defs.specs.Tiling.{begins_payload, piece_here};
ghost use Rattle.dv_print.specs.Pieces.{insn_sized, payload_sized, part_sized, pieces_of};
ghost use Rattle.dv_defs.specs.Body.{most_units};

use dv_defs::{Insn, Payload};
use dv_units::{UnitError, decode, decode_payload, payload_size};
use std::alloc::{AllocError, Global};

#[derive(Drop)]
pub enum Part {
    Insn(Insn),
    Payload(Payload),
}

/// An instruction or a payload at its address.
#[derive(Drop)]
pub struct Piece {
    pub at: u16,
    pub part: Part,
}

/// Whether a unit begins a payload.
fn begins_payload(unit: u16) -> bool
    ensures { result ≡ begins_payload unit }
{
    unit % 256 == 0 && 0 < unit / 256 && unit / 256 < 4
}

/// The instruction that stands at `at`, with its size in units.
fn insn_at(units: &[u16], at: usize) -> Option<(Part, usize)>
    requires { at < length units.now }
    ensures { result ≡ option_map insn_sized (insn_here (drop at units.now)) }
{
    match decode(units, at) {
        Ok((insn, size)) => Some((Part::Insn(insn), size as usize)),
        Err(_) => None,
    }
}

/// The payload that stands at `at`, with its size in units.
fn payload_at(alloc: Global, units: &[u16], at: usize) -> Result<Option<(Part, usize)>, AllocError>
    requires inside { at < length units.now }
    requires short { length units.now ≤ most_units }
    ensures { IfOk result (λ r. r ≡ option_map payload_sized (payload_here (drop at units.now))) }
{
    match decode_payload(alloc, units, at) {
        Ok(payload) => {
            let size = payload_size(units, at).unwrap();
            Ok(Some((Part::Payload(payload), size as usize)))
        }
        Err(UnitError::BadPayload) => Ok(None),
        Err(_) => Err(AllocError),
    }
}

/// The instruction or the payload that stands at `at`, with its size in units.
fn part_at(alloc: Global, units: &[u16], at: usize) -> Result<Option<(Part, usize)>, AllocError>
    requires inside { at < length units.now }
    requires short { length units.now ≤ most_units }
    ensures part { IfOk result (λ r. r ≡ option_map part_sized (piece_here (drop at units.now))) }
    ensures within { IfOk result (λ r. IfSome r (λ x. (0 < x.1) × (at + x.1 ≤ length units.now))) }
{
    if begins_payload(units[at]) {
        payload_at(alloc, units, at)
    } else {
        Ok(insn_at(units, at))
    }
}

/// The pieces of units, none where the units aren't instructions and payloads one after another.
pub fn pieces_of(alloc: Global, units: &[u16]) -> Result<Vec<Piece>, AllocError>
    requires { length units.now ≤ most_units }
    ensures { IfOk result (λ v. v.items ≡ pieces_of units.now) }
{
    let mut pieces = Vec::new(alloc);
    let mut at = 0;
    while at < units.len() {
        match part_at(alloc, units, at)? {
            Some((part, size)) => {
                pieces.push(Piece {
                    at: at as u16,
                    part,
                })?;
                at += size;
            }
            None => return Ok(Vec::new(alloc)),
        }
    }
    Ok(pieces)
}

// The instructions and payloads of a body, one after another.
ghost use Rattle.std.specs.Prelude.{◌≡◌, ◌<◌, ◌≤◌, ◌+◌, length, drop, option_map, IfOk, IfSome};
ghost use Rattle.dv_defs.specs.Decoding.{insn_here};
ghost use Rattle.dv_defs.specs.Payloads.{payload_here};
ghost use Rattle.dv_defs.specs.Tiling.{begins_payload, piece_here, tiling};
ghost use Rattle.dv_static.specs.Tiles.{insn_sized, payload_sized, item_sized, tiled_of};
ghost use Rattle.dv_defs.specs.Body.{most_units};

use dv_defs::{Insn, Payload, Seq};
use dv_units::{UnitError, decode, decode_payload, payload_size};
use std::alloc::{AllocError, Global};

#[derive(Drop)]
pub enum Item {
    Insn(Insn),
    Payload(Payload),
}

/// An item with its address and the number of its units.
#[derive(Drop)]
pub struct Tile {
    pub at: u32,
    pub size: u32,
    pub item: Item,
}

/// The items from address 0 to the end, or the first address at which none begins.
#[derive(Drop)]
pub enum Tiled {
    Whole(Seq<Tile>),
    Broken(u32),
}

/// Whether a unit begins a payload.
fn begins_payload(unit: u16) -> bool
    ensures { result ≡ begins_payload unit }
{
    unit % 256 == 0 && 0 < unit / 256 && unit / 256 < 4
}

/// The instruction that stands at `at`, with its size in units.
fn insn_at(units: &[u16], at: usize) -> Option<(Item, u32)>
    requires { at < length units.now }
    ensures { result ≡ option_map insn_sized (insn_here (drop at units.now)) }
{
    match decode(units, at) {
        Ok((insn, size)) => Some((Item::Insn(insn), u32::from(size))),
        Err(_) => None,
    }
}

/// The payload that stands at `at`, with its size in units.
fn payload_at(alloc: Global, units: &[u16], at: usize) -> Result<Option<(Item, u32)>, AllocError>
    requires inside { at < length units.now }
    requires short { length units.now ≤ most_units }
    ensures { IfOk result (λ r. r ≡ option_map payload_sized (payload_here (drop at units.now))) }
{
    match decode_payload(alloc, units, at) {
        Ok(payload) => {
            let size = payload_size(units, at).unwrap();
            Ok(Some((Item::Payload(payload), size)))
        }
        Err(UnitError::BadPayload) => Ok(None),
        Err(_) => Err(AllocError),
    }
}

/// The item that stands at `at`, with its size in units.
fn item_at(alloc: Global, units: &[u16], at: usize) -> Result<Option<(Item, u32)>, AllocError>
    requires inside { at < length units.now }
    requires short { length units.now ≤ most_units }
    ensures item { IfOk result (λ r. r ≡ option_map item_sized (piece_here (drop at units.now))) }
    ensures within { IfOk result (λ r. IfSome r (λ x. (0 < x.1) × (at + x.1 ≤ length units.now))) }
{
    if begins_payload(units[at]) {
        payload_at(alloc, units, at)
    } else {
        Ok(insn_at(units, at))
    }
}

/// The items of units.
#[tactic(auto, using(crate::proofs::TilesSoFar::at_start, crate::proofs::TilesSoFar::at_end))]
pub fn tiles_of(alloc: Global, units: &[u16]) -> Result<Tiled, AllocError>
    requires { length units.now ≤ most_units }
    ensures { IfOk result (λ t. tiled_of t ≡ tiling units.now) }
{
    let mut tiles = Vec::new(alloc);
    let mut at = 0;
    while at < units.len() {
        match item_at(alloc, units, at)? {
            Some((item, size)) => {
                let tile = Tile {
                    at: at as u32,
                    size,
                    item,
                };
                if let Err(failed) = tiles.push(tile) {
                    drop(failed);
                    return Err(AllocError);
                }
                at += size as usize;
            }
            None => return Ok(Tiled::Broken(at as u32)),
        }
    }
    Ok(Tiled::Whole(Seq::of(tiles)))
}

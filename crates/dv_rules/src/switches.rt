// Edges to the targets of switches.
ghost use Rattle.std.specs.Prelude.{◌≡◌, ◌<◌, true, ◌++◌, Some, Ok, IfOk, IsSome, OnOk, length, map};
ghost use Rattle.dv_typing.specs.Flow.{jumps};
ghost use Rattle.dv_defs.specs.Numbers.{jump};
ghost use Rattle.dv_defs.specs.Payloads.{payload_spelling};
ghost use Rattle.dv_defs.specs.Spelling.{AreUnits};
ghost use Rattle.dv_typing.specs.Statics.{At, fetch};
ghost use Rattle.dv_defs.specs.Tiling.{begins_insn, insn_at, payload_at, tiles_in, tiling};
ghost use Rattle.law_flow.specs.Clean.{IsClean};
ghost use Rattle.dv_ops.specs.Meaning.{code_of};
ghost use Rattle.dv_rules.specs.Distances.{distances, is_switch};
ghost use Rattle.dv_rules.specs.Edges.{plain_edge};
ghost use Rattle.dv_defs.specs.Body.{most_units};

use crate::flow::{Edge, push_target};
use dv_defs::{Image, Insn, Payload};
use dv_ops::Coded;
use dv_units::{UnitError, decode, decode_payload};
use std::alloc::{AllocError, Global};

/// Adds an edge to each target of the switch at an address. The instruction is read again: only it says where the payload stands.
pub fn push_cases(
    alloc: Global,
    image: &Image,
    code: &Coded<'_>,
    at: u32,
    edges: &mut Vec<Edge>,
) -> Result<(), AllocError>
    requires clean { IsClean image.now (code_of code.now) }
    requires switch { (x : At) × (fetch image.now code.now.method.id.0 at ≡ Some x) × (is_switch x.op ≡ true) }
    ensures { (x : At) → fetch image.now code.now.method.id.0 at ≡ Some x → OnOk result (edges.new.items ≡ edges.old.items ++ map plain_edge (jumps x.op)) }
{
    let body = code.body;
    let units = body.units.items();
    let insn = insn_at(units, at);
    let payload = payload_at(alloc, units, target(at, insn.off))?;
    push_targets(at, distances(&payload), edges)
}

/// Adds an edge to the address at each of these distances from another.
fn push_targets(at: u32, distances: &[i32], edges: &mut Vec<Edge>) -> Result<(), AllocError>
    requires { at < most_units }
    ensures { OnOk result (edges.new.items ≡ edges.old.items ++ map plain_edge (map (jump at) distances.now)) }
{
    for distance in distances {
        push_target(edges, target(at, *distance))?;
    }
    Ok(())
}

/// How far the targets of a switch are from it.
fn distances(payload: &Payload) -> &[i32]
    ensures { result.now ≡ distances payload.now }
{
    match payload {
        Payload::Packed { targets, .. } => targets.items(),
        Payload::Sparse { targets, .. } => targets.items(),
        Payload::Data { .. } => &[],
    }
}

/// The instruction at an address.
fn insn_at(units: &[u16], at: u32) -> Insn
    requires tiled { tiling units.now ≡ Ok (tiles_in (tiling units.now)) }
    requires begins { begins_insn (tiles_in (tiling units.now)) at ≡ true }
    ensures there { insn_at (tiles_in (tiling units.now)) at ≡ Some result }
    ensures inside { at < length units.now }
{
    units_fit(units);
    match decode(units, at as usize) {
        Ok((insn, _)) => insn,
        Err(_) => unreachable!(),
    }
}

/// The payload at an address.
fn payload_at(alloc: Global, units: &[u16], at: u32) -> Result<Payload, AllocError>
    requires tiled { tiling units.now ≡ Ok (tiles_in (tiling units.now)) }
    requires there { IsSome (payload_at (tiles_in (tiling units.now)) at) }
    ensures value { IfOk result (λ p. payload_at (tiles_in (tiling units.now)) at ≡ Some p) }
    ensures spelled { IfOk result (λ p. IsSome (payload_spelling p)) }
{
    units_fit(units);
    match decode_payload(alloc, units, at as usize) {
        Ok(payload) => Ok(payload),
        Err(error) => match error {
            UnitError::Memory => Err(AllocError),
            _ => unreachable!(),
        },
    }
}

/// The address at a distance from another.
fn target(at: u32, off: i32) -> u32
    requires { at < most_units }
    ensures { result ≡ jump at off }
{
    let to = i64::from(at) + i64::from(off);
    if to < 0 { 65536 } else { to as u32 }
}

/// Each unit has sixteen bits.
fn units_fit(units: &[u16])
    ensures { AreUnits units.now }
{}

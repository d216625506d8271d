// Where branches and switches lead to: S5, S6 and S8.
ghost use Rattle.std.specs.Prelude.{◌≡◌, ◌<◌, ◌||◌, not, Some, map, nat_eq, option_map, take};
ghost use Rattle.dv_defs.specs.Families.{family_at};
ghost use Rattle.dv_defs.specs.Numbers.{jump as jump_of};
ghost use Rattle.dv_typing.specs.Statics.{is_branch as is_branch_of, moves_on as is_moving, is_zero_offset};
ghost use Rattle.dv_defs.specs.Tiling.{payload_at};
ghost use Rattle.dv_ops.specs.Meaning.{has_payload_of};
ghost use Rattle.dv_units.specs.Tables.{standard_family};
ghost use Rattle.dv_static.specs.Jumps.{cases_lead, offsets_lead, payload_stands};
ghost use Rattle.dv_static.specs.Tiles.{tile_of};
ghost use Rattle.dv_defs.specs.Body.{most_units};

use crate::families::family_of;
use crate::starts::Starts;
use dv_defs::{Insn, Payload};
use dv_optable::Family;

/// The opcode of the one branch that may stay where it is.
const GOTO_32: u8 = 0x2a;

/// An address that no instruction has.
const NOWHERE: u32 = 65536;

/// Whether an instruction is no branch to itself but goto/32.
pub fn moves_on(insn: &Insn) -> bool
    ensures { result ≡ is_moving insn.now }
{
    may_stand(insn.op, is_branch_at(insn.op), stays(insn))
}

fn may_stand(op: u8, is_branch: bool, stays: bool) -> bool
    ensures { result ≡ (not is_branch || nat_eq op 0x2a || not stays) }
{
    !is_branch || op == GOTO_32 || !stays
}

fn is_branch_at(op: u8) -> bool
    ensures { result ≡ is_branch_of (family_at op) }
{
    is_branch(family_of(op))
}

fn is_branch(family: Option<Family>) -> bool
    ensures { result ≡ is_branch_of (option_map standard_family family) }
{
    matches!(
        family,
        Some(Family::Goto | Family::If(_) | Family::IfZero(_))
    )
}

fn stays(insn: &Insn) -> bool
    ensures { result ≡ is_zero_offset insn.now.off }
{
    insn.off == 0
}

/// The address that an instruction's offset leads to.
fn target(at: u32, insn: &Insn) -> u32
    requires { at < most_units }
    ensures { result ≡ jump_of at insn.now.off }
{
    jump(at, insn.off)
}

/// The address at an offset from another.
fn jump(at: u32, off: i32) -> u32
    requires { at < most_units }
    ensures { result ≡ jump_of at off }
{
    let to = at as i64 + off as i64;
    if to < 0 { NOWHERE } else { to as u32 }
}

/// Whether a payload of its kind stands at an instruction's target, where it needs one.
pub fn has_payload(starts: &Starts<'_>, at: u32, insn: &Insn) -> bool
    requires { at < most_units }
    ensures { result ≡ payload_stands (map tile_of starts.now) at insn.now }
{
    let payload = starts.payload_at(target(at, insn));
    is_of_family(family_of(insn.op), payload)
}

fn is_of_family(family: Option<Family>, payload: Option<&Payload>) -> bool
    ensures { result ≡ has_payload_of (option_map standard_family family) (option_map (λ p. p.now) payload.entry) }
{
    match family {
        Some(Family::PackedSwitch) => matches!(payload, Some(Payload::Packed { .. })),
        Some(Family::SparseSwitch) => matches!(payload, Some(Payload::Sparse { .. })),
        Some(Family::FillArrayData) => matches!(payload, Some(Payload::Data { .. })),
        _ => true,
    }
}

/// Whether each target of the switch at an address, by its payload, leads to an instruction.
pub fn switch_leads(starts: &Starts<'_>, at: u32, payload: u32) -> bool
    requires { at < most_units }
    ensures { result ≡ cases_lead (map tile_of starts.now) at (payload_at (map tile_of starts.now) payload) }
{
    match starts.payload_at(payload) {
        Some(payload) => payload_leads(starts, at, payload),
        None => true,
    }
}

#[tactic(auto, using(crate::proofs::Cases::packed_cases, crate::proofs::Cases::sparse_cases))]
fn payload_leads(starts: &Starts<'_>, at: u32, payload: &Payload) -> bool
    requires { at < most_units }
    ensures { result ≡ cases_lead (map tile_of starts.now) at (Some payload.now) }
{
    match payload {
        Payload::Packed { targets, .. } => all_begin(starts, at, targets.items()),
        Payload::Sparse { keys, targets } => first_begin(starts, at, targets.items(), keys.len()),
        Payload::Data { .. } => true,
    }
}

/// Whether the first of some targets, so many of them, lead to instructions.
fn first_begin(starts: &Starts<'_>, at: u32, targets: &[i32], count: usize) -> bool
    requires { at < most_units }
    ensures { result ≡ offsets_lead (map tile_of starts.now) at (take count targets.now) }
{
    if count < targets.len() {
        all_begin(starts, at, &targets[..count])
    } else {
        all_begin(starts, at, targets)
    }
}

fn all_begin(starts: &Starts<'_>, at: u32, targets: &[i32]) -> bool
    requires { at < most_units }
    ensures { result ≡ offsets_lead (map tile_of starts.now) at targets.now }
{
    for target in targets {
        if !starts.begins_insn(jump(at, *target)) {
            return false;
        }
    }
    true
}

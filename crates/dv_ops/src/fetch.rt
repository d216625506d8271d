// Operations at the addresses of a body that breaks no static rule.
ghost use Rattle.std.specs.Prelude.{◌≡◌, ◌<◌, ◌≤◌, ◌-◌, true, Some, length};
ghost use Rattle.dv_typing.specs.Statics.{fetch};
ghost use Rattle.dv_defs.specs.Tiling.{IsInsn, begins_insn, tile_at, tiles_in, tiling};
ghost use Rattle.law_flow.specs.Clean.{IsClean};
ghost use Rattle.dv_ops.specs.Meaning.{code_of, meant};
ghost use Rattle.dv_ops.specs.Places.{IsBoundary, IsEdge};
ghost use Rattle.dv_defs.specs.Body.{most_units};

use crate::items::{begins_as_insn, units_of};
use crate::resolving::resolve;
use crate::{Coded, Op};
use dv_defs::{Image, Insn};
use dv_units::decode;

/// The operation that stands at an address, and the address after it.
pub fn op_at<'a>(image: &'a Image, code: &Coded<'a>, at: u32) -> (Op<'a>, u32)
    requires clean { IsClean image.now (code_of code.now) }
    requires begins { begins_insn (code_of code.now).tiles at ≡ true }
    ensures fetched { fetch image.now code.now.method.id.0 at ≡ Some (record { op = meant (code_of code.now) at result.0; next = result.1 }) }
    ensures next { IsBoundary (code_of code.now) result.1 }
    ensures short { result.1 ≤ most_units }
{
    let (insn, next) = insn_at(code, at);
    match resolve(image, code, at, &insn) {
        Ok(op) => (op, next),
        Err(_) => unreachable!(),
    }
}

/// The instruction that stands at an address, and the address after it.
fn insn_at(code: &Coded<'_>, at: u32) -> (Insn, u32)
    requires { begins_insn (code_of code.now).tiles at ≡ true }
    ensures tile { tile_at (code_of code.now).tiles at ≡ Some (record { at = at; size = result.1 - at; item = IsInsn result.0 }) }
    ensures next { IsBoundary (code_of code.now) result.1 }
    ensures after { at < result.1 }
    ensures short { result.1 ≤ most_units }
{
    insn_in(units_of(code), at)
}

/// The same in units.
fn insn_in(units: &[u16], at: u32) -> (Insn, u32)
    requires short { length units.now ≤ most_units }
    requires begins { begins_insn (tiles_in (tiling units.now)) at ≡ true }
    ensures tile { tile_at (tiles_in (tiling units.now)) at ≡ Some (record { at = at; size = result.1 - at; item = IsInsn result.0 }) }
    ensures next { IsEdge units.now result.1 }
    ensures after { at < result.1 }
    ensures short { result.1 ≤ most_units }
{
    match decode(units, at as usize) {
        Ok((insn, size)) => (insn, at + size),
        Err(_) => unreachable!(),
    }
}

/// Whether an instruction begins where the one before ends.
pub fn begins_insn_next(code: &Coded<'_>, at: u32) -> bool
    requires { IsBoundary (code_of code.now) at }
    ensures { result ≡ begins_insn (code_of code.now).tiles at }
{
    begins_next_in(units_of(code), at as usize)
}

/// The same in units.
fn begins_next_in(units: &[u16], at: usize) -> bool
    requires { IsEdge units.now at }
    ensures { result ≡ begins_insn (tiles_in (tiling units.now)) at }
{
    begins_as_insn(units, at)
}

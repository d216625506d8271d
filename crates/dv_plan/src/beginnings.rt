// Where instructions begin.
ghost use Rattle.std.specs.Prelude.{◌≡◌, ◌≤◌, ◌<◌, IfOk, Ok, length};
ghost use Rattle.dv_defs.specs.Body.{most_units};
ghost use Rattle.dv_defs.specs.Tiling.{begins_insn, tiling};
ghost use Rattle.dv_ops.specs.Meaning.{code_of};
ghost use Rattle.dv_ops.proofs.Passing.{IsWalk};
ghost use Rattle.dv_plan.specs.Beginnings.{Begin, behind_item, passed_to};

use dv_ops::{Coded, begins_insn_next, item_units, units_of};
use std::alloc::{AllocError, Global};

/// Whether an instruction begins at each address of a body.
pub fn beginnings(alloc: Global, code: &Coded<'_>) -> Result<Vec<bool>, AllocError>
    requires tiled { tiling code.now.body.now.units ≡ Ok (code_of code.now).tiles }
    ensures count { IfOk result (λ v. length v.items ≡ length code.now.body.now.units) }
    ensures begin { IfOk result (λ v. Begin (code_of code.now).tiles v.items (length v.items)) }
{
    let units = units_of(code);
    let mut begins = Vec::with_capacity(alloc, units.len())?;
    let mut here = 0;
    for at in 0..units.len() {
        begins.push(begins_at(code, units, here, at))?;
        here = passed(units, here, at);
    }
    Ok(begins)
}

/// Whether an instruction begins at an address, where a walk over the items has come to or past it.
fn begins_at(code: &Coded<'_>, units: &[u16], here: usize, at: usize) -> bool
    requires units { units.now ≡ code.now.body.now.units }
    requires short { length units.now ≤ most_units }
    requires come { at ≤ here }
    requires inside { at < length units.now }
    requires walk { IsWalk units.now (code_of code.now).tiles here at }
    ensures { result ≡ begins_insn (code_of code.now).tiles at }
{
    at == here && begins_insn_next(code, at as u32)
}

/// Where the walk is when an address is passed: behind the item there, where one begins.
fn passed(units: &[u16], here: usize, at: usize) -> usize
    requires short { length units.now ≤ most_units }
    requires inside { here ≤ length units.now }
    ensures next { result ≡ passed_to units.now here at }
    ensures inside { result ≤ length units.now }
{
    if at == here {
        behind(units, here)
    } else {
        here
    }
}

/// The address behind the item at an address; where none begins, that behind all units.
fn behind(units: &[u16], here: usize) -> usize
    requires short { length units.now ≤ most_units }
    requires inside { here ≤ length units.now }
    ensures next { result ≡ behind_item units.now here }
    ensures inside { result ≤ length units.now }
{
    match item_units(units, here) {
        Some(size) => here + size,
        None => units.len(),
    }
}

// The items of a body from its start on.
ghost use Rattle.std.specs.Prelude.{◌≡◌, ◌≤◌, Ok, length};
ghost use Rattle.dv_defs.specs.Tiling.{begins_insn, tiling, tiles_in};
ghost use Rattle.dv_ops.specs.Meaning.{code_of};
ghost use Rattle.dv_defs.specs.Body.{most_units};

use crate::Coded;
use crate::items::{begins_as_insn, item_units, units_of};

/// Whether an instruction begins at an address: the items before it are gone through. Takes no memory.
pub fn begins_insn_at(code: &Coded<'_>, at: u32) -> bool
    requires tiled { tiling code.now.body.now.units ≡ Ok (code_of code.now).tiles }
    ensures { result ≡ begins_insn (code_of code.now).tiles at }
{
    begins_insn_in(units_of(code), at as usize)
}

fn begins_insn_in(units: &[u16], at: usize) -> bool
    requires short { length units.now ≤ most_units }
    requires tiled { tiling units.now ≡ Ok (tiles_in (tiling units.now)) }
    ensures { result ≡ begins_insn (tiles_in (tiling units.now)) at }
{
    let mut here = 0;
    while here < at {
        match item_units(units, here) {
            Some(size) => here += size,
            None => return false,
        }
    }
    here == at && begins_as_insn(units, at)
}

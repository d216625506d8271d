// Payloads of a body.
ghost use Rattle.std.specs.Prelude.{◌≡◌, ◌≤◌, true, length};
ghost use Rattle.dv_defs.specs.Tiling.{payload_at, tiles_in, tiling};
ghost use Rattle.dv_ops.specs.Meaning.{code_of, is_data, width_in};
ghost use Rattle.dv_defs.specs.Body.{most_units};

use dv_ops::{Coded, units_of};

/// The size of the elements that the payload of data at an address fills.
pub fn width_at(code: &Coded<'_>, at: u32) -> u16
    requires { is_data (payload_at (code_of code.now).tiles at) ≡ true }
    ensures { result ≡ width_in (payload_at (code_of code.now).tiles at) }
{
    second_unit(units_of(code), at as usize)
}

/// The same in units: the size stands behind the unit that marks the payload.
fn second_unit(units: &[u16], at: usize) -> u16
    requires short { length units.now ≤ most_units }
    requires there { is_data (payload_at (tiles_in (tiling units.now)) at) ≡ true }
    ensures { result ≡ width_in (payload_at (tiles_in (tiling units.now)) at) }
{
    units[at + 1]
}

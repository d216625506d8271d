// Reading an instruction by its format.
ghost use Rattle.std.specs.Prelude.{◌<◌, ◌≤◌, length, take};
ghost use Rattle.dv_defs.specs.Formats.{size_in};
ghost use Rattle.dv_defs.specs.Spelling.{spelling_in};
ghost use Rattle.dv_units.specs.Tables.{standard};
ghost use Rattle.dv_units.specs.Reading.{IsReading};

mod indexes;
mod literals;
mod offsets;
mod registers;

use crate::fields::bytes;
use dv_defs::Insn;
use dv_optable::Format;
use indexes::{read_3rc, read_21c, read_22c, read_31c, read_35c};
use literals::{read_11n, read_21h, read_21s, read_22b, read_22s, read_31i, read_51l};
use offsets::{read_10t, read_20t, read_21t, read_22t, read_30t, read_31t};
use registers::{read_10x, read_11x, read_12x, read_22x, read_23x, read_32x};

/// The instruction of a format that stands at the start of `units`.
pub fn read(format: Format, units: &[u16]) -> Option<Insn>
    requires some { 0 < length units.now }
    requires whole { size_in (standard format) ≤ length units.now }
    ensures { IsReading (spelling_in (standard format)) (take (size_in (standard format)) units.now) result }
{
    let (high, op) = bytes(units[0]);
    match format {
        Format::F10x => read_10x(op, high),
        Format::F12x => Some(read_12x(op, high)),
        Format::F11n => Some(read_11n(op, high)),
        Format::F11x => Some(read_11x(op, high)),
        Format::F10t => Some(read_10t(op, high)),
        Format::F20t => read_20t(op, high, units[1]),
        Format::F22x => Some(read_22x(op, high, units[1])),
        Format::F21t => Some(read_21t(op, high, units[1])),
        Format::F21s => Some(read_21s(op, high, units[1])),
        Format::F21h => Some(read_21h(op, high, units[1])),
        Format::F21c => Some(read_21c(op, high, units[1])),
        Format::F23x => Some(read_23x(op, high, units[1])),
        Format::F22b => Some(read_22b(op, high, units[1])),
        Format::F22t => Some(read_22t(op, high, units[1])),
        Format::F22s => Some(read_22s(op, high, units[1])),
        Format::F22c => Some(read_22c(op, high, units[1])),
        Format::F30t => read_30t(op, high, (units[1], units[2])),
        Format::F32x => read_32x(op, high, units[1], units[2]),
        Format::F31i => Some(read_31i(op, high, (units[1], units[2]))),
        Format::F31t => Some(read_31t(op, high, (units[1], units[2]))),
        Format::F31c => Some(read_31c(op, high, (units[1], units[2]))),
        Format::F35c => read_35c(op, high, units[1], units[2]),
        Format::F3rc => read_3rc(op, high, units[1], units[2]),
        Format::F51l => Some(read_51l(op, high, units[1], units[2], units[3], units[4])),
    }
}

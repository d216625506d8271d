// Writing an instruction by its format.
ghost use Rattle.std.specs.Prelude.{◌≡◌};
ghost use Rattle.dv_defs.specs.Spelling.{spelling_in};
ghost use Rattle.dv_units.specs.Tables.{standard};

mod indexes;
mod literals;
mod offsets;
mod registers;

use crate::spelled::Spelled;
use dv_defs::Insn;
use dv_optable::Format;
use indexes::{write_3rc, write_21c, write_22c, write_31c, write_35c};
use literals::{write_11n, write_21h, write_21s, write_22b, write_22s, write_31i, write_51l};
use offsets::{write_10t, write_20t, write_21t, write_22t, write_30t, write_31t};
use registers::{write_10x, write_11x, write_12x, write_22x, write_23x, write_32x};

/// The units of an instruction of a format.
pub fn write(format: Format, insn: &Insn) -> Option<Spelled>
    ensures { result ≡ spelling_in (standard format) insn.now }
{
    match format {
        Format::F10x => write_10x(insn),
        Format::F12x => write_12x(insn),
        Format::F11n => write_11n(insn),
        Format::F11x => write_11x(insn),
        Format::F10t => write_10t(insn),
        Format::F20t => write_20t(insn),
        Format::F22x => write_22x(insn),
        Format::F21t => write_21t(insn),
        Format::F21s => write_21s(insn),
        Format::F21h => write_21h(insn),
        Format::F21c => write_21c(insn),
        Format::F23x => write_23x(insn),
        Format::F22b => write_22b(insn),
        Format::F22t => write_22t(insn),
        Format::F22s => write_22s(insn),
        Format::F22c => write_22c(insn),
        Format::F30t => write_30t(insn),
        Format::F32x => write_32x(insn),
        Format::F31i => write_31i(insn),
        Format::F31t => write_31t(insn),
        Format::F31c => write_31c(insn),
        Format::F35c => write_35c(insn),
        Format::F3rc => write_3rc(insn),
        Format::F51l => write_51l(insn),
    }
}

// Branches and switches, as their formats spell them: in `BAop` and the like the letters of a unit are nibbles, the highest first.
ghost use Rattle.std.specs.Prelude.{◌≡◌, ◌%◌, ◌^◌, ◌<◌, Some};
ghost use Rattle.dv_defs.specs.Families as family;
ghost use Rattle.dv_defs.specs.Families.{family_at};
ghost use Rattle.dv_defs.specs.Formats.{F10t, F20t, F21t, F22t, F30t, F31t, format_at};
ghost use Rattle.dv_frames.specs.Heads.{frame};
ghost use Rattle.dv_local.specs.Spelled.{Did};
ghost use Rattle.dv_units.specs.Tables.{standard_test};

use crate::arithmetic::int_in;
use crate::branching::{goto, if_both, if_zero, packed_target, sparse_target};
use crate::here::Here;
use crate::numbers::{jump, signed_byte, signed_double, signed_unit};
use dv_frames::Head;
use dv_optable::Test;

/// `AAop`: goto +AA.
#[inline(always)]
pub fn goto_10t(opcode: u8, here: &Here<'_>, words: &mut [u32], head: &mut Head)
    requires opcode { here.now.first % 256 ≡ opcode }
    requires format { format_at opcode ≡ Some F10t }
    requires family { family_at opcode ≡ Some family.Goto }
    requires short { here.now.at < 2 ^ 16 }
    ensures { Did here.now (frame head.old words.old) (frame head.new words.new) }
{
    goto(jump(here.at, signed_byte(here.high())), words, head);
}

/// `00op AAAA`: goto/16 +AAAA.
#[inline(always)]
pub fn goto_20t(opcode: u8, here: &Here<'_>, words: &mut [u32], head: &mut Head)
    requires opcode { here.now.first % 256 ≡ opcode }
    requires format { format_at opcode ≡ Some F20t }
    requires family { family_at opcode ≡ Some family.Goto }
    requires short { here.now.at < 2 ^ 16 }
    ensures { Did here.now (frame head.old words.old) (frame head.new words.new) }
{
    goto(jump(here.at, signed_unit(here.unit(0))), words, head);
}

/// `00op low high`: goto/32 +AAAAAAAA.
#[inline(always)]
pub fn goto_30t(opcode: u8, here: &Here<'_>, words: &mut [u32], head: &mut Head)
    requires opcode { here.now.first % 256 ≡ opcode }
    requires format { format_at opcode ≡ Some F30t }
    requires family { family_at opcode ≡ Some family.Goto }
    requires short { here.now.at < 2 ^ 16 }
    ensures { Did here.now (frame head.old words.old) (frame head.new words.new) }
{
    goto(jump(here.at, signed_double(here.double(0))), words, head);
}

/// `BAop CCCC`: if-test vA, vB, +CCCC.
#[inline(always)]
pub fn if_22t(opcode: u8, test: Test, here: &Here<'_>, words: &mut [u32], head: &mut Head)
    requires opcode { here.now.first % 256 ≡ opcode }
    requires format { format_at opcode ≡ Some F22t }
    requires family { family_at opcode ≡ Some (family.If (standard_test test)) }
    requires short { here.now.at < 2 ^ 16 }
    ensures { Did here.now (frame head.old words.old) (frame head.new words.new) }
{
    let to = jump(here.at, signed_unit(here.unit(0)));
    let (a, b) = (here.low_nibble(), here.high_nibble());
    if_both(test, a, b, to, here.after(2), words, head);
}

/// `AAop BBBB`: if-testz vAA, +BBBB.
#[inline(always)]
pub fn if_21t(opcode: u8, test: Test, here: &Here<'_>, words: &mut [u32], head: &mut Head)
    requires opcode { here.now.first % 256 ≡ opcode }
    requires format { format_at opcode ≡ Some F21t }
    requires family { family_at opcode ≡ Some (family.IfZero (standard_test test)) }
    requires short { here.now.at < 2 ^ 16 }
    ensures { Did here.now (frame head.old words.old) (frame head.new words.new) }
{
    let to = jump(here.at, signed_unit(here.unit(0)));
    if_zero(test, here.high(), to, here.after(2), words, head);
}

/// `AAop low high`: packed-switch vAA, +BBBBBBBB.
#[inline(always)]
pub fn packed_31t(opcode: u8, here: &Here<'_>, words: &mut [u32], head: &mut Head)
    requires opcode { here.now.first % 256 ≡ opcode }
    requires format { format_at opcode ≡ Some F31t }
    requires family { family_at opcode ≡ Some family.PackedSwitch }
    requires short { here.now.at < 2 ^ 16 }
    ensures { Did here.now (frame head.old words.old) (frame head.new words.new) }
{
    let place = jump(here.at, signed_double(here.double(0))) as usize;
    let value = int_in(words, here.high());
    let to = packed_target(here.units, here.at, place, value, here.after(3));
    goto(to, words, head);
}

/// `AAop low high`: sparse-switch vAA, +BBBBBBBB.
#[inline(always)]
pub fn sparse_31t(opcode: u8, here: &Here<'_>, words: &mut [u32], head: &mut Head)
    requires opcode { here.now.first % 256 ≡ opcode }
    requires format { format_at opcode ≡ Some F31t }
    requires family { family_at opcode ≡ Some family.SparseSwitch }
    requires short { here.now.at < 2 ^ 16 }
    ensures { Did here.now (frame head.old words.old) (frame head.new words.new) }
{
    let place = jump(here.at, signed_double(here.double(0))) as usize;
    let value = int_in(words, here.high());
    let to = sparse_target(here.units, here.at, place, value, here.after(3));
    goto(to, words, head);
}

// Moves and constants, as their formats spell them: in `BAop` and the like the letters of a unit are nibbles, the highest first.
ghost use Rattle.std.specs.Prelude.{◌≡◌, ◌%◌, ◌^◌, ◌<◌, Some};
ghost use Rattle.dv_defs.specs.Families as family;
ghost use Rattle.dv_defs.specs.Families.{family_at};
ghost use Rattle.dv_defs.specs.Formats.{F10x, F11n, F11x, F12x, F21h, F21s, F22x, F31i, F32x, F51l, format_at};
ghost use Rattle.dv_frames.specs.Heads.{frame};
ghost use Rattle.dv_local.specs.Spelled.{Did};
ghost use Rattle.dv_units.specs.Tables.{standard_width};

use crate::here::Here;
use crate::moving::{move_register, nop, set_int, set_long, take_caught, take_result};
use crate::numbers::{signed_double, signed_nibble, signed_quad, signed_unit};
use dv_frames::Head;
use dv_optable::Width;

/// `00op`: nop.
#[inline(always)]
pub fn nop_10x(opcode: u8, here: &Here<'_>, words: &mut [u32], head: &mut Head)
    requires opcode { here.now.first % 256 ≡ opcode }
    requires format { format_at opcode ≡ Some F10x }
    requires family { family_at opcode ≡ Some family.Nop }
    requires short { here.now.at < 2 ^ 16 }
    ensures { Did here.now (frame head.old words.old) (frame head.new words.new) }
{
    nop(here.after(1), words, head);
}

/// `BAop`: move vA, vB.
#[inline(always)]
pub fn move_12x(opcode: u8, width: Width, here: &Here<'_>, words: &mut [u32], head: &mut Head)
    requires opcode { here.now.first % 256 ≡ opcode }
    requires format { format_at opcode ≡ Some F12x }
    requires family { family_at opcode ≡ Some (family.Move (standard_width width)) }
    requires short { here.now.at < 2 ^ 16 }
    ensures { Did here.now (frame head.old words.old) (frame head.new words.new) }
{
    let (a, b) = (here.low_nibble(), here.high_nibble());
    move_register(width, a, b, here.after(1), words, head);
}

/// `AAop BBBB`: move/from16 vAA, vBBBB.
#[inline(always)]
pub fn move_22x(opcode: u8, width: Width, here: &Here<'_>, words: &mut [u32], head: &mut Head)
    requires opcode { here.now.first % 256 ≡ opcode }
    requires format { format_at opcode ≡ Some F22x }
    requires family { family_at opcode ≡ Some (family.Move (standard_width width)) }
    requires short { here.now.at < 2 ^ 16 }
    ensures { Did here.now (frame head.old words.old) (frame head.new words.new) }
{
    move_register(width, here.high(), here.unit(0), here.after(2), words, head);
}

/// `00op AAAA BBBB`: move/16 vAAAA, vBBBB.
#[inline(always)]
pub fn move_32x(opcode: u8, width: Width, here: &Here<'_>, words: &mut [u32], head: &mut Head)
    requires opcode { here.now.first % 256 ≡ opcode }
    requires format { format_at opcode ≡ Some F32x }
    requires family { family_at opcode ≡ Some (family.Move (standard_width width)) }
    requires short { here.now.at < 2 ^ 16 }
    ensures { Did here.now (frame head.old words.old) (frame head.new words.new) }
{
    move_register(
        width,
        here.unit(0),
        here.unit(1),
        here.after(3),
        words,
        head,
    );
}

/// `AAop`: move-result vAA.
#[inline(always)]
pub fn result_11x(opcode: u8, width: Width, here: &Here<'_>, words: &mut [u32], head: &mut Head)
    requires opcode { here.now.first % 256 ≡ opcode }
    requires format { format_at opcode ≡ Some F11x }
    requires family { family_at opcode ≡ Some (family.MoveResult (standard_width width)) }
    requires short { here.now.at < 2 ^ 16 }
    ensures { Did here.now (frame head.old words.old) (frame head.new words.new) }
{
    take_result(width, here.high(), here.after(1), words, head);
}

/// `AAop`: move-exception vAA.
#[inline(always)]
pub fn caught_11x(opcode: u8, here: &Here<'_>, words: &mut [u32], head: &mut Head)
    requires opcode { here.now.first % 256 ≡ opcode }
    requires format { format_at opcode ≡ Some F11x }
    requires family { family_at opcode ≡ Some family.MoveException }
    requires short { here.now.at < 2 ^ 16 }
    ensures { Did here.now (frame head.old words.old) (frame head.new words.new) }
{
    take_caught(here.high(), here.after(1), words, head);
}

/// `BAop`: const/4 vA, #B.
#[inline(always)]
pub fn const_11n(opcode: u8, here: &Here<'_>, words: &mut [u32], head: &mut Head)
    requires opcode { here.now.first % 256 ≡ opcode }
    requires format { format_at opcode ≡ Some F11n }
    requires family { family_at opcode ≡ Some family.Const }
    requires short { here.now.at < 2 ^ 16 }
    ensures { Did here.now (frame head.old words.old) (frame head.new words.new) }
{
    let int = signed_nibble(here.high_nibble());
    set_int(here.low_nibble(), int, here.after(1), words, head);
}

/// `AAop BBBB`: const/16 vAA, #BBBB.
#[inline(always)]
pub fn const_21s(opcode: u8, here: &Here<'_>, words: &mut [u32], head: &mut Head)
    requires opcode { here.now.first % 256 ≡ opcode }
    requires format { format_at opcode ≡ Some F21s }
    requires family { family_at opcode ≡ Some family.Const }
    requires short { here.now.at < 2 ^ 16 }
    ensures { Did here.now (frame head.old words.old) (frame head.new words.new) }
{
    let int = signed_unit(here.unit(0));
    set_int(here.high(), int, here.after(2), words, head);
}

/// `AAop low high`: const vAA, #BBBBBBBB.
#[inline(always)]
pub fn const_31i(opcode: u8, here: &Here<'_>, words: &mut [u32], head: &mut Head)
    requires opcode { here.now.first % 256 ≡ opcode }
    requires format { format_at opcode ≡ Some F31i }
    requires family { family_at opcode ≡ Some family.Const }
    requires short { here.now.at < 2 ^ 16 }
    ensures { Did here.now (frame head.old words.old) (frame head.new words.new) }
{
    let int = signed_double(here.double(0));
    set_int(here.high(), int, here.after(3), words, head);
}

/// `AAop BBBB`: const/high16 vAA, #BBBB0000.
#[inline(always)]
pub fn const_21h(opcode: u8, here: &Here<'_>, words: &mut [u32], head: &mut Head)
    requires opcode { here.now.first % 256 ≡ opcode }
    requires format { format_at opcode ≡ Some F21h }
    requires family { family_at opcode ≡ Some family.Const }
    requires high { opcode ≡ 0x15 }
    requires short { here.now.at < 2 ^ 16 }
    ensures { Did here.now (frame head.old words.old) (frame head.new words.new) }
{
    let int = signed_double(u32::from(here.unit(0)) * 0x1_0000);
    set_int(here.high(), int, here.after(2), words, head);
}

/// `AAop BBBB`: const-wide/16 vAA, #BBBB.
#[inline(always)]
pub fn wide_21s(opcode: u8, here: &Here<'_>, words: &mut [u32], head: &mut Head)
    requires opcode { here.now.first % 256 ≡ opcode }
    requires format { format_at opcode ≡ Some F21s }
    requires family { family_at opcode ≡ Some family.ConstWide }
    requires short { here.now.at < 2 ^ 16 }
    ensures { Did here.now (frame head.old words.old) (frame head.new words.new) }
{
    let long = i64::from(signed_unit(here.unit(0)));
    set_long(here.high(), long, here.after(2), words, head);
}

/// `AAop low high`: const-wide/32 vAA, #BBBBBBBB.
#[inline(always)]
pub fn wide_31i(opcode: u8, here: &Here<'_>, words: &mut [u32], head: &mut Head)
    requires opcode { here.now.first % 256 ≡ opcode }
    requires format { format_at opcode ≡ Some F31i }
    requires family { family_at opcode ≡ Some family.ConstWide }
    requires short { here.now.at < 2 ^ 16 }
    ensures { Did here.now (frame head.old words.old) (frame head.new words.new) }
{
    let long = i64::from(signed_double(here.double(0)));
    set_long(here.high(), long, here.after(3), words, head);
}

/// `AAop` and four units, the lowest first: const-wide vAA, #BBBBBBBBBBBBBBBB.
#[inline(always)]
pub fn wide_51l(opcode: u8, here: &Here<'_>, words: &mut [u32], head: &mut Head)
    requires opcode { here.now.first % 256 ≡ opcode }
    requires format { format_at opcode ≡ Some F51l }
    requires family { family_at opcode ≡ Some family.ConstWide }
    requires short { here.now.at < 2 ^ 16 }
    ensures { Did here.now (frame head.old words.old) (frame head.new words.new) }
{
    let quad = u64::from(here.double(2)) * 0x1_0000_0000 + u64::from(here.double(0));
    set_long(here.high(), signed_quad(quad), here.after(5), words, head);
}

/// `AAop BBBB`: const-wide/high16 vAA, #BBBB000000000000.
#[inline(always)]
pub fn wide_21h(opcode: u8, here: &Here<'_>, words: &mut [u32], head: &mut Head)
    requires opcode { here.now.first % 256 ≡ opcode }
    requires format { format_at opcode ≡ Some F21h }
    requires family { family_at opcode ≡ Some family.ConstWide }
    requires high { opcode ≡ 0x19 }
    requires short { here.now.at < 2 ^ 16 }
    ensures { Did here.now (frame head.old words.old) (frame head.new words.new) }
{
    let long = signed_quad(u64::from(here.unit(0)) * 0x1_0000_0000_0000);
    set_long(here.high(), long, here.after(2), words, head);
}

// The loop over a method's units.
ghost use Rattle.std.specs.Prelude.{◌≡◌, ◌≤◌, length};
ghost use Rattle.dv_frames.specs.Heads.{frame};
ghost use Rattle.dv_local.specs.Local.{is_local_opcode};
ghost use Rattle.dv_local.specs.Units.{RanUnits, StepsUnits, SteppedUnits};
ghost use Rattle.dv_defs.specs.Body.{most_units};

use crate::dispatch::step_here;
use crate::here::Here;
use dv_frames::Head;

/// Whether the instructions of an opcode are local.
#[inline(always)]
pub fn is_local_opcode(opcode: u8) -> bool
    ensures { result ≡ is_local_opcode opcode }
{
    matches!(
        opcode,
        0x00..=0x0d
            | 0x12..=0x19
            | 0x28..=0x2c
            | 0x31..=0x3d
            | 0x7b..=0x7e
            | 0x81
            | 0x84
            | 0x8d..=0x92
            | 0x95..=0x9d
            | 0xa0..=0xa5
            | 0xb0..=0xb2
            | 0xb5..=0xbd
            | 0xc0..=0xc5
            | 0xd0..=0xd2
            | 0xd5..=0xda
            | 0xdd..=0xe2
    )
}

/// Does the instruction at the head's address, where it is a local one; else nothing changes.
#[inline(always)]
fn step(units: &[u16], words: &mut [u32], head: &mut Head) -> bool
    requires { length units.now ≤ most_units }
    ensures { SteppedUnits units.now result (frame head.old words.old) (frame head.new words.new) }
{
    let place = head.at as usize;
    if place >= units.len() {
        return false;
    }
    let here = Here {
        units,
        at: head.at,
        first: units[place],
    };
    step_here(&here, words, head)
}

/// Does the instruction at the head's address in each image with these units, where it is a local one; else nothing changes.
pub fn step_once(units: &[u16], words: &mut [u32], head: &mut Head) -> bool
    requires { length units.now ≤ most_units }
    ensures { StepsUnits units.now result (frame head.old words.old) (frame head.new words.new) }
{
    step(units, words, head)
}

/// Does local instructions one after another, so many at most, up to the first that isn't one; gives how many were done.
#[inline(always)]
fn steps(units: &[u16], words: &mut [u32], head: &mut Head, most: u32) -> u32
    requires { length units.now ≤ most_units }
    ensures { RanUnits units.now most result (frame head.old words.old) (frame head.new words.new) }
{
    for done in 0..most {
        if !step(units, words, head) {
            return done;
        }
    }
    most
}

/// The same; while it runs, the head is a copy of its own.
pub fn run(units: &[u16], words: &mut [u32], head: &mut Head, most: u32) -> u32
    requires { length units.now ≤ most_units }
    ensures { RanUnits units.now most result (frame head.old words.old) (frame head.new words.new) }
{
    let mut now = *head;
    let done = steps(units, words, &mut now, most);
    *head = now;
    done
}

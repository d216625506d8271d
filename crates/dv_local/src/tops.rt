// Local steps of the frame on top of a stack.
ghost use Rattle.std.specs.Prelude.{◌≡◌, ◌≤◌, drop, length, take};
ghost use Rattle.dv_frames.specs.Heads.{frame};
ghost use Rattle.dv_local.specs.Tops.{RanTop, StepsTop};
ghost use Rattle.dv_local.specs.Units.{RanUnits, StepsUnits};
ghost use Rattle.dv_defs.specs.Body.{most_units};

use crate::frames::units_of;
use crate::step::{run, step_once};
use dv_defs::Image;
use dv_frames::{Head, Stack, base_of, set_last};

/// A step of the frame whose words are those from a place of the arena on.
fn step_in(units: &[u16], words: &mut [u32], base: usize, head: &mut Head) -> bool
    requires short { length units.now ≤ most_units }
    requires within { base ≤ length words.old }
    ensures below { take base words.new ≡ take base words.old }
    ensures steps { StepsUnits units.now result (frame head.old (drop base words.old)) (frame head.new (drop base words.new)) }
{
    step_once(units, &mut words[base..], head)
}

/// Steps of the frame whose words are those from a place of the arena on.
fn run_in(units: &[u16], words: &mut [u32], base: usize, head: &mut Head, most: u32) -> u32
    requires short { length units.now ≤ most_units }
    requires within { base ≤ length words.old }
    ensures below { take base words.new ≡ take base words.old }
    ensures ran { RanUnits units.now most result (frame head.old (drop base words.old)) (frame head.new (drop base words.new)) }
{
    run(units, &mut words[base..], head, most)
}

/// Does the instruction at the address of the frame on top, where it is a local one; else nothing changes. Nothing is done where
/// the level on top isn't code.
pub fn step_top(image: &Image, stack: &mut Stack) -> bool
    ensures { StepsTop image.now result stack.old stack.new }
{
    let Some(mut head) = stack.head() else {
        return false;
    };
    let Some(units) = units_of(image, head.method) else {
        return false;
    };
    let base = base_of(stack.levels.as_slice(), stack.words.len());
    let done = step_in(units, &mut stack.words, base, &mut head);
    set_last(&mut stack.levels, head);
    done
}

/// Does local instructions of the frame on top one after another, so many at most, up to the first that isn't one; gives how many
/// were done. None is where the level on top isn't code.
pub fn steps_top(image: &Image, stack: &mut Stack, most: u32) -> u32
    ensures { RanTop image.now most result stack.old stack.new }
{
    let Some(mut head) = stack.head() else {
        return 0;
    };
    let Some(units) = units_of(image, head.method) else {
        return 0;
    };
    let base = base_of(stack.levels.as_slice(), stack.words.len());
    let done = run_in(units, &mut stack.words, base, &mut head, most);
    set_last(&mut stack.levels, head);
    done
}

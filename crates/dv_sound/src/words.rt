// The words of an engine are `u32`s: what the erasure of a state takes. The calls change nothing.
ghost use Rattle.std.specs.Prelude.{All};
ghost use Rattle.dv_words.specs.Standing.{AllFit, MachineFits, ResultFits};
ghost use Rattle.dv_core.specs.Machines.{machine_of};
ghost use Rattle.dv_sound.specs.Words.{HeadFits, StackFits};

use dv_core::Vm;
use dv_frames::{Level, Stack};
use dv_words::Kept;

/// A kept result.
fn result_fits(kept: Kept)
    ensures { ResultFits kept }
{
    match kept {
        Kept::None => {}
        Kept::One(_word) => {}
        Kept::Two(_low, _high) => {}
    }
}

/// The result that is kept in a level.
fn level_fits(level: Level)
    ensures { HeadFits level }
{
    if let Level::Code { head, .. } = level {
        result_fits(head.result);
    }
}

/// The same of all levels.
fn levels_fit(levels: &[Level])
    ensures { All HeadFits levels.now }
{
    for level in levels {
        level_fits(*level);
    }
}

/// Registers.
fn words_fit(words: &[u32])
    ensures { AllFit words.now }
{
    let _ = words.len();
}

/// All levels of a stack.
fn stack_fits(stack: &Stack)
    ensures { StackFits stack.now }
{
    words_fit(stack.words.as_slice());
    levels_fit(stack.levels.as_slice());
}

/// The same of all stacks.
fn stacks_fit(stacks: &[Stack])
    ensures { All StackFits stacks.now }
{
    for stack in stacks {
        stack_fits(stack);
    }
}

/// All words of an engine.
pub fn machine_fits(vm: &Vm)
    ensures { MachineFits (machine_of vm.now) }
{
    vm.reads_fit(0);
    stacks_fit(&vm.guest.threads.stacks);
}

// The argument words of a native, and its result.
ghost use Rattle.std.specs.Prelude.{◌≡◌, ◌<◌, length, slice_index};
ghost use Rattle.dv_defs.specs.Op.{named_registers};
ghost use Rattle.dv_words.specs.Stacks.{arg_words, changed, given, gone};
ghost use Rattle.dv_words.specs.declared.state.Kept.TheVariants as kept;
ghost use Rattle.dv_words.specs.Natives.{arg};

use dv_defs::Regs;
use dv_frames::Stack;
use dv_words::Kept;

/// How many registers an instruction names.
fn count(regs: &Regs) -> u32
    ensures count { result ≡ length (named_registers regs.now) }
    ensures few { result < 256 }
{
    let count = u32::from(regs.count);
    if regs.range { count } else { count.min(5) }
}

/// A register that an instruction names.
fn register(regs: &Regs, place: u32) -> u32
    requires { place < length (named_registers regs.now) }
    ensures { result ≡ slice_index (named_registers regs.now) place }
{
    if regs.range {
        u32::from(regs.first[0]) + place
    } else {
        u32::from(regs.first[place as usize])
    }
}

/// An argument word by its place, 0 where there is none.
pub fn argument(stack: &Stack, regs: &Regs, place: u32) -> u32
    ensures { result ≡ arg (arg_words stack.now regs.now) place }
{
    if place < count(regs) {
        stack.word(register(regs, place))
    } else {
        0
    }
}

/// Keeps a word as a result, and goes on at an address.
pub fn give(stack: &mut Stack, next: u32, word: u32)
    ensures { stack.new ≡ changed (λ f. given (gone f next) (kept.One word)) stack.old }
{
    stack.go(next);
    stack.give(Kept::One(word));
}

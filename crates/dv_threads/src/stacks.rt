// The frame on top of a thread's stack.
ghost use Rattle.std.specs.Prelude.{◌≡◌};
ghost use Rattle.dv_words.specs.Stacks.{given, gone};
ghost use Rattle.dv_words.specs.declared.state.Kept.TheVariants as kept;
ghost use Rattle.dv_threads.specs.Stacks.{changed_at};

use dv_frames::Stack;
use dv_words::Kept;

/// It goes on at an address.
pub fn go_on(stacks: &mut [Stack], thread: u32, next: u32)
    ensures { stacks.new ≡ changed_at stacks.old thread (λ f. gone f next) }
{
    let thread = thread as usize;
    if thread < stacks.len() {
        stacks[thread].go(next);
    }
}

/// It goes on at an address, with a word as a result that is kept.
pub fn give(stacks: &mut [Stack], thread: u32, next: u32, word: u32)
    ensures { stacks.new ≡ changed_at stacks.old thread (λ f. given (gone f next) (kept.One word)) }
{
    let thread = thread as usize;
    if thread < stacks.len() {
        let stack = &mut stacks[thread];
        stack.go(next);
        stack.give(Kept::One(word));
    }
}

// The registers of the frame on top.
ghost use Rattle.std.specs.Prelude.{◌≡◌, suc};
ghost use Rattle.dv_words.specs.Stacks.{changed, given, gone};
ghost use Rattle.dv_words.specs.declared.state.Kept.TheVariants as kept;
ghost use Rattle.dv_words.specs.Local as steps;
ghost use Rattle.dv_mem.specs.Tops.{top_frame};

use dv_frames::Stack;
use dv_words::Kept;

/// The word of a register by its number, 0 where there is none.
#[tactic(auto, using(crate::proofs::Tops::top_registers))]
pub fn word_at(stack: &Stack, reg: u32) -> u32
    ensures { result ≡ steps.reg_word (top_frame stack.now) reg }
{
    stack.word(reg)
}

/// The word of a register, 0 where there is none.
pub fn word(stack: &Stack, reg: u16) -> u32
    ensures { result ≡ steps.reg_word (top_frame stack.now) reg }
{
    word_at(stack, u32::from(reg))
}

/// The int in a register.
pub fn int(stack: &Stack, reg: u16) -> i32
    ensures { result ≡ steps.int_at (top_frame stack.now) reg }
{
    word(stack, reg).cast_signed()
}

/// The word of the register after one, 0 where there is none.
pub fn next_word(stack: &Stack, reg: u16) -> u32
    ensures { result ≡ steps.reg_word (top_frame stack.now) (suc reg) }
{
    word_at(stack, u32::from(reg) + 1)
}

/// The long in a register and the one after it.
pub fn long(stack: &Stack, reg: u16) -> i64
    ensures { result ≡ steps.long_at (top_frame stack.now) reg }
{
    let low = u64::from(word(stack, reg));
    let high = u64::from(next_word(stack, reg));
    (low + high * 0x1_0000_0000).cast_signed()
}

/// Goes on at an address.
pub fn go_on(stack: &mut Stack, next: u32)
    ensures { stack.new ≡ changed (λ f. gone (top_frame stack.old) next) stack.old }
{
    stack.go(next);
}

/// Writes a register, and goes on at an address.
pub fn put(stack: &mut Stack, next: u32, reg: u16, word: u32)
    ensures { stack.new ≡ changed (λ f. steps.put (top_frame stack.old) next reg word) stack.old }
{
    stack.set_word(u32::from(reg), word);
    stack.go(next);
}

/// Writes a register and the one after it, and goes on at an address.
pub fn put_two(stack: &mut Stack, next: u32, reg: u16, low: u32, high: u32)
    ensures { stack.new ≡ changed (λ f. steps.put_two (top_frame stack.old) next reg low high) stack.old }
{
    stack.set_word(u32::from(reg), low);
    stack.set_word(u32::from(reg) + 1, high);
    stack.go(next);
}

/// Keeps a word as a result, and goes on at an address.
pub fn give(stack: &mut Stack, next: u32, word: u32)
    ensures { stack.new ≡ changed (λ f. given (gone (top_frame stack.old) next) (kept.One word)) stack.old }
{
    stack.go(next);
    stack.give(Kept::One(word));
}

// What moves and constants make of a frame.
ghost use Rattle.std.specs.Prelude.{◌≡◌};
ghost use Rattle.dv_defs.specs.Op.{Const, ConstLong, Nop, TakeCaught, move_op, result_op};
ghost use Rattle.dv_frames.specs.Heads.{frame};
ghost use Rattle.dv_words.specs.Local.{word_local};
ghost use Rattle.dv_units.specs.Tables.{standard_width};

use crate::numbers::halves;
use dv_frames::{Head, go, high_word, low_word, set_two, set_word, two_words, word};
use dv_optable::Width;

#[inline(always)]
pub fn nop(next: u32, words: &mut [u32], head: &mut Head)
    ensures { frame head.new words.new ≡ word_local Nop (frame head.old words.old) next }
{
    let _ = words;
    go(head, next);
}

#[inline(always)]
pub fn move_register(width: Width, a: u16, b: u16, next: u32, words: &mut [u32], head: &mut Head)
    ensures { frame head.new words.new ≡ word_local (move_op (standard_width width) a b) (frame head.old words.old) next }
{
    match width {
        Width::Wide => {
            let (low, high) = two_words(words, b);
            set_two(words, a, low, high);
            go(head, next);
        }
        Width::Narrow | Width::Reference => {
            let moved = word(words, b);
            set_word(words, a, moved);
            go(head, next);
        }
    }
}

#[inline(always)]
pub fn take_result(width: Width, a: u16, next: u32, words: &mut [u32], head: &mut Head)
    ensures { frame head.new words.new ≡ word_local (result_op (standard_width width) a) (frame head.old words.old) next }
{
    match width {
        Width::Wide => {
            set_two(words, a, low_word(head.result), high_word(head.result));
            go(head, next);
        }
        Width::Narrow | Width::Reference => {
            set_word(words, a, low_word(head.result));
            go(head, next);
        }
    }
}

#[inline(always)]
pub fn take_caught(a: u16, next: u32, words: &mut [u32], head: &mut Head)
    ensures { frame head.new words.new ≡ word_local (TakeCaught a) (frame head.old words.old) next }
{
    let caught = match head.caught {
        Some(object) => object,
        None => 0,
    };
    set_word(words, a, caught);
    go(head, next);
}

#[inline(always)]
pub fn set_int(a: u16, int: i32, next: u32, words: &mut [u32], head: &mut Head)
    ensures { frame head.new words.new ≡ word_local (Const a int) (frame head.old words.old) next }
{
    set_word(words, a, int.cast_unsigned());
    go(head, next);
}

#[inline(always)]
pub fn set_long(a: u16, long: i64, next: u32, words: &mut [u32], head: &mut Head)
    ensures { frame head.new words.new ≡ word_local (ConstLong a long) (frame head.old words.old) next }
{
    let (low, high) = halves(long);
    set_two(words, a, low, high);
    go(head, next);
}

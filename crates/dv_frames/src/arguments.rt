// The words of a frame as it is entered: zeros, and then the arguments.
ghost use Rattle.std.specs.Prelude.{◌≡◌, ◌+◌, ◌<◌, ◌≤◌, ◌++◌, ◌∷◌, [], drop, length, map, replicate, slice_index, take, vec_capacity, vec_len};
ghost use Rattle.dv_defs.specs.Op.{named_registers};
ghost use Rattle.dv_words.specs.Words.{word_at};

use crate::registers::read;
use dv_defs::Regs;

/// Adds so many zeros where there is room.
pub fn add_zeros(words: &mut Vec<u32>, count: usize)
    requires { vec_len words.old + count ≤ vec_capacity words.old }
    ensures items { words.new.items ≡ words.old.items ++ replicate count 0 }
    ensures room { vec_capacity words.old ≤ vec_capacity words.new }
{
    let _ = words.resize(words.len() + count, 0);
}

/// Adds these words where there is room.
pub fn add_words(words: &mut Vec<u32>, more: &[u32])
    requires { vec_len words.old + length more.now ≤ vec_capacity words.old }
    ensures items { words.new.items ≡ words.old.items ++ more.now }
    ensures room { vec_capacity words.old ≤ vec_capacity words.new }
{
    let _ = words.extend_from_slice(more);
}

/// How many registers an instruction names.
pub fn count(args: &Regs) -> usize
    ensures count { result ≡ length (named_registers args.now) }
    ensures few { result < 256 }
{
    let count = usize::from(args.count);
    if args.range { count } else { count.min(5) }
}

/// A register that an instruction names.
fn register(args: &Regs, place: usize) -> usize
    requires { place < length (named_registers args.now) }
    ensures { result ≡ slice_index (named_registers args.now) place }
{
    if args.range {
        usize::from(args.first[0]) + place
    } else {
        usize::from(args.first[place])
    }
}

/// A word of the registers that lie in this part of the arena, 0 past its end.
fn word_within(words: &[u32], from: usize, end: usize, reg: usize) -> u32
    requires within { end ≤ length words.now }
    requires rises { from ≤ end }
    ensures { result ≡ word_at (drop from (take end words.now)) reg }
{
    read(&words[from..end], reg)
}

/// Adds a word where there is room.
fn add_word(words: &mut Vec<u32>, word: u32)
    requires { vec_len words.old < vec_capacity words.old }
    ensures items { words.new.items ≡ words.old.items ++ word ∷ [] }
    ensures room { vec_capacity words.old ≤ vec_capacity words.new }
{
    let _ = words.push(word);
}

/// Adds the words of the registers that an instruction names, which lie in this part of the arena, where there is room.
pub fn add_args(words: &mut Vec<u32>, from: usize, end: usize, args: &Regs)
    requires within { end ≤ length words.old.items }
    requires rises { from ≤ end }
    requires room { vec_len words.old + length (named_registers args.now) ≤ vec_capacity words.old }
    ensures items { words.new.items ≡ words.old.items ++ map (word_at (drop from (take end words.old.items))) (named_registers args.now) }
    ensures room { vec_capacity words.old ≤ vec_capacity words.new }
{
    for k in 0..count(args) {
        let word = word_within(words.as_slice(), from, end, register(args, k));
        add_word(words, word);
    }
}

// Words of registers, and writes of them.
ghost use Rattle.std.specs.Prelude.{◌≡◌, slice_set};
ghost use Rattle.dv_typing.specs.declared.typing.RegType.{RegType};
ghost use Rattle.dv_typing.specs.Demands.{is_hi as is_hi_type, is_lo as is_lo_type};
ghost use Rattle.dv_typing.specs.RegTypes.{Types, type_at};
ghost use Rattle.dv_typing.specs.Transfer.{break_before as broken_before, broken_hi, broken_lo, write_long as long_written, write_two, write_type};
ghost use Rattle.dv_bases.specs.Bases.{Names};
ghost use Rattle.dv_effects.specs.Said.{SayAll, Says};

use dv_bases::{Part, part_of, word_of};

/// A register takes a word; a long that lay half there is broken.
#[tactic(auto, unfolding(dv_typing::specs::Transfer::write_type))]
pub fn write(regs: &mut Vec<u32>, k: u16, word: u32)
    ensures { (names : Names) (ts : Types) (t : RegType) → SayAll names regs.old.items ts → Says names word t → SayAll names regs.new.items (write_type ts k t) }
{
    break_before(regs, k);
    break_hi(regs, k as usize + 1);
    put(regs, k as usize, word);
}

/// A register and the next take words at once.
#[tactic(auto, unfolding(dv_typing::specs::Transfer::write_two))]
pub fn write_pair(regs: &mut Vec<u32>, k: u16, lo: u32, hi: u32)
    ensures { (names : Names) (ts : Types) (t u : RegType) → SayAll names regs.old.items ts → Says names lo t → Says names hi u → SayAll names regs.new.items (write_two ts k t u) }
{
    break_before(regs, k);
    break_hi(regs, k as usize + 2);
    put(regs, k as usize, lo);
    put(regs, k as usize + 1, hi);
}

/// A register and the next take the halves of a long.
pub fn write_long(regs: &mut Vec<u32>, k: u16)
    ensures { (names : Names) (ts : Types) → SayAll names regs.old.items ts → SayAll names regs.new.items (long_written ts k) }
{
    write_pair(regs, k, word_of(Part::LongLo), word_of(Part::LongHi));
}

/// The word of a register, where it is there.
pub fn word_at(regs: &[u32], k: u16) -> u32
    ensures { (names : Names) (ts : Types) → SayAll names regs.now ts → Says names result (type_at ts k) }
{
    word_in(regs, k as usize)
}

/// The word at a place; that of an unknown value where there is none.
fn word_in(regs: &[u32], k: usize) -> u32
    ensures { (names : Names) (ts : Types) → SayAll names regs.now ts → Says names result (type_at ts k) }
{
    if k < regs.len() {
        regs[k]
    } else {
        word_of(Part::Conflict)
    }
}

/// A low half of a long just before a register is broken.
fn break_before(regs: &mut Vec<u32>, k: u16)
    ensures { (names : Names) (ts : Types) → SayAll names regs.old.items ts → SayAll names regs.new.items (broken_before ts k) }
{
    if k > 0 {
        break_lo(regs, k as usize - 1);
    }
}

/// A low half at a place is broken.
fn break_lo(regs: &mut Vec<u32>, k: usize)
    ensures { (names : Names) (ts : Types) → SayAll names regs.old.items ts → SayAll names regs.new.items (slice_set ts k (broken_lo (type_at ts k))) }
{
    if is_lo(regs.as_slice(), k) {
        put(regs, k, word_of(Part::Conflict));
    }
}

/// A high half at a place is broken.
fn break_hi(regs: &mut Vec<u32>, k: usize)
    ensures { (names : Names) (ts : Types) → SayAll names regs.old.items ts → SayAll names regs.new.items (slice_set ts k (broken_hi (type_at ts k))) }
{
    if is_hi(regs.as_slice(), k) {
        put(regs, k, word_of(Part::Conflict));
    }
}

fn is_lo(regs: &[u32], k: usize) -> bool
    ensures { (names : Names) (ts : Types) → SayAll names regs.now ts → result ≡ is_lo_type (type_at ts k) }
{
    matches!(part_of(word_in(regs, k)), Part::LongLo)
}

fn is_hi(regs: &[u32], k: usize) -> bool
    ensures { (names : Names) (ts : Types) → SayAll names regs.now ts → result ≡ is_hi_type (type_at ts k) }
{
    matches!(part_of(word_in(regs, k)), Part::LongHi)
}

/// Puts a word into a register, where it is there.
fn put(regs: &mut Vec<u32>, k: usize, word: u32)
    ensures { (names : Names) (ts : Types) (t : RegType) → SayAll names regs.old.items ts → Says names word t → SayAll names regs.new.items (slice_set ts k t) }
{
    if k < regs.len() {
        regs[k] = word;
    }
}

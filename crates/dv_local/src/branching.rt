// What branches and switches make of a frame.
ghost use Rattle.std.specs.Prelude.{◌≡◌, ◌<◌, ◌^◌, ℕ, ℤ, List, MatchOption};
ghost use Rattle.dv_defs.specs.declared.code.Payload.TheVariants as payload;
ghost use Rattle.dv_defs.specs.Op.{Goto, IfBoth, IfZero, cases_packed, cases_sparse};
ghost use Rattle.dv_frames.specs.Heads.{frame};
ghost use Rattle.dv_machine.specs.Local.{case_of};
ghost use Rattle.dv_words.specs.Fetching.{IsSpelled};
ghost use Rattle.dv_words.specs.Local.{branched, word_local};
ghost use Rattle.dv_units.specs.Tables.{standard_test};
ghost use Rattle.dv_words.specs.Stepping.{AreRising};
ghost use Rattle.dv_local.specs.Switching.{DoRise, IsCase, IsKeyPlace, IsNoCase, double_at, int_at};

use crate::arithmetic::int_in;
use crate::here::unit;
use crate::numbers::{double, jump, passes, signed_double};
use dv_frames::{Head, go};
use dv_optable::Test;

#[inline(always)]
pub fn goto(to: u32, words: &mut [u32], head: &mut Head)
    ensures { (next : ℕ) → frame head.new words.new ≡ word_local (Goto to) (frame head.old words.old) next }
{
    let _ = words;
    go(head, to);
}

/// On at one address where a test is passed, else at another.
#[inline(always)]
fn branch(passed: bool, to: u32, next: u32, words: &mut [u32], head: &mut Head)
    ensures { frame head.new words.new ≡ branched (frame head.old words.old) next to passed }
{
    let _ = words;
    if passed {
        go(head, to);
    } else {
        go(head, next);
    }
}

#[inline(always)]
pub fn if_both(test: Test, a: u16, b: u16, to: u32, next: u32, words: &mut [u32], head: &mut Head)
    ensures { frame head.new words.new ≡ word_local (IfBoth (standard_test test) a b to) (frame head.old words.old) next }
{
    let passed = passes(test, int_in(words, a), int_in(words, b));
    branch(passed, to, next, words, head);
}

#[inline(always)]
pub fn if_zero(test: Test, a: u16, to: u32, next: u32, words: &mut [u32], head: &mut Head)
    ensures { frame head.new words.new ≡ word_local (IfZero (standard_test test) a to) (frame head.old words.old) next }
{
    let passed = passes(test, int_in(words, a), 0);
    branch(passed, to, next, words, head);
}

/// The number of 32 bits that stands in two units, the low one first.
#[inline(always)]
fn double_at(units: &[u16], place: usize) -> u32
    requires { place < 2 ^ 34 }
    ensures { result ≡ double_at units.now place }
{
    double(unit(units, place), unit(units, place + 1))
}

/// The signed number of 32 bits that stands in two units.
#[inline(always)]
fn int_at(units: &[u16], place: usize) -> i32
    requires { place < 2 ^ 34 }
    ensures { result ≡ int_at units.now place }
{
    signed_double(double_at(units, place))
}

/// The place of the number among so many that follow one another from the first one on.
#[inline(always)]
fn case_of_number(first: i32, count: u16, number: i32) -> Option<u16>
    ensures { MatchOption result (IsNoCase first count number) (IsCase first count number) }
{
    let case = i64::from(number) - i64::from(first);
    if case < 0 || case >= i64::from(count) {
        return None;
    }
    Some(case as u16)
}

/// Where a packed switch leads, by the payload at a place.
#[inline(always)]
pub fn packed_target(units: &[u16], at: u32, place: usize, value: i32, next: u32) -> u32
    requires short { at < 2 ^ 16 }
    requires near { place < 2 ^ 32 }
    ensures { (first : ℤ) (targets : List ℤ) → IsSpelled units.now place (payload.Packed first targets) → result ≡ case_of (cases_packed at first targets) value next }
{
    let first = int_at(units, place + 2);
    match case_of_number(first, unit(units, place + 1), value) {
        None => next,
        Some(case) => jump(at, int_at(units, place + 4 + 2 * usize::from(case))),
    }
}

/// The place of a key among so many numbers from a place on, of which each is below those behind it; how many there are where it is
/// none of them.
fn key_place(units: &[u16], place: usize, count: u16, key: i32) -> u16
    requires { place < 2 ^ 33 }
    ensures { DoRise units.now place count → IsKeyPlace units.now place count key result }
{
    let mut low = 0;
    let mut high = count;
    while low < high {
        let middle = low + (high - low) / 2;
        let number = int_at(units, place + 2 * usize::from(middle));
        if number == key {
            return middle;
        }
        if number < key {
            low = middle + 1;
        } else {
            high = middle;
        }
    }
    count
}

/// Where a sparse switch leads whose keys rise, by the payload at a place.
pub fn sparse_target(units: &[u16], at: u32, place: usize, value: i32, next: u32) -> u32
    requires short { at < 2 ^ 16 }
    requires near { place < 2 ^ 32 }
    ensures { (keys targets : List ℤ) → IsSpelled units.now place (payload.Sparse keys targets) → AreRising (cases_sparse at keys targets) → result ≡ case_of (cases_sparse at keys targets) value next }
{
    let count = unit(units, place + 1);
    let case = key_place(units, place + 2, count, value);
    if case == count {
        return next;
    }
    let target = place + 2 + 2 * (usize::from(count) + usize::from(case));
    jump(at, int_at(units, target))
}

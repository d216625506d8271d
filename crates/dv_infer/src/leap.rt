// What the state of a place and what arrives there imply.
ghost use Rattle.std.specs.Prelude.{◌≡◌, IfOk, IfSome, length, map, slice_set, true};
ghost use Rattle.dv_ops.specs.Meaning.{code_of};
ghost use Rattle.dv_typing.specs.RegTypes.{type_at};
ghost use Rattle.dv_bases.specs.Bases.{Names, word_type};
ghost use Rattle.dv_bases.specs.States.{AreWords, state_of};
ghost use Rattle.dv_bases.specs.Words.{part_in};
ghost use Rattle.dv_plan.specs.Plans.{IsPlan};
ghost use Rattle.dv_infer.specs.Leaps.{HasClass, IsLeap, IsWithoutClass, is_class as says_class, with_conflict as conflict_in};

use crate::work::patience;
use dv_bases::{Bases, Part, Words, part_of, word_of};
use dv_levels::holds_no_class;
use dv_ops::Coded;
use dv_plan::Plan;
use dv_types::{ClassTable, Row};
use std::alloc::{AllocError, Global};

/// A state with a conflict in place of the class in a register, where by what arrives the class would rise to another and no closed assignment is known
/// to have one.
pub fn leap<'a>(
    alloc: Global,
    bases: &'a Bases<'a>,
    table: &'a ClassTable<'a>,
    code: &Coded<'_>,
    plan: &Plan,
    place: usize,
    row: &Row<'a>,
    by: &Row<'a>,
) -> Result<Option<Row<'a>>, AllocError>
    requires table { table.now ≡ bases.now.image }
    requires plan { IsPlan bases.now.image bases.now (code_of code.now) plan.now }
    requires row { row.now.beside ≡ bases.now }
    requires by { by.now.beside ≡ bases.now }
    requires count { length row.now.state.regs ≡ length by.now.state.regs }
    ensures { IfOk result (λ more. IfSome more (IsLeap bases.now (code_of code.now) place row.now)) }
{
    let words = row.words();
    let mut risen = row.copy()?;
    risen.raise(by);
    match register_without_class(alloc, bases, code, plan, place, words, risen.words())? {
        Some(register) => {
            let words = with_conflict(bases, words, register)?;
            Ok(Some(Row::new(bases, table, words)))
        }
        None => Ok(None),
    }
}

/// The first register whose class rises to another, though no closed assignment is known to have one.
fn register_without_class(
    alloc: Global,
    bases: &Bases<'_>,
    code: &Coded<'_>,
    plan: &Plan,
    place: usize,
    words: &Words,
    risen: &Words,
) -> Result<Option<u16>, AllocError>
    requires { IsPlan bases.now.image bases.now (code_of code.now) plan.now }
    ensures { IfOk result (λ found. IfSome found (IsWithoutClass bases.now.image (code_of code.now) place (state_of bases.now words.now))) }
{
    let body = code.body;
    // Each register at each place can be met twice: with no more dimensions, and with fewer.
    let mut left = patience(code).saturating_mul(2);
    for register in 0..body.registers {
        if rises(words, risen, register)
            && holds_no_class(alloc, bases, code, plan, place, register, &mut left)?
        {
            return Ok(Some(register));
        }
    }
    Ok(None)
}

/// Whether the class in a register rises to another.
fn rises(words: &Words, risen: &Words, register: u16) -> bool
    ensures { (names : Names) → result ≡ true → HasClass (type_at (state_of names words.now).regs register) }
{
    let register = usize::from(register);
    match (
        class_in(&words.regs, register),
        class_in(&risen.regs, register),
    ) {
        (Some(word), Some(above)) => word != above,
        _ => false,
    }
}

/// The word in a register, where it says a class or an array.
fn class_in(words: &[u32], register: usize) -> Option<u32>
    ensures { IfSome result (λ _. (names : Names) → HasClass (type_at (map (word_type names) words.now) register)) }
{
    if register < words.len() && is_class(words[register]) {
        Some(words[register])
    } else {
        None
    }
}

/// Whether a word says a class or an array.
fn is_class(word: u32) -> bool
    ensures { result ≡ says_class (part_in word) }
{
    matches!(part_of(word), Part::Class(_))
}

/// The same words but for a conflict in a register.
fn with_conflict(bases: &Bases<'_>, words: &Words, register: u16) -> Result<Words, AllocError>
    requires { AreWords bases.now words.now }
    ensures words { IfOk result (AreWords bases.now) }
    ensures state { IfOk result (λ w. state_of bases.now w ≡ conflict_in (state_of bases.now words.now) register) }
{
    let mut regs = registers_of(words)?;
    put(&mut regs, usize::from(register), word_of(Part::Conflict));
    Ok(Words {
        regs,
        result: words.result,
        caught: words.caught,
        this_pending: words.this_pending,
    })
}

/// A copy of the words of registers.
fn registers_of(words: &Words) -> Result<Vec<u32>, AllocError>
    ensures { IfOk result (λ v. v.items ≡ words.now.regs.items) }
{
    words.regs.clone()
}

/// A register takes a word, where there is that register.
fn put(regs: &mut Vec<u32>, register: usize, word: u32)
    ensures { regs.new.items ≡ slice_set regs.old.items register word }
{
    if register < regs.len() {
        regs[register] = word;
    }
}

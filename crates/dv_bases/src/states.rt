// States as words.
ghost use Rattle.std.specs.Prelude.{◌≡◌, All, IfOk, IfSome, map};
ghost use Rattle.dv_bases.specs.Bases.{IsNumbered, IsWord, Names, word_type};
ghost use Rattle.dv_bases.specs.States.{AreWords, IsPending, caught_of, pending_of, state_of};

use crate::bases::Bases;
use crate::words::Reference;
use dv_defs::{Seq, Ty};
use dv_typing::{PendingType, RegState, RegType};
use std::alloc::{AllocError, Global};

/// The pending result of a call as a word.
#[derive(Clone, Copy)]
pub enum PendingWord {
    None,
    One(u32),
    Long,
}

/// A state as words: the registers', the pending result's, what was caught, and whether `this` is pending.
#[derive(Drop)]
pub struct Words {
    pub regs: Vec<u32>,
    pub result: PendingWord,
    pub caught: Option<Reference>,
    pub this_pending: bool,
}

impl Words {
    /// A copy of the words.
    pub fn copy(&self) -> Result<Words, AllocError>
        ensures words { (names : Names) → AreWords names self.now → IfOk result (AreWords names) }
        ensures state { (names : Names) → IfOk result (λ words. state_of names words ≡ state_of names self.now) }
    {
        Ok(Words {
            regs: self.regs.clone()?,
            result: self.result,
            caught: self.caught,
            this_pending: self.this_pending,
        })
    }

    /// The state that the words say.
    pub fn state(&self, alloc: Global, bases: &Bases<'_>) -> Result<RegState, AllocError>
        requires { AreWords bases.now self.now }
        ensures { IfOk result (λ s. s ≡ state_of bases.now self.now) }
    {
        let regs = register_types(alloc, bases, &self.regs)?;
        Ok(RegState {
            regs: Seq::of(regs),
            result: pending_type(bases, self.result)?,
            caught: caught_type(bases, self.caught)?,
            this_pending: self.this_pending,
        })
    }
}

/// The types that words say.
fn register_types(
    alloc: Global,
    bases: &Bases<'_>,
    words: &[u32],
) -> Result<Vec<RegType>, AllocError>
    requires { All (IsWord bases.now) words.now }
    ensures { IfOk result (λ types. types.items ≡ map (word_type bases.now) words.now) }
{
    let mut types = Vec::with_capacity(alloc, words.len())?;
    for word in words {
        types.push(bases.register_type(*word)?)?;
    }
    Ok(types)
}

/// The pending result that a word says.
fn pending_type(bases: &Bases<'_>, word: PendingWord) -> Result<PendingType, AllocError>
    requires { IsPending bases.now word }
    ensures { IfOk result (λ p. p ≡ pending_of bases.now word) }
{
    match word {
        PendingWord::None => Ok(PendingType::None),
        PendingWord::One(word) => Ok(PendingType::One(bases.register_type(word)?)),
        PendingWord::Long => Ok(PendingType::Long),
    }
}

/// What was caught.
fn caught_type(bases: &Bases<'_>, caught: Option<Reference>) -> Result<Option<Ty>, AllocError>
    requires { IfSome caught (IsNumbered bases.now) }
    ensures { IfOk result (λ t. t ≡ caught_of bases.now caught) }
{
    match caught {
        Some(class) => Ok(Some(bases.ty(class)?)),
        None => Ok(None),
    }
}

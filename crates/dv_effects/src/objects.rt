// Objects that aren't initialised.
ghost use Rattle.std.specs.Prelude.{◌≡◌, map};
ghost use Rattle.dv_defs.specs.Op.{Code};
ghost use Rattle.dv_typing.specs.declared.typing.RegType.{RegType};
ghost use Rattle.dv_typing.specs.declared.typing.RegState.{RegState};
ghost use Rattle.dv_typing.specs.RegTypes.{Types, type_at};
ghost use Rattle.dv_typing.specs.Demands.{made_at};
ghost use Rattle.dv_typing.specs.Transfer.{after_constructor, class_or_conflict, replaced, write_type};
ghost use Rattle.dv_bases.specs.Bases.{Names};
ghost use Rattle.dv_bases.specs.Words.{HasRoom};
ghost use Rattle.law_flow.specs.Fitting.{StateFits};
ghost use Rattle.dv_effects.specs.Made.{HasClasses, IsMade, makes_at};
ghost use Rattle.dv_effects.specs.Renewed.{is_among as is_among_objects, renewed as word_renewed};
ghost use Rattle.dv_effects.specs.Said.{SayAll, Says};

use crate::effects::Step;
use crate::registers::{word_at, write};
use dv_bases::{Part, part_of, word_of};

/// Objects that aren't initialised: those that the new-instance at an address made, `this`, or every one.
#[derive(Clone, Copy)]
pub enum Objects {
    Made(u32),
    This,
    Every,
}

/// A register takes the object that the new-instance at an address makes; older objects of it aren't known any more.
pub fn make(regs: &mut Vec<u32>, k: u16, at: u32)
    requires { HasRoom (Part.Uninit at) }
    ensures { (names : Names) (ts : Types) → SayAll names regs.old.items ts → SayAll names regs.new.items (write_type (map (replaced at RegType.Conflict) ts) k (RegType.Uninit at)) }
{
    renew(regs, Objects::Made(at), word_of(Part::Conflict));
    write(regs, k, word_of(Part::Uninit(at)));
}

/// A constructor initialises the object of a register, in each register that holds it.
pub fn construct(own: u32, steps: &[Option<Step>], regs: &mut Vec<u32>, k: u16)
    ensures { (names : Names) (code : Code) (s : RegState) → SayAll names regs.old.items s.regs → HasClasses names code own steps.now → StateFits names.image code s → SayAll names regs.new.items (after_constructor names.image code.method s (type_at s.regs k)).regs }
{
    match part_of(word_at(regs.as_slice(), k)) {
        Part::Uninit(at) => renew(regs, Objects::Made(at), made_word(steps, at)),
        Part::UninitThis => renew(regs, Objects::This, own),
        _ => renew(regs, Objects::Every, word_of(Part::Conflict)),
    }
}

/// The word of the class that the instruction at an address makes objects of.
fn made_word(steps: &[Option<Step>], at: u32) -> u32
    ensures { (names : Names) (code : Code) → IsMade names code steps.now at → Says names result (class_or_conflict names.image (made_at names.image code.method at)) }
{
    match makes_of(steps, at) {
        Some(word) => word,
        None => word_of(Part::Conflict),
    }
}

fn makes_of(steps: &[Option<Step>], at: u32) -> Option<u32>
    ensures { result ≡ makes_at steps.now at }
{
    match steps.get(at as usize) {
        Some(Some(step)) => step.makes,
        _ => None,
    }
}

/// Objects become another word, in each register.
fn renew(regs: &mut Vec<u32>, which: Objects, by: u32)
    ensures { regs.new.items ≡ map (word_renewed which by) regs.old.items }
{
    for word in regs.iter_mut() {
        *word = renewed(which, by, *word);
    }
}

fn renewed(which: Objects, by: u32, word: u32) -> u32
    ensures { result ≡ word_renewed which by word }
{
    if is_among(which, part_of(word)) {
        by
    } else {
        word
    }
}

fn is_among(which: Objects, held: Part) -> bool
    ensures { result ≡ is_among_objects which held }
{
    match (which, held) {
        (Objects::Made(at), Part::Uninit(made)) => at == made,
        (Objects::This, Part::UninitThis) => true,
        (Objects::Every, Part::Uninit(_) | Part::UninitThis) => true,
        _ => false,
    }
}

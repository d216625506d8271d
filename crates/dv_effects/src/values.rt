// Words as registers take them from others.
ghost use Rattle.std.specs.Prelude.{◌≡◌, ◌<◌, true, ◌&&◌, IfOk, IfSome};
ghost use Rattle.dv_defs.specs.Types.{component as component_of, is_array as is_array_type, is_reference as is_reference_type};
ghost use Rattle.dv_typing.specs.declared.typing.PendingType.{PendingType};
ghost use Rattle.dv_typing.specs.declared.typing.RegType.{RegType};
ghost use Rattle.dv_typing.specs.RegTypes.{Types};
ghost use Rattle.dv_typing.specs.Transfer.{after_result_long, caught_type, copied_int as int_copied, copied_object as object_copied, object_element as element_of, result_int as int_result, result_ref as reference_result};
ghost use Rattle.dv_bases.specs.Bases.{IsNumbered, Names, type_of};
ghost use Rattle.dv_bases.specs.States.{caught_of};
ghost use Rattle.dv_bases.specs.Words.{HasRoom};
ghost use Rattle.dv_effects.specs.Said.{SayAll, Says, SaysPending};

use crate::registers::{write_long, write_pair};
use dv_bases::{Part, PendingWord, Reference, part_of, word_of};
use std::alloc::AllocError;

/// How many primitive types have numbers below those of the classes.
const PRIMITIVES: u32 = 6;

/// How many bases a word has room for.
const MOST: u32 = 0x20_0000;

/// The int that move copies.
pub fn copied_int(word: u32) -> u32
    ensures { (names : Names) (t : RegType) → Says names word t → Says names result (int_copied t) }
{
    match part_of(word) {
        Part::Zero | Part::Int => word,
        _ => word_of(Part::Conflict),
    }
}

/// The object that move-object copies.
pub fn copied_object(word: u32) -> u32
    ensures { (names : Names) (t : RegType) → Says names word t → Says names result (object_copied t) }
{
    match part_of(word) {
        Part::Zero | Part::Class(_) | Part::Uninit(_) | Part::UninitThis => word,
        _ => word_of(Part::Conflict),
    }
}

/// The int that is pending.
pub fn result_int(pending: PendingWord) -> u32
    ensures { (names : Names) (p : PendingType) → SaysPending names pending p → Says names result (int_result p) }
{
    match pending {
        PendingWord::One(word) => one_int(word),
        PendingWord::None | PendingWord::Long => word_of(Part::Conflict),
    }
}

fn one_int(word: u32) -> u32
    ensures { (names : Names) (t : RegType) → Says names word t → Says names result (int_result (PendingType.One t)) }
{
    match part_of(word) {
        Part::Int => word,
        _ => word_of(Part::Conflict),
    }
}

/// The object that is pending.
pub fn result_object(pending: PendingWord) -> u32
    ensures { (names : Names) (p : PendingType) → SaysPending names pending p → Says names result (reference_result p) }
{
    match pending {
        PendingWord::One(word) => one_object(word),
        PendingWord::None | PendingWord::Long => word_of(Part::Conflict),
    }
}

fn one_object(word: u32) -> u32
    ensures { (names : Names) (t : RegType) → Says names word t → Says names result (reference_result (PendingType.One t)) }
{
    match part_of(word) {
        Part::Class(_) => word,
        _ => word_of(Part::Conflict),
    }
}

/// A register and the next take the long that is pending; without one both are unknown.
pub fn write_result_long(regs: &mut Vec<u32>, k: u16, pending: PendingWord)
    ensures { (names : Names) (ts : Types) (p : PendingType) → SayAll names regs.old.items ts → SaysPending names pending p → SayAll names regs.new.items (after_result_long ts k p) }
{
    match pending {
        PendingWord::Long => write_long(regs, k),
        _ => write_pair(regs, k, word_of(Part::Conflict), word_of(Part::Conflict)),
    }
}

/// The word of what was caught. No names are as many as a word has no room for, so the test fails for none.
pub fn caught_word(caught: Option<Reference>) -> Result<u32, AllocError>
    ensures { (names : Names) → IfSome caught (IsNumbered names) → IfOk result (λ word. Says names word (caught_type (caught_of names caught))) }
{
    match caught {
        None => Ok(word_of(Part::Conflict)),
        Some(class) => word_of_class(class),
    }
}

/// The word of a class or an array.
fn word_of_class(class: Reference) -> Result<u32, AllocError>
    ensures { (names : Names) → IsNumbered names class → IfOk result (λ word. Says names word (RegType.Class (type_of names class))) }
{
    if class.base < MOST {
        Ok(word_of(Part::Class(class)))
    } else {
        Err(AllocError)
    }
}

/// The element that aget-object gets of an array.
pub fn element(array: u32) -> u32
    ensures { (names : Names) (t : RegType) → Says names array t → Says names result (element_of t) }
{
    match part_of(array) {
        Part::Zero => array,
        Part::Class(class) => element_of_class(class),
        _ => word_of(Part::Conflict),
    }
}

/// The elements of an array, where they are references.
fn element_of_class(class: Reference) -> u32
    requires { HasRoom (Part.Class class) }
    ensures { (names : Names) → IsNumbered names class → Says names result (element_of (RegType.Class (type_of names class))) }
{
    if holds_references(class) {
        word_of(Part::Class(Reference {
            dims: class.dims - 1,
            base: class.base,
        }))
    } else {
        word_of(Part::Conflict)
    }
}

fn holds_references(class: Reference) -> bool
    ensures holds { (names : Names) → result ≡ (is_array_type (type_of names class) && is_reference_type (component_of (type_of names class))) }
    ensures array { result ≡ true → 0 < class.dims }
{
    class.dims > 0 && (class.dims - 1 > 0 || class.base >= PRIMITIVES)
}

// Steps applied to states as words.
ghost use Rattle.std.specs.Prelude.{◌≡◌, ℕ, Some, IfOk};
ghost use Rattle.dv_defs.specs.Op.{Code, Op};
ghost use Rattle.dv_typing.specs.declared.typing.RegState.{RegState};
ghost use Rattle.dv_typing.specs.RegTypes.{Types, type_at};
ghost use Rattle.dv_typing.specs.Flow.{caught_state};
ghost use Rattle.dv_typing.specs.Transfer.{copied_int as int_copied, copied_object as object_copied, object_element, out, write_type};
ghost use Rattle.dv_bases.specs.Bases.{IsNumbered, Names, type_of};
ghost use Rattle.dv_bases.specs.States.{AreWords, state_of};
ghost use Rattle.law_flow.specs.Fitting.{StateFits};
ghost use Rattle.dv_effects.specs.Effects.{HasRoomFor, HasWords, IsStep, registers_after as registers_left, this_after as this_left};
ghost use Rattle.dv_effects.specs.Made.{AreFit, HasClasses};
ghost use Rattle.dv_effects.specs.Said.{SayAll, SayState};

use crate::effects::{Effect, Step};
use crate::objects::{construct, make};
use crate::registers::{word_at, write, write_long};
use crate::values::{
    caught_word, copied_int, copied_object, element, result_int, result_object, write_result_long,
};
use dv_bases::{Part, PendingWord, Reference, Words, part_of};
use std::alloc::AllocError;

/// The words after a step, which are changed in place. `own` is the word of the method's class, and `steps` has the steps of its instructions by address.
pub fn after(
    own: u32,
    steps: &[Option<Step>],
    step: &Step,
    words: Words,
) -> Result<Words, AllocError>
    requires { HasRoomFor step.now.effect }
    ensures words { (names : Names) (code : Code) (at : ℕ) (op : Op) → IsStep names code at op step.now → HasClasses names code own steps.now → AreFit names code words → IfOk result (AreWords names) }
    ensures state { (names : Names) (code : Code) (at : ℕ) (op : Op) → IsStep names code at op step.now → HasClasses names code own steps.now → AreFit names code words → IfOk result (λ w. state_of names w ≡ out names.image code.method at op (state_of names words)) }
{
    let this_pending = this_after(step.effect, &words);
    let regs = registers_after(own, steps, step.effect, words)?;
    Ok(Words {
        regs,
        result: step.pending,
        caught: None,
        this_pending,
    })
}

/// The words with which a handler for a class is entered.
pub fn caught(words: &Words, class: Reference) -> Result<Words, AllocError>
    ensures words { (names : Names) → AreWords names words.now → IsNumbered names class → IfOk result (AreWords names) }
    ensures state { (names : Names) → IfOk result (λ w. state_of names w ≡ caught_state (state_of names words.now) (record { ty = Some (type_of names class); to = 0 })) }
{
    let regs = copied(words)?;
    Ok(Words {
        regs,
        result: PendingWord::None,
        caught: Some(class),
        this_pending: words.this_pending,
    })
}

/// A copy of the words of registers.
fn copied(words: &Words) -> Result<Vec<u32>, AllocError>
    ensures { IfOk result (λ v. v.items ≡ words.now.regs.items) }
{
    Vec::from_slice(*words.regs.allocator(), words.regs.as_slice())
}

/// The registers after an effect.
fn registers_after(
    own: u32,
    steps: &[Option<Step>],
    effect: Effect,
    words: Words,
) -> Result<Vec<u32>, AllocError>
    requires { HasRoomFor effect }
    ensures { (names : Names) (code : Code) → HasWords names effect → HasClasses names code own steps.now → AreFit names code words → IfOk result (λ v. SayAll names v.items (registers_left names code.method effect (state_of names words))) }
{
    let caught = caught_word(words.caught)?;
    let mut regs = words.regs;
    apply(own, steps, effect, words.result, caught, &mut regs);
    Ok(regs)
}

/// Does to registers what an effect does.
fn apply(
    own: u32,
    steps: &[Option<Step>],
    effect: Effect,
    pending: PendingWord,
    caught: u32,
    regs: &mut Vec<u32>,
)
    requires { HasRoomFor effect }
    ensures { (names : Names) (code : Code) (s : RegState) → HasWords names effect → SayState names regs.old.items pending caught s → HasClasses names code own steps.now → StateFits names.image code s → SayAll names regs.new.items (registers_left names code.method effect s) }
{
    match effect {
        Effect::Nothing => {}
        Effect::Put(k, word) => write(regs, k, word),
        Effect::PutLong(k) => write_long(regs, k),
        Effect::CopyInt(k, from) => copy_int(regs, k, from),
        Effect::CopyObject(k, from) => copy_object(regs, k, from),
        Effect::ResultInt(k) => write(regs, k, result_int(pending)),
        Effect::ResultLong(k) => write_result_long(regs, k, pending),
        Effect::ResultObject(k) => write(regs, k, result_object(pending)),
        Effect::Caught(k) => write(regs, k, caught),
        Effect::Element(k, array) => copy_element(regs, k, array),
        Effect::New(k, at) => make(regs, k, at),
        Effect::Construct(k) => construct(own, steps, regs, k),
    }
}

/// A register takes the int of another.
fn copy_int(regs: &mut Vec<u32>, k: u16, from: u16)
    ensures { (names : Names) (ts : Types) → SayAll names regs.old.items ts → SayAll names regs.new.items (write_type ts k (int_copied (type_at ts from))) }
{
    let word = copied_int(word_at(regs.as_slice(), from));
    write(regs, k, word);
}

/// A register takes the object of another.
fn copy_object(regs: &mut Vec<u32>, k: u16, from: u16)
    ensures { (names : Names) (ts : Types) → SayAll names regs.old.items ts → SayAll names regs.new.items (write_type ts k (object_copied (type_at ts from))) }
{
    let word = copied_object(word_at(regs.as_slice(), from));
    write(regs, k, word);
}

/// A register takes an element of the array of another.
fn copy_element(regs: &mut Vec<u32>, k: u16, array: u16)
    ensures { (names : Names) (ts : Types) → SayAll names regs.old.items ts → SayAll names regs.new.items (write_type ts k (object_element (type_at ts array))) }
{
    let word = element(word_at(regs.as_slice(), array));
    write(regs, k, word);
}

/// Whether `this` is pending after an effect.
fn this_after(effect: Effect, words: &Words) -> bool
    ensures { (names : Names) → AreWords names words.now → result ≡ this_left effect (state_of names words.now) }
{
    match effect {
        Effect::Construct(k) => match part_of(word_at(words.regs.as_slice(), k)) {
            Part::UninitThis => false,
            _ => words.this_pending,
        },
        _ => words.this_pending,
    }
}

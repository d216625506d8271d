// The words on entry to a method.
ghost use Rattle.std.specs.Prelude.{◌≡◌, ◌∷◌, [], ◌++◌, ◌-◌, false, length, replicate, IfOk, OnOk};
ghost use Rattle.dv_defs.specs.Pools.{is_of_object as is_of_object_class, is_static};
ghost use Rattle.dv_typing.specs.declared.typing.RegType.{RegType};
ghost use Rattle.dv_typing.specs.RegTypes.{Types, all_types, reg_types};
ghost use Rattle.dv_typing.specs.Transfer.{arg_types as types_of_args, begins_uninitialised as is_uninitialised, entry_state, receiver_type};
ghost use Rattle.dv_bases.specs.Bases.{IsWider, Names};
ghost use Rattle.dv_bases.specs.States.{AreWords, state_of};
ghost use Rattle.dv_ops.specs.Meaning.{method_of};
ghost use Rattle.dv_effects.specs.Said.{SayAll, Says};

use crate::types::{is_long, object_word, single_word};
use dv_bases::{Bases, Part, PendingWord, Words, word_of};
use dv_defs::{Flag, Image, Ty};
use dv_demands::is_constructor;
use dv_ops::{Coded, Method};
use std::alloc::{AllocError, Global};

const OBJECT: &[u8] = b"Ljava/lang/Object;";

/// The words on entry: the arguments stand in the last registers, and what is below them is not known.
pub fn entry_words(
    alloc: Global,
    bases: &mut Bases<'_>,
    image: &Image,
    code: &Coded<'_>,
) -> Result<Words, AllocError>
    ensures wider { OnOk result (IsWider bases.old bases.new) }
    ensures words { IfOk result (AreWords bases.new) }
    ensures state { IfOk result (λ w. state_of bases.new w ≡ entry_state image.now (method_of code.now.method) code.now.body.now.registers) }
{
    let body = code.body;
    let args = arg_words(alloc, bases, image, &code.method)?;
    let regs = after_unknown(alloc, body.registers as usize, args)?;
    Ok(Words {
        regs,
        result: PendingWord::None,
        caught: None,
        this_pending: begins_uninitialised(image, &code.method),
    })
}

/// The words of arguments as the last of so many registers.
fn after_unknown(alloc: Global, count: usize, args: Vec<u32>) -> Result<Vec<u32>, AllocError>
    ensures { (names : Names) (ts : Types) → SayAll names args.items ts → IfOk result (λ v. SayAll names v.items (replicate (count - length ts) RegType.Conflict ++ ts)) }
{
    let unknown = repeated(
        alloc,
        count.saturating_sub(args.len()),
        word_of(Part::Conflict),
    )?;
    joined(unknown, args)
}

/// A word so many times.
fn repeated(alloc: Global, count: usize, word: u32) -> Result<Vec<u32>, AllocError>
    ensures { IfOk result (λ v. v.items ≡ replicate count word) }
{
    let mut words = Vec::with_capacity(alloc, count)?;
    for _ in 0..count {
        words.push(word)?;
    }
    Ok(words)
}

/// Words and further ones behind them.
fn joined(mut words: Vec<u32>, more: Vec<u32>) -> Result<Vec<u32>, AllocError>
    ensures { IfOk result (λ v. v.items ≡ words.items ++ more.items) }
{
    words.extend_from_slice(more.as_slice())?;
    Ok(words)
}

/// The words of a method's arguments, the receiver's first.
fn arg_words(
    alloc: Global,
    bases: &mut Bases<'_>,
    image: &Image,
    method: &Method<'_>,
) -> Result<Vec<u32>, AllocError>
    ensures wider { OnOk result (IsWider bases.old bases.new) }
    ensures told { IfOk result (λ v. SayAll bases.new v.items (types_of_args image.now (method_of method.now))) }
{
    let mut words = receiver_words(alloc, bases, image, method)?;
    let def = method.def;
    push_types(bases, def.proto.params.items(), &mut words)?;
    Ok(words)
}

/// The receiver on entry: in a constructor other than Object's it is not yet initialised.
fn receiver_words(
    alloc: Global,
    bases: &mut Bases<'_>,
    image: &Image,
    method: &Method<'_>,
) -> Result<Vec<u32>, AllocError>
    ensures wider { OnOk result (IsWider bases.old bases.new) }
    ensures told { IfOk result (λ v. SayAll bases.new v.items (receiver_type image.now (method_of method.now))) }
{
    if Flag::Static.is_in(method.def.flags) {
        return Ok(Vec::new(alloc));
    }
    one_word(alloc, receiver_word(alloc, bases, image, method)?)
}

/// A word alone.
fn one_word(alloc: Global, word: u32) -> Result<Vec<u32>, AllocError>
    ensures { IfOk result (λ v. v.items ≡ word ∷ []) }
{
    let mut words = Vec::new(alloc);
    words.push(word)?;
    Ok(words)
}

/// The receiver of a method that has one.
fn receiver_word(
    alloc: Global,
    bases: &mut Bases<'_>,
    image: &Image,
    method: &Method<'_>,
) -> Result<u32, AllocError>
    requires { is_static (method_of method.now) ≡ false }
    ensures wider { OnOk result (IsWider bases.old bases.new) }
    ensures told { IfOk result (λ word. SayAll bases.new (word ∷ []) (receiver_type image.now (method_of method.now))) }
{
    if begins_uninitialised(image, method) {
        Ok(word_of(Part::UninitThis))
    } else {
        object_word(bases, alloc, image, method.info.class)
    }
}

fn begins_uninitialised(image: &Image, method: &Method<'_>) -> bool
    ensures { result ≡ is_uninitialised image.now (method_of method.now) }
{
    is_constructor(method) && !is_of_object(image, method)
}

/// Whether it is a method of Object itself.
fn is_of_object(image: &Image, method: &Method<'_>) -> bool
    ensures { result ≡ is_of_object_class image.now (method_of method.now) }
{
    match image.classes.items().get(method.info.class.0 as usize) {
        Some(info) => info.def.name.bytes() == OBJECT,
        None => false,
    }
}

/// Adds the words of values of declared types.
fn push_types(bases: &mut Bases<'_>, params: &[Ty], words: &mut Vec<u32>) -> Result<(), AllocError>
    ensures wider { OnOk result (IsWider bases.old bases.new) }
    ensures told { (ts : Types) → SayAll bases.old words.old.items ts → OnOk result (SayAll bases.new words.new.items (ts ++ all_types params.now)) }
{
    for ty in params {
        push_type(bases, ty, words)?;
    }
    Ok(())
}

/// Adds the words of a value of a declared type.
fn push_type(bases: &mut Bases<'_>, ty: &Ty, words: &mut Vec<u32>) -> Result<(), AllocError>
    ensures wider { OnOk result (IsWider bases.old bases.new) }
    ensures told { (ts : Types) → SayAll bases.old words.old.items ts → OnOk result (SayAll bases.new words.new.items (ts ++ reg_types ty.now)) }
{
    if is_long(ty) {
        push_long(words)
    } else {
        push_one(words, single_word(bases, ty)?)
    }
}

/// Adds the halves of a long.
fn push_long(words: &mut Vec<u32>) -> Result<(), AllocError>
    ensures { (names : Names) (ts : Types) → SayAll names words.old.items ts → OnOk result (SayAll names words.new.items (ts ++ RegType.LongLo ∷ RegType.LongHi ∷ [])) }
{
    push_one(words, word_of(Part::LongLo))?;
    push_one(words, word_of(Part::LongHi))
}

/// Adds a word.
fn push_one(words: &mut Vec<u32>, word: u32) -> Result<(), AllocError>
    ensures { (names : Names) (ts : Types) (t : RegType) → SayAll names words.old.items ts → Says names word t → OnOk result (SayAll names words.new.items (ts ++ t ∷ [])) }
{
    words.push(word)?;
    Ok(())
}

// Types and references to members, read from words.
ghost use Rattle.std.specs.Prelude.{◌≡◌, ◌∷◌, ◌++◌, IfOk};
ghost use Rattle.dv_coderead.specs.Giving.{Gives, Reads};
ghost use Rattle.dv_coderead.specs.References.{refusal_of, type_in, reference_type_in, class_in, proto_in, field_in, method_in, cut_at, arrow_parts, found_parts, member_name};

use crate::Refusal;
use crate::names::is_name;
use dv_defs::{Base, FieldRef, LineKind, MethodRef, Proto, Text, Ty};
use dv_names::{NameError, parse_proto, parse_type};
use std::alloc::Global;

impl From<NameError> for Refusal {
    ghost from_gives = { λ e r. r ≡ refusal_of e };

    fn from(error: NameError) -> Refusal {
        match error {
            NameError::BadDescriptor(_) => Refusal::Fault(LineKind::BadDescriptor),
            NameError::FloatType(_) => Refusal::Fault(LineKind::FloatType),
            NameError::Memory => Refusal::Memory,
        }
    }
}

/// The type whose descriptor the word is.
pub fn ty(alloc: Global, word: &[u8]) -> Result<Ty, Refusal>
    ensures { Gives (λ t. t) result (type_in word.now) }
{
    Ok(parse_type(alloc, word)?)
}

/// The class or array whose descriptor the word is.
pub fn reference_type(alloc: Global, word: &[u8]) -> Result<Ty, Refusal>
    ensures { Gives (λ t. t) result (reference_type_in word.now) }
{
    let ty = ty(alloc, word)?;
    if !ty.is_reference() {
        return Err(Refusal::Fault(LineKind::BadDescriptor));
    }
    Ok(ty)
}

/// The class whose descriptor the word is.
pub fn class(alloc: Global, word: &[u8]) -> Result<Ty, Refusal>
    ensures { Gives (λ t. t) result (class_in word.now) }
{
    let ty = ty(alloc, word)?;
    match (ty.dims, &ty.base) {
        (0, Base::Class(_)) => Ok(ty),
        _ => Err(Refusal::Fault(LineKind::BadDescriptor)),
    }
}

/// The prototype that the word is.
pub fn proto(alloc: Global, word: &[u8]) -> Result<Proto, Refusal>
    ensures { Gives (λ p. p) result (proto_in word.now) }
{
    Ok(parse_proto(alloc, word)?)
}

/// What stands before the first such byte, and behind it.
pub fn cut_at(word: &[u8], mark: u8) -> Result<(&[u8], &[u8]), LineKind>
    ensures parts { Reads (λ p. (p.0.now, p.1.now)) result (found_parts (cut_at mark word.now)) }
    ensures whole { IfOk result (λ p. word.now ≡ p.0.now ++ (mark ∷ p.1.now)) }
{
    for (place, byte) in word.iter().enumerate() {
        if *byte == mark {
            return Ok((&word[..place], &word[place + 1..]));
        }
    }
    Err(LineKind::Operands)
}

/// What stands before the first `->`, and behind it.
pub fn cut_at_arrow(word: &[u8]) -> Result<(&[u8], &[u8]), LineKind>
    ensures { Reads (λ p. (p.0.now, p.1.now)) result (arrow_parts word.now) }
{
    for (place, byte) in word.iter().enumerate() {
        if *byte == b'-' && place + 1 < word.len() && word[place + 1] == b'>' {
            return Ok((&word[..place], &word[place + 2..]));
        }
    }
    Err(LineKind::Operands)
}

/// The name that the word is.
pub fn name(alloc: Global, word: &[u8]) -> Result<Text, Refusal>
    ensures { Gives (λ w. w) result (member_name word.now) }
{
    if !is_name(word) {
        return Err(Refusal::Fault(LineKind::Operands));
    }
    Ok(Text::of(Vec::from_slice(alloc, word)?)?)
}

/// The field that the word names: a class or an array, `->`, a name, `:` and a type.
pub fn field(alloc: Global, word: &[u8]) -> Result<FieldRef, Refusal>
    ensures { Gives (λ f. f) result (field_in word.now) }
{
    let (before, member) = cut_at_arrow(word)?;
    let class = reference_type(alloc, before)?;
    let (own, descriptor) = cut_at(member, b':')?;
    let name = name(alloc, own)?;
    let ty = ty(alloc, descriptor)?;
    Ok(FieldRef { class, name, ty })
}

/// The method that the word names: a class or an array, `->`, a name and a prototype.
pub fn method(alloc: Global, word: &[u8]) -> Result<MethodRef, Refusal>
    ensures { Gives (λ m. m) result (method_in word.now) }
{
    let (before, member) = cut_at_arrow(word)?;
    let class = reference_type(alloc, before)?;
    let (own, _) = cut_at(member, b'(')?;
    let name = name(alloc, own)?;
    let proto = proto(alloc, &member[own.len()..])?;
    Ok(MethodRef { class, name, proto })
}

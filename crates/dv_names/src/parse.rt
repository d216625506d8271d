// Descriptors of types and prototypes, read.
ghost use Rattle.std.specs.Prelude.{◌≡◌, ◌≢◌, ◌+◌, ◌-◌, ◌<◌, ◌≤◌, length, drop, replicate, slice_index, slice_range, IfOk, IfErr};
ghost use Rattle.dv_defs.specs.declared.names.Ty.{Ty};
ghost use Rattle.dv_defs.specs.declared.names.Proto.{Proto};
ghost use Rattle.dv_names.specs.Descriptors.{descriptor, prototype, IsType, IsProto};
ghost use Rattle.dv_names.specs.Faults.{IsTypeText, IsProtoText, FailsAt};
ghost use Rattle.dv_names.specs.Grammar.{Parameters, no_type, refusal, type_refusal, proto_refusal, Refuses, Judges, Finds};
ghost use Rattle.dv_names.specs.Parts.{ReadsType, ReadsReturn, ReadsParameters};

use crate::NameError;
use crate::names::{class_end, is_float_letter, primitive};
use dv_defs::{Base, Proto, Seq, Text, Ty};
use std::alloc::Global;

/// The most dimensions of an array.
const MAX_DIMS: usize = 255;

/// Where the brackets at `start` end, of which 255 count.
fn brackets_end(text: &[u8], start: usize) -> usize
    requires { start ≤ length text.now }
    ensures within { result ≤ length text.now }
    ensures few { (start ≤ result) × (result - start ≤ 255) }
    ensures brackets { slice_range text.now start result ≡ replicate (result - start) 91 }
    ensures most { result < length text.now → result - start < 255 → slice_index text.now result ≢ 91 }
{
    let mut at = start;
    while at < text.len() && at - start < MAX_DIMS && text[at] == b'[' {
        at += 1;
    }
    at
}

/// The refusal of the letter at a place where a type could stand.
fn no_type(letter: u8, at: usize) -> NameError
    ensures { result ≡ no_type letter at }
{
    if is_float_letter(letter) {
        NameError::FloatType(at)
    } else {
        NameError::BadDescriptor(at)
    }
}

/// The type at `start`, and where it ends.
fn type_at(alloc: Global, text: &[u8], start: usize) -> Result<(Ty, usize), NameError>
    requires { start ≤ length text.now }
    ensures { ReadsType text.now start result }
{
    let at = brackets_end(text, start);
    if at == text.len() {
        return Err(NameError::BadDescriptor(at));
    }
    let dims = (at - start) as u8;
    let first = text[at];
    if let Some(base) = primitive(first) {
        return Ok((Ty { dims, base }, at + 1));
    }
    if first != b'L' {
        return Err(no_type(first, at));
    }
    let end = class_end(text, at + 1)?;
    let name = Text::of(Vec::from_slice(alloc, &text[at..end])?)?;
    let base = Base::Class(name);
    Ok((Ty { dims, base }, end))
}

/// The parameters at `start`, and where the parenthesis stands that ends them.
fn parameters_at(alloc: Global, text: &[u8], start: usize) -> Result<(Vec<Ty>, usize), NameError>
    requires { start ≤ length text.now }
    ensures ok { IfOk result (λ x. ReadsParameters text.now start x.0.items x.1) }
    ensures err { IfErr result (λ e. Refuses e (refusal Parameters start (drop start text.now))) }
{
    let mut params = Vec::new(alloc);
    let mut at = start;
    while at < text.len() {
        if text[at] == b')' {
            return Ok((params, at));
        }
        let (ty, end) = type_at(alloc, text, at)?;
        params.push(ty)?;
        at = end;
    }
    Err(NameError::BadDescriptor(at))
}

/// The result at `start`, which is none for `V`, and where it ends.
fn return_at(alloc: Global, text: &[u8], start: usize) -> Result<(Option<Ty>, usize), NameError>
    requires { start ≤ length text.now }
    ensures { ReadsReturn text.now start result }
{
    if start < text.len() && text[start] == b'V' {
        return Ok((None, start + 1));
    }
    let (ty, end) = type_at(alloc, text, start)?;
    Ok((Some(ty), end))
}

/// The type whose descriptor the text is: a bracket for each dimension, and a primitive type's letter or a class's
/// descriptor. That is `L`, one or more names with `/` between, and `;`. A name is `<init>`, `<clinit>`, or one or more
/// bytes that are no blank, no control character and none of ``.;[/()<>:"'#{},=``.
pub fn parse_type(alloc: Global, text: &[u8]) -> Result<Ty, NameError>
    ensures exact { Judges result (type_refusal text.now) }
    ensures prints { IfOk result (λ t. IsType t × (descriptor t ≡ text.now)) }
    ensures finds { (t : Ty) → IsType t → descriptor t ≡ text.now → Finds t result }
    ensures fails { IfErr result (FailsAt IsTypeText text.now) }
{
    let (ty, end) = type_at(alloc, text, 0)?;
    if end < text.len() {
        return Err(NameError::BadDescriptor(end));
    }
    Ok(ty)
}

/// The prototype that the text is: types without separators in parentheses, and a type or `V`.
pub fn parse_proto(alloc: Global, text: &[u8]) -> Result<Proto, NameError>
    ensures exact { Judges result (proto_refusal text.now) }
    ensures prints { IfOk result (λ p. IsProto p × (prototype p ≡ text.now)) }
    ensures finds { (p : Proto) → IsProto p → prototype p ≡ text.now → Finds p result }
    ensures fails { IfErr result (FailsAt IsProtoText text.now) }
{
    if text.is_empty() || text[0] != b'(' {
        return Err(NameError::BadDescriptor(0));
    }
    let (params, close) = parameters_at(alloc, text, 1)?;
    let (ret, end) = return_at(alloc, text, close + 1)?;
    if end < text.len() {
        return Err(NameError::BadDescriptor(end));
    }
    Ok(Proto {
        params: Seq::of(params),
        ret,
    })
}

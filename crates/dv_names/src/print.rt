// Descriptors of types and prototypes, printed, and the Java text of a class.
ghost use Rattle.std.specs.Prelude.{◌≡◌, IfOk};
ghost use Rattle.dv_defs.specs.Texts.{dotted, java_text};
ghost use Rattle.dv_names.specs.Descriptors.{base_text, descriptor, prototype, return_text};

use dv_defs::{Base, Proto, Text, Ty};
use std::alloc::{AllocError, Global};

/// The letter of a primitive type, or the descriptor of a class.
fn base_text(base: &Base) -> &[u8]
    ensures { result.now ≡ base_text base.now }
{
    match base {
        Base::Z => b"Z",
        Base::B => b"B",
        Base::C => b"C",
        Base::S => b"S",
        Base::I => b"I",
        Base::J => b"J",
        Base::Class(name) => name.bytes(),
    }
}

fn type_bytes(alloc: Global, ty: &Ty) -> Result<Vec<u8>, AllocError>
    ensures { IfOk result (λ v. v.items ≡ descriptor ty.now) }
{
    let mut bytes = vec![in alloc; b'['; usize::from(ty.dims)]?;
    bytes.extend_from_slice(base_text(&ty.base))?;
    Ok(bytes)
}

/// The descriptor of a type: a bracket for each dimension, and the base.
pub fn print_type(alloc: Global, ty: &Ty) -> Result<Text, AllocError>
    ensures { IfOk result (λ t. t ≡ descriptor ty.now) }
{
    Text::of(type_bytes(alloc, ty)?)
}

/// The prototype: the parameters' descriptors in parentheses, and the result's, or `V`.
pub fn print_proto(alloc: Global, proto: &Proto) -> Result<Text, AllocError>
    ensures { IfOk result (λ t. t ≡ prototype proto.now) }
{
    let mut bytes = vec![in alloc; b'(']?;
    for ty in proto.params.items() {
        bytes.extend_from_slice(&type_bytes(alloc, ty)?)?;
    }
    bytes.push(b')')?;
    match &proto.ret {
        Some(ty) => bytes.extend_from_slice(&type_bytes(alloc, ty)?)?,
        None => bytes.push(b'V')?,
    }
    Text::of(bytes)
}

/// The byte, or a dot for a slash.
fn dotted(byte: u8) -> u8
    ensures { result ≡ dotted byte }
{
    if byte == b'/' { b'.' } else { byte }
}

/// The Java text of a class's descriptor, as `java.lang.Error` of `Ljava/lang/Error;`.
/// It is the text without its first and its last byte, and with a dot for each slash, whatever the bytes are;
/// of fewer than two bytes it is empty.
pub fn java_text(alloc: Global, class: &[u8]) -> Result<Text, AllocError>
    ensures { IfOk result (λ t. t ≡ java_text class.now) }
{
    let name = if class.len() < 2 {
        &[]
    } else {
        &class[1..class.len() - 1]
    };
    let bytes = name.iter().map(|b| dotted(*b)).collect(alloc)?;
    Text::of(bytes)
}
